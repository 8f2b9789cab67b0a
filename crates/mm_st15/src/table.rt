//! The table of requests.

// A line for each request: its subtype, its name, and the layout of an instruction; last those
// without data. The macro `$write` makes code of the lines and of what it is given.
macro_rules! requests {
    ($write:ident($($given:expr),*)) => {
        $write! {
            ($($given),*)
            listed {
                1 EnableStorage Target,
                2 DisableStorage Target,
                3 AddReportTypes ReportType,
                4 DeleteReportTypes ReportType,
                5 ReportControl Target,
                9 StartRetrieval TimeRange,
                11 DeleteContent TimeLimit,
                12 SummariseContent Target,
                17 AbortRetrieval Target,
                20 CreateStores Configuration,
                21 DeleteStores Target,
                25 ResizeStores Size,
                26 ChangeToCircular Target,
                27 ChangeToBounded Target,
                28 ChangeChannel Channel,
            }
            bare {
                18 ReportStatus,
                22 ReportConfiguration,
            }
        }
    };
}

pub(crate) use requests;
