//! The subtypes of reports.
ghost use Rattle.std.specs.Prelude.{◌≡◌, IfSome};
ghost use Rattle.mm_st15.specs.ReportKind.{code_of, kind_at};

/// What a report tells, by its subtype. The numbers are this project's.
#[derive(Clone, Copy, Debug, PartialEq, Eq)]
pub enum ReportKind {
    Control = 6,
    Summaries = 13,
    Statuses = 19,
    Configurations = 23,
}

impl ReportKind {
    /// The report with this subtype, where there is one.
    #[must_use]
    pub fn of_code(code: u8) -> Option<ReportKind>
        ensures kind { result ≡ kind_at code }
        ensures code { IfSome result (λ kind. code_of kind ≡ code) }
    {
        match code {
            6 => Some(ReportKind::Control),
            13 => Some(ReportKind::Summaries),
            19 => Some(ReportKind::Statuses),
            23 => Some(ReportKind::Configurations),
            _ => None,
        }
    }

    /// The subtype.
    #[must_use]
    pub fn code(self) -> u8
        ensures code { result ≡ code_of self }
    {
        self as u8
    }
}
