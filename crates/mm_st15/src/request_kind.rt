//! The subtypes of requests.
ghost use Rattle.std.specs.Prelude.{◌≡◌, ◌≤◌, IfSome};
ghost use Rattle.mm_st15.specs.RequestKind.{code_of, kind_at, width_of};

use crate::entry::Entry;
use crate::instruction::{Channel, Configuration, ReportType, Size, Target, TimeLimit, TimeRange};
use crate::table::requests;

/// What a request asks, by its subtype. The numbers are this project's.
#[derive(Clone, Copy, Debug, PartialEq, Eq)]
pub enum RequestKind {
    EnableStorage,
    DisableStorage,
    AddReportTypes,
    DeleteReportTypes,
    ReportControl,
    StartRetrieval,
    DeleteContent,
    SummariseContent,
    AbortRetrieval,
    ReportStatus,
    CreateStores,
    DeleteStores,
    ReportConfiguration,
    ResizeStores,
    ChangeToCircular,
    ChangeToBounded,
    ChangeChannel,
}

// The request with a subtype.
macro_rules! of_code {
    (($code:expr)
     listed { $($number:literal $name:ident $entry:ident,)* }
     bare { $($other:literal $bare:ident,)* }) => {
        match $code {
            $($number => Some(RequestKind::$name),)*
            $($other => Some(RequestKind::$bare),)*
            _ => None,
        }
    };
}

// The subtype of a request.
macro_rules! code {
    (($kind:expr)
     listed { $($number:literal $name:ident $entry:ident,)* }
     bare { $($other:literal $bare:ident,)* }) => {
        match $kind {
            $(RequestKind::$name => $number,)*
            $(RequestKind::$bare => $other,)*
        }
    };
}

// The octets of one instruction of a request.
macro_rules! width {
    (($kind:expr)
     listed { $($number:literal $name:ident $entry:ident,)* }
     bare { $($other:literal $bare:ident,)* }) => {
        match $kind {
            $(RequestKind::$name => Some($entry::WIDTH),)*
            $(RequestKind::$bare => None,)*
        }
    };
}

impl RequestKind {
    /// The request with this subtype, where there is one.
    #[must_use]
    pub fn of_code(code: u8) -> Option<RequestKind>
        ensures kind { result ≡ kind_at code }
        ensures code { IfSome result (λ kind. code_of kind ≡ code) }
    {
        requests!(of_code(code))
    }

    /// The subtype.
    #[must_use]
    pub fn code(self) -> u8
        ensures code { result ≡ code_of self }
    {
        requests!(code(self))
    }

    /// The octets of one instruction, and none where the request has no data.
    #[must_use]
    pub fn width(self) -> Option<usize>
        ensures width { result ≡ width_of self }
        ensures small { IfSome result (λ width. width ≤ 24) }
    {
        requests!(width(self))
    }
}
