//! Requests and reports of service 15 of ECSS-E-ST-70-41C, storage and retrieval, in this profile.
#![tactic(auto)]

mod counted;
mod entries;
mod entry;
mod fault;
mod instruction;
pub mod laws;
mod report;
mod report_entry;
mod report_kind;
mod request;
mod request_kind;
mod service;
mod spelling;
mod table;

pub use entries::Entries;
pub use fault::Fault;
pub use instruction::{Channel, Configuration, ReportType, Size, Target, TimeLimit, TimeRange};
pub use mm_base::NoMemory;
pub use report::{MOST_ROWS, Report};
pub use report_entry::{Row, Status, Summary};
pub use report_kind::ReportKind;
pub use request::Request;
pub use request_kind::RequestKind;
pub use service::SERVICE;
