//! The stores, the sources and the links of a run.
use mm_desk::Held;
use mm_report::Report;

/// The stores, the sources and the links of a run, before it and after it, and the report of its whole steps.
#[derive(Drop)]
pub struct RunParts<S: Drop, L: Drop> {
    pub stores: Vec<Held>,
    pub sources: Vec<S>,
    pub links: Vec<L>,
    pub report: Report,
}
