//! What a run leaves.
ghost use Rattle.std.specs.Prelude.{◌≡◌};

use mm_report::{Cause, Report};

/// What a run that was carried out leaves: its report, its sources and its links.
#[derive(Drop)]
pub struct RunEnd<S: Drop, L: Drop> {
    pub report: Report,
    pub sources: Vec<S>,
    pub links: Vec<L>,
}

/// What a run that was halted leaves: why, the report of the whole steps before, how many blocks of the window of the
/// step in which it was halted were spent, its sources and its links.
#[derive(Drop)]
pub struct Halted<S: Drop, L: Drop> {
    pub cause: Cause,
    pub report: Report,
    pub spent: u64,
    pub sources: Vec<S>,
    pub links: Vec<L>,
}

/// What a run leaves that was planned, printed and carried out: the text of the plan, the report, the sources and the
/// links.
#[derive(Drop)]
pub struct Flown<S: Drop, L: Drop> {
    pub sheet: Vec<u8>,
    pub report: Report,
    pub sources: Vec<S>,
    pub links: Vec<L>,
}

/// What a run leaves that was planned and then halted: the text of the plan, empty where none was made, and the rest.
#[derive(Drop)]
pub struct FlyHalted<S: Drop, L: Drop> {
    pub sheet: Vec<u8>,
    pub halted: Halted<S, L>,
}

/// What a run that is planned, printed and carried out gives.
pub type FlyResult<S, L> = Result<Flown<S, L>, FlyHalted<S, L>>;

impl<S: Drop, L: Drop> RunEnd<S, L> {
    /// The same with the text of its plan.
    pub fn with_sheet(self, sheet: Vec<u8>) -> Flown<S, L>
        ensures { result ≡ record { sheet = sheet; report = self.report; sources = self.sources; links = self.links } }
    {
        let RunEnd {
            report,
            sources,
            links,
        } = self;
        Flown {
            sheet,
            report,
            sources,
            links,
        }
    }
}
