//! What a run leaves that did not begin or was halted.
ghost use Rattle.std.specs.Prelude.{◌≡◌, ◌-◌, ◌≤◌, ◌↔◌, [], length, slice_get, slice_index_or, IsTrue};
ghost use Rattle.std.specs.Option.{option_map};
ghost use Rattle.mm_problem.specs.Dumping.{window};
ghost use Rattle.mm_carry.specs.Readiness.{HasLimit};
ghost use Rattle.mm_run.specs.StoppedRun.{dumped_at, dumped_in, still_held, volume_of};

use crate::link::ScriptedLink;
use crate::source::ScriptedSource;
use mm_base::StoreId;
use mm_carry::{Halted, has_limit};
use mm_dump::Link;
use mm_memory::Memory;
use mm_problem::Problem;
use mm_report::Report;
use mm_store::PacketStore;
use std::fmt;

/// How many packets a store holds.
#[derive(Clone, Copy, Debug, PartialEq, Eq)]
pub struct Volume {
    pub store: StoreId,
    pub blocks: u32,
}

/// What a run leaves that did not begin or was halted: its problem, its memory, the cause, the report of the completed
/// steps, what was spent of the window of the step in which it was halted, its sources and its links.
#[derive(Drop)]
pub struct StoppedRun {
    pub problem: Problem,
    pub memory: Memory,
    pub halted: Halted<ScriptedSource, ScriptedLink>,
}

impl fmt::Debug for StoppedRun {
    fn fmt<W: fmt::Write>(&self, f: &mut fmt::Formatter<W>) -> fmt::Result {
        let (cause, spent) = (self.halted.cause, self.halted.spent);
        write!(f, "StoppedRun {{ cause: {cause:?}, spent: {spent} }}")
    }
}

// How many packets of the store at this place were dumped in a completed step.
fn dumped_in(report: &Report, step: u32, place: usize) -> u64
    requires first { 1 ≤ step }
    requires last { step ≤ length report.now.steps }
    ensures { result ≡ dumped_in place (slice_index_or report.now.steps (step - 1) []) }
{
    report
        .row(step)
        .get(place)
        .map_or(0, |counts| counts.dumped)
}

impl StoppedRun {
    /// The store at this place of the memory that the run left, and how many packets it holds: the start volume of a
    /// plan that goes on from there.
    #[must_use]
    pub fn volume(&self, place: usize) -> Option<Volume>
        ensures volume { result ≡ option_map volume_of (slice_get self.now.memory.stores place) }
    {
        let held = self.memory.stores().get(place)?;
        Some(Volume {
            store: held.id,
            blocks: held.state.store().len(),
        })
    }

    /// How much is left of the window of the step in which the run was halted: 0 for a step that the problem does not
    /// have.
    #[must_use]
    pub fn window_left(&self, step: u32) -> u64
        ensures left { 1 ≤ step → step ≤ length self.now.problem.windows
            → result ≡ window self.now.problem step - self.now.halted.spent }
    {
        if step == 0 || step > self.problem.steps() {
            return 0;
        }
        u64::from(self.problem.window(step)).saturating_sub(self.halted.spent)
    }

    /// Whether some channel of the problem has a limit.
    #[must_use]
    pub fn is_limited(&self) -> bool
        ensures limited { IsTrue result ↔ HasLimit self.now.problem }
    {
        has_limit(&self.problem)
    }

    /// How many packets of the store at this place of the memory were dumped in the step in which the run was halted:
    /// those that the store has deleted, less those that the report says were dumped in the completed steps.
    #[must_use]
    pub fn dumped(&self, place: usize) -> u64
        ensures dumped { result ≡ dumped_at place self.now }
    {
        let stores = self.memory.stores();
        let mut dumped = stores.get(place).map_or(0, |held| held.state.deleted());
        for step in 0..self.halted.report.steps() {
            dumped = dumped.saturating_sub(dumped_in(&self.halted.report, step + 1, place));
        }
        dumped
    }

    /// How many packets were sent in the step in which the run was halted and are still held: of what was spent, what
    /// was neither a failed send nor dumped.
    #[must_use]
    pub fn still_held(&self) -> u64
        ensures held { result ≡ still_held self.now }
    {
        let mut held = self.halted.spent;
        for link in &self.halted.links {
            held = held.saturating_sub(link.failures());
        }
        for place in 0..self.memory.stores().len() {
            held = held.saturating_sub(self.dumped(place));
        }
        held
    }
}
