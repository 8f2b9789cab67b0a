//! What is tested before a run.
ghost use Rattle.std.specs.Prelude.{◌≡◌, ◌↔◌, ◌⊎◌, IsTrue, Err, OnOk, IfErr, IfSome, IfNone};
ghost use Rattle.mm_carry.specs.Words.{IsFlyable, NotFlyable};
ghost use Rattle.mm_carry.specs.declared.requirement.Requirement.TheVariants.{Ready, Channel};
ghost use Rattle.mm_carry.specs.Readiness.{AllMeet, IsFirstMismatch, NoneUnknown, IsFirstUnknown, HasLimit, run_start};
ghost use Rattle.mm_carry.specs.Readiness.{MayBegin, Stops};

use crate::requirement::{Requirement, first_mismatch, first_unknown};
use mm_base::StoreId;
use mm_desk::Held;
use mm_plan::{Plan, fits};
use mm_problem::Problem;
use mm_record::{is_clock_late, is_count};
use mm_report::{Cause, MAX_SOURCES};

/// The most links of a run.
pub const MAX_LINKS: usize = 4;

/// Whether a channel of the problem has a limit: in each step or in none.
#[must_use]
pub fn has_limit(problem: &Problem) -> bool
    ensures { IsTrue result ↔ HasLimit problem.now }
{
    for channel in 0..problem.channels() {
        if problem.limit(channel, 1).is_some() {
            return true;
        }
    }
    false
}

// The first store of another virtual channel than the problem says, where a channel has a limit.
fn first_on_other_channel(problem: &Problem, stores: &[Held]) -> Option<StoreId>
    ensures some { IfSome result (λ id. HasLimit problem.now × IsFirstMismatch Channel problem.now stores.now id) }
    ensures none { IfNone result (HasLimit problem.now → AllMeet Channel problem.now stores.now) }
{
    if has_limit(problem) {
        first_mismatch(problem, stores, Requirement::Channel)
    } else {
        None
    }
}

// The first store of the problem that is not ready, or else the first store that is none of the problem's.
fn first_not_ready(problem: &Problem, stores: &[Held]) -> Option<StoreId>
    ensures some { IfSome result (λ id. IsFirstMismatch Ready problem.now stores.now id
        ⊎ (AllMeet Ready problem.now stores.now × IsFirstUnknown problem.now stores.now id)) }
    ensures none { IfNone result (AllMeet Ready problem.now stores.now × NoneUnknown problem.now stores.now) }
{
    match first_mismatch(problem, stores, Requirement::Ready) {
        Some(store) => Some(store),
        None => first_unknown(problem, stores),
    }
}

/// Whether a run may begin: over these stores, from the moment before its first step, with this many sources and links.
/// Otherwise the cause whose test is the first to fail, in the order 55 `NotFlyable`, 38 `PlanShape`, 39 `NotReady`,
/// 40 `SizeDiffers`, 41 `OpeningDiffers`, 53 `ChannelDiffers`, 42 `ClockTooLate`, 43 `PlanDoesNotFit`, 44 `Counts`.
pub fn ready(
    problem: &Problem,
    plan: &Plan,
    stores: &[Held],
    base: u64,
    sources: usize,
    links: usize,
) -> Result<(), Cause>
    ensures ok { OnOk result (MayBegin (run_start problem.now plan.now stores.now base sources links)) }
    ensures err { IfErr result (Stops (run_start problem.now plan.now stores.now base sources links)) }
    ensures not_flyable { (result ≡ Err NotFlyable) ↔ (¬ IsFlyable problem.now) }
{
    if !problem.is_flyable() {
        return Err(Cause::NotFlyable);
    }
    if !plan.has_shape(problem) {
        return Err(Cause::PlanShape);
    }
    if let Some(store) = first_not_ready(problem, stores) {
        return Err(Cause::NotReady { store });
    }
    if let Some(store) = first_mismatch(problem, stores, Requirement::Size) {
        return Err(Cause::SizeDiffers { store });
    }
    if let Some(store) = first_mismatch(problem, stores, Requirement::Opening) {
        return Err(Cause::OpeningDiffers { store });
    }
    if let Some(store) = first_on_other_channel(problem, stores) {
        return Err(Cause::ChannelDiffers { store });
    }
    if is_clock_late(stores, base) {
        return Err(Cause::ClockTooLate);
    }
    if let Err(step) = fits(problem, plan) {
        return Err(Cause::PlanDoesNotFit { step });
    }
    if !(is_count(sources, MAX_SOURCES) && is_count(links, MAX_LINKS)) {
        return Err(Cause::Counts);
    }
    Ok(())
}
