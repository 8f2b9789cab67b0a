//! What is tested before recorders begin. Nothing here takes memory.
ghost use Rattle.std.specs.Prelude.{◌≡◌, not, find};
ghost use Rattle.mm_record.specs.Words.{list_any, option_copied};
ghost use Rattle.mm_record.specs.Causes.{is_ready, is_late, is_clock_late, is_count, cause_before};

use mm_desk::Held;
use mm_report::{Cause, LATEST_START, MAX_SOURCES};
use mm_store::PacketStore;

/// Whether a store can take part in a step: its storage is on, and no retrieval from it is.
pub fn is_ready(held: &Held) -> bool
    ensures ready { result ≡ is_ready held.now }
{
    held.state.storage() && held.state.retrieval().is_none()
}

// Whether a moment is too late for the start of a run.
fn is_late(moment: u64) -> bool
    ensures { result ≡ is_late moment }
{
    moment > LATEST_START
}

// Whether the last storage time of a store is too late.
fn any_late(stores: &[Held]) -> bool
    ensures { result ≡ list_any (λ h. is_late h.state.store.last) stores.now }
{
    stores
        .iter()
        .any(|held| is_late(held.state.store().last_time()))
}

/// Whether the moment before the first step of a run, or the last storage time of a store, is too late.
pub fn is_clock_late(stores: &[Held], base: u64) -> bool
    ensures late { result ≡ is_clock_late stores.now base }
{
    is_late(base) || any_late(stores)
}

/// Whether there is at least one, and no more than the most.
pub fn is_count(count: usize, most: usize) -> bool
    ensures count { result ≡ is_count count most }
{
    1 <= count && count <= most
}

// The first store that cannot take part in a step.
fn not_ready(stores: &[Held]) -> Option<&Held>
    ensures { option_copied result ≡ find (λ h. not (is_ready h)) stores.now }
{
    stores.iter().find(|held| !is_ready(held))
}

/// Why a step of recorders over these stores, with this many sources, is not begun.
pub fn cause_before(stores: &[Held], base: u64, sources: usize) -> Option<Cause>
    ensures cause { result ≡ cause_before stores.now base sources }
{
    if let Some(held) = not_ready(stores) {
        return Some(Cause::NotReady { store: held.id });
    }
    if is_clock_late(stores, base) {
        return Some(Cause::ClockTooLate);
    }
    if !is_count(sources, MAX_SOURCES) {
        return Some(Cause::Counts);
    }
    None
}
