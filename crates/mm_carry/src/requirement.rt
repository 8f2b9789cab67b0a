//! What a store of the problem needs to be like before a run.
ghost use Rattle.std.specs.Prelude.{◌≡◌, ◌<◌, length, IfSome, IfNone};
ghost use Rattle.mm_problem.specs.Dumping.{row};
ghost use Rattle.mm_desk.specs.Holdings.{store_of};
ghost use Rattle.mm_carry.specs.Readiness.{meets, AllMeet, IsFirstMismatch, is_unknown, NoneUnknown, IsFirstUnknown};

use mm_base::StoreId;
use mm_desk::Held;
use mm_desk::holding::store_of;
use mm_problem::Problem;
use mm_record::is_ready;
use mm_store::PacketStore;

/// What a store of the problem needs to be like before a run.
#[derive(Clone, Copy, Debug, PartialEq, Eq)]
pub enum Requirement {
    /// It is there, its storage is on and no retrieval is.
    Ready,
    /// It has the size that the problem says.
    Size,
    /// It holds its start volume.
    Opening,
    /// It is on the virtual channel that the problem says.
    Channel,
}

// Whether a store is as this one of the problem needs to be.
fn is_as(problem: &Problem, store: usize, requirement: Requirement, held: &Held) -> bool
    requires { store < length problem.now.rows }
    ensures { result ≡ meets requirement (row problem.now store) (Some held.now) }
{
    match requirement {
        Requirement::Ready => is_ready(held),
        Requirement::Size => held.state.store().size() == problem.setup_size(store),
        Requirement::Opening => held.state.store().len() == problem.start(store),
        Requirement::Channel => held.channel == problem.channel(store),
    }
}

// Whether the store of the problem is there and as it needs to be.
fn meets(problem: &Problem, stores: &[Held], store: usize, requirement: Requirement) -> bool
    requires { store < length problem.now.rows }
    ensures { result ≡ meets requirement (row problem.now store) (store_of (row problem.now store).id stores.now) }
{
    match store_of(stores, &problem.id(store)) {
        Some(held) => is_as(problem, store, requirement, held),
        None => false,
    }
}

// The first store of the problem that is not as it needs to be.
pub(crate) fn first_mismatch(
    problem: &Problem,
    stores: &[Held],
    requirement: Requirement,
) -> Option<StoreId>
    ensures some { IfSome result (IsFirstMismatch requirement problem.now stores.now) }
    ensures none { IfNone result (AllMeet requirement problem.now stores.now) }
{
    for store in 0..problem.stores() {
        if !meets(problem, stores, store, requirement) {
            return Some(problem.id(store));
        }
    }
    None
}

// Whether a store is none of the problem's.
fn is_unknown(problem: &Problem, held: &Held) -> bool
    ensures { result ≡ is_unknown problem.now held.now }
{
    problem.place(&held.id).is_none()
}

// The first store that is none of the problem's.
pub(crate) fn first_unknown(problem: &Problem, stores: &[Held]) -> Option<StoreId>
    ensures some { IfSome result (IsFirstUnknown problem.now stores.now) }
    ensures none { IfNone result (NoneUnknown problem.now stores.now) }
{
    for held in stores {
        if is_unknown(problem, held) {
            return Some(held.id);
        }
    }
    None
}
