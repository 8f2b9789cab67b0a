//! The instructions of a request.
ghost use Rattle.std.specs.Prelude.{◌≡◌, map, IfOk};
ghost use Rattle.mm_memory.specs.Instruction.{for_targets, instructions_of};
ghost use Rattle.mm_memory.specs.declared.instruction.Action.TheVariants.{Change as Changes};

use crate::fault::Fault;
use crate::instruction::StoreChange::SetKind;
use crate::instruction::{Action, Instruction, RouteChange, StoreChange};
use crate::validation::Validate;
use mm_base::{Kind, NoMemory};
use mm_st15::{Entries, Request, Target};
use std::alloc::Global;

/// Instructions in order, each or the test that it fails.
pub(crate) type Instructions = Result<Vec<Result<Instruction, Fault>>, NoMemory>;

// The instructions with these fields, in order, or the test that one fails.
fn each<E: Validate>(alloc: Global, entries: &Entries<E>, context: E::Context) -> Instructions
    ensures { IfOk result (λ all. all.items ≡ map (E.validated context) entries.now) }
{
    let all = entries
        .as_slice()
        .iter()
        .map(|fields| fields.validate(context))
        .collect(alloc)?;
    Ok(all)
}

// The same change of each store that is named.
fn change_each(alloc: Global, targets: &Entries<Target>, change: StoreChange) -> Instructions
    ensures { IfOk result (λ all. all.items ≡ for_targets (Changes change) targets.now) }
{
    each(alloc, targets, Action::Change(change))
}

// The instructions of a request, in order.
pub(crate) fn instructions_of(alloc: Global, request: &Request) -> Instructions
    ensures { IfOk result (λ all. all.items ≡ instructions_of request.now) }
{
    match request {
        Request::EnableStorage(targets) => change_each(alloc, targets, StoreChange::Enable),
        Request::DisableStorage(targets) => change_each(alloc, targets, StoreChange::Disable),
        Request::AddReportTypes(types) => each(alloc, types, RouteChange::Add),
        Request::DeleteReportTypes(types) => each(alloc, types, RouteChange::Delete),
        Request::ReportControl(targets) => each(alloc, targets, Action::Report),
        Request::StartRetrieval(ranges) => each(alloc, ranges, ()),
        Request::DeleteContent(limits) => each(alloc, limits, ()),
        Request::SummariseContent(targets) => each(alloc, targets, Action::Report),
        Request::AbortRetrieval(targets) => change_each(alloc, targets, StoreChange::Abort),
        Request::ReportStatus => Ok(Vec::new(alloc)),
        Request::CreateStores(stores) => each(alloc, stores, ()),
        Request::DeleteStores(targets) => each(alloc, targets, Action::Delete),
        Request::ReportConfiguration => Ok(Vec::new(alloc)),
        Request::ResizeStores(sizes) => each(alloc, sizes, ()),
        Request::ChangeToCircular(targets) => change_each(alloc, targets, SetKind(Kind::Circular)),
        Request::ChangeToBounded(targets) => change_each(alloc, targets, SetKind(Kind::Bounded)),
        Request::ChangeChannel(channels) => each(alloc, channels, ()),
    }
}
