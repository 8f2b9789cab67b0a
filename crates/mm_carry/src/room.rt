//! What a run takes before its first step.
ghost use Rattle.std.specs.Prelude.{◌≡◌, ◌≤◌, [], length, map, IfOk, vec_capacity};
ghost use Rattle.mm_base.specs.declared.limits.TheConstants.{MAX_STORES};
ghost use Rattle.mm_problem.specs.Dumping.{IsDumping};

use mm_base::{MAX_STORES, NoMemory, StoreId};
use mm_dump::{DumpBuffers, Order, reserve_dump};
use mm_problem::Problem;
use mm_report::Report;
use std::alloc::Global;

/// What a run takes before its first step, beside its open stores: the report, with room for all steps, room for the
/// orders of a step, and what dumps take.
#[derive(Drop)]
pub(crate) struct RunBuffers {
    pub(crate) report: Report,
    pub(crate) orders: Vec<Order>,
    pub(crate) dumping: DumpBuffers,
}

// The identifiers of the problem's stores, in its order.
fn store_ids(alloc: Global, problem: &Problem) -> Result<Vec<StoreId>, NoMemory>
    ensures ids { IfOk result (λ ids. ids.items ≡ map (λ r. r.id) problem.now.rows) }
    ensures problem { IsDumping problem.now }
{
    let mut ids = Vec::new(alloc);
    for store in 0..problem.stores() {
        ids.push(problem.id(store))?;
    }
    Ok(ids)
}

// What a run of a problem takes.
pub(crate) fn reserve_run(alloc: Global, problem: &Problem) -> Result<RunBuffers, NoMemory>
    ensures report { IfOk result (λ room. room.report
        ≡ record { ids = map (λ r. r.id) problem.now.rows; most = length problem.now.windows; steps = [] }) }
    ensures orders { IfOk result (λ room. MAX_STORES ≤ vec_capacity room.orders) }
{
    let ids = store_ids(alloc, problem)?;
    let report = Report::new(alloc, ids, problem.steps())?;
    let orders = Vec::with_capacity(alloc, MAX_STORES)?;
    let dumping = reserve_dump(alloc)?;
    Ok(RunBuffers {
        report,
        orders,
        dumping,
    })
}
