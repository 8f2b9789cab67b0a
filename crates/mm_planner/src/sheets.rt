//! The sheet of a plan that loses least.
ghost use Rattle.std.specs.Prelude.{◌≡◌, map, All, IfOk};
ghost use Rattle.mm_problem.specs.Dumping.{IsDumping};
ghost use Rattle.mm_base.specs.Id.{IsIdField};
ghost use Rattle.mm_planner.specs.PlanTexts.{IsPlain, IsSheetFor, SheetShowsInOrder};

use crate::planner::{plan, plan_in_order};
use mm_base::NoMemory;
use mm_cut::cuts_are_few;
use mm_plan::Sheet;
use mm_problem::{Problem, StoreId};
use std::alloc::Global;

/// The identifiers of the problem's stores, in its order.
pub fn store_ids(alloc: Global, problem: &Problem) -> Result<Vec<StoreId>, NoMemory>
    ensures ids { IfOk result (λ ids. ids.items ≡ map (λ row. row.id) problem.now.rows) }
    ensures each { IfOk result (λ ids. All IsIdField ids.items) }
    ensures problem { IsDumping problem.now }
{
    let mut ids = Vec::new(alloc);
    for store in 0..problem.stores() {
        ids.push(problem.id(store))?;
    }
    Ok(ids)
}

/// The sheet of a dump plan that loses least and leaves no window idle: the stores, the plan with its loss, and a cut
/// whose bound is the loss.
pub fn sheet(alloc: Global, problem: &Problem) -> Result<Sheet, NoMemory>
    ensures { IfOk result (IsSheetFor IsPlain problem.now) }
{
    let stores = store_ids(alloc, problem)?;
    let planned = plan(alloc, problem)?;
    cuts_are_few();
    Ok(Sheet::new(stores, planned.plan, planned.certificate, None))
}

/// The sheet of a dump plan that serves the stores in the problem's order. It also has certificates of the first store,
/// of the first two and so on, up to all but one.
pub fn sheet_in_order(alloc: Global, problem: &Problem) -> Result<Sheet, NoMemory>
    ensures { IfOk result (IsSheetFor SheetShowsInOrder problem.now) }
{
    let stores = store_ids(alloc, problem)?;
    let planned = plan_in_order(alloc, problem)?;
    cuts_are_few();
    Ok(Sheet::new(
        stores,
        planned.plan,
        planned.certificate,
        Some(planned.firsts),
    ))
}
