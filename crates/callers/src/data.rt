//! A problem from data, without a text, and a plan for it.
ghost use Rattle.std.specs.Prelude.{◌≡◌, Ok, IfOk};
ghost use Rattle.mm_problem.specs.Data.{problem_from};
ghost use Rattle.mm_problem.specs.Dumping.{Dumping};
ghost use Rattle.mm_planner.specs.Planned.{ShowsLeast};

use mm_planner::{Planned, plan};
use mm_problem::{Fault, LimitRow, Problem, StoreRow};
use std::alloc::Global;

/// A plan for these stores, limits, windows and arrivals, with the cut that shows that no plan loses less.
pub fn plan_of_data(
    alloc: Global,
    rows: &[StoreRow],
    limits: &[LimitRow],
    windows: &[u32],
    arrivals: &[u32],
) -> Result<Planned, Fault>
    ensures least { IfOk result (λ planned. (q : Dumping)
        × (problem_from rows.now limits.now windows.now arrivals.now ≡ Ok q)
        × ShowsLeast q planned.plan planned.certificate.cut planned.certificate.by_channels planned.certificate.loss) }
{
    let problem = Problem::new(alloc, rows, limits, windows, arrivals)?;
    plan(alloc, &problem).map_err(|_| Fault::NoMemory)
}
