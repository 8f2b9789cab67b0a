//! Laws on every solution of a problem's network, by any solver, and on every text of a least plan.
ghost use Rattle.mm_planner.specs.Planned.{SolutionsPlan};
ghost use Rattle.mm_planner.specs.PlanTexts.{PlansCheckLeast, PlansCheckLeastInOrder};

/// Every solution of a problem's network gives a plan that loses least and a cut that shows it.
pub fn solutions_plan()
    ensures { SolutionsPlan }
{
    mm_cut::cuts_bound_losses()
}

/// The verdict of `check_bytes` on any text that `plan_bytes` may return is `Least` with the plan's loss.
pub fn plans_check_least()
    ensures { PlansCheckLeast }
{
    mm_cut::sheet_verdicts_exclude();
    mm_plan::laws::one_text_one_sheet()
}

/// The verdict of `check_bytes` on any text that `plan_in_order_bytes` may return is `LeastInOrder` with the plan's
/// loss.
pub fn plans_check_least_in_order()
    ensures { PlansCheckLeastInOrder }
{
    mm_cut::sheet_verdicts_exclude();
    mm_plan::laws::one_text_one_sheet()
}
