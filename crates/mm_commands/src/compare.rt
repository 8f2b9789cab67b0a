//! What the program says on standard error of a plan that fits and is not shown to be least: what it loses, and what a
//! least plan loses, which is made there and then.
ghost use Rattle.std.specs.Prelude.{IfOk};
ghost use Rattle.mm_plan.specs.Table.{HasShape};

use crate::given::{GivenPlan, read_given_plan};
use crate::halt::Id;
use crate::texts::TaskTexts;
use mm_base::NoMemory;
use mm_cut::Verdict;
use mm_plan::{Plan, loss_of, store_loss};
use mm_planner::{Goal, Planned, plan, plan_in_order};
use mm_problem::Problem;
use std::alloc::Global;
use std::io::{self, Write};

// What a least plan is made for that stands beside a plan with this verdict; none where that does not fit, or is least.
fn goal_beside(verdict: Verdict) -> Option<Goal> {
    match verdict {
        Verdict::DoesNotFit(_) | Verdict::Least(_) | Verdict::LeastInOrder(_) => None,
        Verdict::FirstNotShown(_) => Some(Goal::InOrder),
        _ => Some(Goal::Least),
    }
}

// A least plan for the problem.
fn least_plan(alloc: Global, problem: &Problem, goal: Goal) -> Result<Planned, NoMemory>
    ensures { IfOk result (λ planned. HasShape problem.now planned.plan) }
{
    match goal {
        Goal::Least => Ok(plan(alloc, problem)?),
        Goal::InOrder => Ok(plan_in_order(alloc, problem)?),
    }
}

// Says what both plans lose, and the difference.
fn tell_total<E: Write>(own: u64, least: u64, err: &mut E) -> io::Result<()> {
    write!(err, "note: blocks lost: {own} by this plan")?;
    match own.saturating_sub(least) {
        0 => writeln!(err, ", and no plan that fits loses fewer"),
        more => writeln!(err, ", {least} by a least plan, which is {more} fewer"),
    }
}

// What a plan for a goal is called.
fn name_of(goal: Goal) -> &'static str {
    match goal {
        Goal::Least => "a least plan",
        Goal::InOrder => "a least plan in order",
    }
}

// Says what both plans lose of each store.
fn tell_stores<E: Write>(
    problem: &Problem,
    own: &Plan,
    least: &Plan,
    goal: Goal,
    err: &mut E,
) -> io::Result<()>
    requires own { HasShape problem.now own.now }
    requires least { HasShape problem.now least.now }
{
    let name = name_of(goal);
    write!(err, "note: by store, and after it by {name}:")?;
    let mut before = "";
    for store in 0..problem.stores() {
        let id = Id(problem.id(store));
        let (lost, least) = (
            store_loss(problem, own, store),
            store_loss(problem, least, store),
        );
        write!(err, "{before} {id} {lost} {least}")?;
        before = ",";
    }
    writeln!(err)
}

/// Says of a plan with this verdict what it loses, and what a least plan loses, in all and by store, where it fits and
/// is not shown to be least. Where there is no memory for a plan, nothing is said.
pub(crate) fn tell_losses<E: Write>(
    alloc: Global,
    verdict: Verdict,
    texts: &TaskTexts,
    err: &mut E,
) -> io::Result<()> {
    let Some(goal) = goal_beside(verdict) else {
        return Ok(());
    };
    let Ok(GivenPlan { problem, sheet, .. }) = read_given_plan(alloc, texts) else {
        return Ok(());
    };
    let Ok(planned) = least_plan(alloc, &problem, goal) else {
        return Ok(());
    };
    let own = loss_of(&problem, sheet.plan());
    tell_total(own, planned.certificate.loss(), err)?;
    if problem.stores() > 1 {
        tell_stores(&problem, sheet.plan(), &planned.plan, goal, err)?;
    }
    Ok(())
}
