//! The texts of a mission's problem, and the amounts of its plan.
ghost use Rattle.std.specs.Prelude.{◌≡◌, ◌*◌, ◌<◌, length, All, IfOk, OnOk};
ghost use Rattle.mm_mission.specs.Planned.{IsProblemOf};
ghost use Rattle.mm_plan.specs.Table.{amount, HasShape};
ghost use Rattle.mm_problem.specs.Dumping.{row};
ghost use Rattle.mm_problem.specs.Setup.{HasId};
ghost use Rattle.mm_problem.specs.Texts.{SaysProblem};

use mm_base::{NoMemory, StoreRow};
use mm_mission::Mission;
use mm_plan::Plan;
use mm_problem::Problem;
use mm_problem::laws::forecasts;
use mm_rest::{print_forecast, print_setup};
use std::alloc::Global;

// The texts of a setup and of a forecast.
#[derive(Drop)]
pub(crate) struct ProblemTexts {
    pub(crate) setup: Vec<u8>,
    pub(crate) forecast: Vec<u8>,
}

// A store of the mission's problem.
fn row_of(mission: &Mission, edges: &[u64], problem: &Problem, store: usize) -> StoreRow
    requires problem { IsProblemOf mission.now edges.now problem.now }
    requires store { store < length problem.now.rows }
    ensures row { result ≡ row problem.now store }
    ensures id { HasId result }
{
    StoreRow {
        id: problem.id(store),
        size: problem.setup_size(store),
        start: problem.start(store),
        kind: mission.store_at(store).kind,
        channel: problem.channel(store),
    }
}

// The stores of the mission's problem.
fn rows_of(
    alloc: Global,
    mission: &Mission,
    edges: &[u64],
    problem: &Problem,
) -> Result<Vec<StoreRow>, NoMemory>
    requires { IsProblemOf mission.now edges.now problem.now }
    ensures rows { IfOk result (λ rows. rows.items ≡ problem.now.rows) }
    ensures ids { OnOk result (All HasId problem.now.rows) }
{
    let mut rows = Vec::new(alloc);
    'stores: for store in 0..problem.stores() {
        rows.push(row_of(mission, edges, problem, store))?;
    }
    Ok(rows)
}

// The texts of the mission's problem, which say it.
pub(crate) fn problem_texts(
    alloc: Global,
    mission: &Mission,
    edges: &[u64],
    problem: &Problem,
) -> Result<ProblemTexts, NoMemory>
    requires { IsProblemOf mission.now edges.now problem.now }
    ensures { IfOk result (λ texts. SaysProblem texts.setup.items texts.forecast.items problem.now) }
{
    // Its numbers are within their ranges, as `steps` ensures.
    let _steps = problem.steps();
    let rows = rows_of(alloc, mission, edges, problem)?;
    let setup = print_setup(alloc, &rows, &[], &[], problem.come())?;
    let forecast = print_forecast(alloc, problem)?;
    forecasts();
    Ok(ProblemTexts { setup, forecast })
}

// The amounts of a plan, step by step, and within a step in the order of the stores.
pub(crate) fn amounts_of(
    alloc: Global,
    problem: &Problem,
    plan: &Plan,
) -> Result<Vec<u32>, NoMemory>
    requires { HasShape problem.now plan.now }
    ensures amounts { IfOk result (λ amounts. amounts.items ≡ plan.now.amounts) }
    ensures table { IfOk result (λ amounts.
        length amounts.items ≡ length problem.now.windows * length problem.now.rows) }
{
    let _is_table = plan.has_shape(problem);
    let mut amounts = Vec::new(alloc);
    'steps: for step in 1..problem.steps() + 1 {
        'stores: for store in 0..problem.stores() {
            amounts.push(plan.amount(store, step))?;
        }
    }
    Ok(amounts)
}
