//! A plan with what each store loses in it.
ghost use Rattle.std.specs.Prelude.{◌≡◌, ◌≤◌, length, IfOk};
ghost use Rattle.mm_base.specs.Reading.{IfRefused};
ghost use Rattle.mm_plan.specs.Table.{amount, HasShape};
ghost use Rattle.mm_cut.specs.declared.fault.Fault.TheVariants as fault;
ghost use Rattle.mm_planner.specs.PlanTexts.{IsPlanningFault};
ghost use Rattle.mm_told.specs.Telling.{Tells};
ghost use Rattle.mm_c.specs.Telling.{IsNotTooSmall};
ghost use Rattle.mm_c.specs.Losses.{losses_in, no_losses, PlansWithLosses, LeavesUnplanned};

use mm_base::MAX_STORES;
use mm_cut::Fault;
use mm_plan::{Plan, store_loss};
use mm_planner::print_plan;
use mm_problem::{Problem, read_problem};
use mm_told::{Answer, PLAN_ROOM, Reason, plan_texts_fit, tell_text};
use std::alloc::Global;

/// What each store of a setup loses, in blocks and in the setup's order. The places past the stores have 0.
#[repr(C)]
#[derive(Clone, Copy)]
pub struct LossesTold {
    pub by_store: [u64; MAX_STORES],
}

// The text of a plan, and what each store loses in it.
#[derive(Drop)]
struct Planned {
    text: Vec<u8>,
    losses: LossesTold,
}

impl LossesTold {
    // What is told where there is no plan: each place has 0.
    fn nothing() -> LossesTold
        ensures { result.by_store ≡ no_losses }
    {
        LossesTold {
            by_store: [0; MAX_STORES],
        }
    }

    // What each store loses in a plan.
    fn of(problem: &Problem, plan: &Plan) -> LossesTold
        requires { HasShape problem.now plan.now }
        ensures { result.by_store ≡ losses_in problem.now (amount plan.now) }
    {
        let mut by_store = [0; MAX_STORES];
        for store in 0..problem.stores() {
            by_store[store] = store_loss(problem, plan, store);
        }
        LossesTold { by_store }
    }
}

// A plan that loses least for a setup and a forecast.
fn plan_with_losses(alloc: Global, setup: &[u8], forecast: &[u8]) -> Result<Planned, Fault>
    ensures planned { IfOk result
        (λ made. PlansWithLosses setup.now forecast.now made.losses.by_store made.text.items) }
    ensures refused { IfRefused fault.NoMemory result (IsPlanningFault setup.now forecast.now) }
{
    let problem = read_problem(alloc, setup, forecast)?;
    let printed = print_plan(alloc, &problem)?;
    let losses = LossesTold::of(&problem, printed.sheet.plan());
    Ok(Planned {
        text: printed.text,
        losses,
    })
}

/// The text of a dump plan that loses least, as `rudlayog_plan` gives it; and in `losses` what each store loses in this plan, also where
/// the buffer is too small for the text. Where the call is refused each place of `losses` has 0.
#[unsafe(no_mangle)]
pub extern "C" fn rudlayog_plan_losses(
    alloc: Global,
    setup: &[u8],
    forecast: &[u8],
    out: &mut [u8],
    losses: &mut LossesTold,
    answer: &mut Answer,
)
    ensures told { Tells (PlansWithLosses setup.now forecast.now losses.new.by_store)
        (LeavesUnplanned setup.now forecast.now losses.new.by_store) out.old out.new answer.new }
    ensures room { PLAN_ROOM ≤ length out.old → IsNotTooSmall answer.new }
{
    plan_texts_fit();
    match plan_with_losses(alloc, setup, forecast) {
        Ok(made) => {
            *losses = made.losses;
            *answer = tell_text(&made.text, out);
        }
        Err(fault) => {
            *losses = LossesTold::nothing();
            *answer = Answer::refused(Reason::of_texts(fault));
        }
    }
}
