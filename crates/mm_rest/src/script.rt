//! The script that plans what is left after a step of a plan.
ghost use Rattle.std.specs.Prelude.{◌≡◌, ◌<◌, ◌≤◌, ℕ, IfNone, IfOk, IfSome, length};
ghost use Rattle.mm_problem.specs.Forecast.{limits_of};
ghost use Rattle.mm_plan.specs.Table.{HasShape, amount};
ghost use Rattle.mm_rest.specs.Rests.{IsKeptStep, IsRestScript, plan_script};

use crate::rest::{RestTexts, rest_texts};
use mm_base::numbers::Numeral;
use mm_base::{MAX_STEPS, NoMemory};
use mm_plan::Plan;
use mm_problem::{Problem, Setup};
use std::alloc::Global;

/// The step that the word names, after which another one of the problem comes; none where it names none.
#[must_use]
pub fn kept_step(problem: &Problem, word: &str) -> Option<u32>
    ensures step { IfSome result (IsKeptStep problem.now word.now) }
    ensures none { IfNone result ((n : ℕ) → IsKeptStep problem.now word.now n → ⊥) }
{
    match Numeral::read(word.as_bytes(), u64::from(MAX_STEPS)) {
        Numeral::Number(step) if 1 <= step && step < u64::from(problem.steps()) => {
            Some(step as u32)
        }
        _ => None,
    }
}

/// The script of the two texts.
pub(crate) fn script_of(alloc: Global, texts: &RestTexts) -> Result<Vec<u8>, NoMemory>
    ensures { IfOk result (λ text. text.items ≡ plan_script texts.now.setup.items texts.now.forecast.items) }
{
    let mut text = Vec::new(alloc);
    text.extend_from_slice(b"plan setup.toml forecast.csv\n=== setup.toml\n")?;
    text.extend_from_slice(&texts.setup)?;
    text.extend_from_slice(b"=== forecast.csv\n")?;
    text.extend_from_slice(&texts.forecast)?;
    Ok(text)
}

/// The script that plans what is left after a step of a plan: a line `plan setup.toml forecast.csv`, and the two files.
/// In the setup each store starts with what it holds as the step ends; the forecast has the steps after it, which count
/// from 1 again.
pub fn rest_script(
    alloc: Global,
    setup: &Setup,
    problem: &Problem,
    plan: &Plan,
    step: u32,
) -> Result<Vec<u8>, NoMemory>
    requires stores { problem.now.rows ≡ setup.now.stores }
    requires limits { problem.now.limits ≡ limits_of setup.now.limits }
    requires shape { HasShape problem.now plan.now }
    requires first { 1 ≤ step }
    requires before_last { step < length problem.now.windows }
    ensures { IfOk result (λ text. IsRestScript setup.now problem.now (amount plan.now) step text.items) }
{
    let texts = rest_texts(alloc, setup, problem, plan, step)?;
    script_of(alloc, &texts)
}
