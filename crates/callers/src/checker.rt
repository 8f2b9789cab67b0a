//! A plan text that is believed only where it is shown to lose least.
ghost use Rattle.std.specs.Prelude.{◌≢◌, ℕ, IfOk, IfSome, IfNone};
ghost use Rattle.mm_cut.specs.declared.verdict.Verdict.{Verdict};
ghost use Rattle.mm_cut.specs.declared.verdict.Verdict.TheVariants.{Least};
ghost use Rattle.mm_cut.specs.Checking.{Checks, LosesLeast};

use mm_cut::{Fault, Verdict, check_bytes};
use std::alloc::Global;

/// How many blocks the plan loses, where its text shows that no plan that fits loses fewer.
pub fn least_loss(
    alloc: Global,
    setup: &[u8],
    forecast: &[u8],
    plan: &[u8],
) -> Result<Option<u64>, Fault>
    ensures least { IfOk result (λ loss. IfSome loss
        (LosesLeast setup.now forecast.now plan.now)) }
    ensures other { IfOk result (λ loss. IfNone loss
        ((v : Verdict) × Checks setup.now forecast.now plan.now v × ((n : ℕ) → v ≢ Least n))) }
{
    let (verdict, _line) = check_bytes(alloc, setup, forecast, plan)?;
    match verdict {
        Verdict::Least(loss) => Ok(Some(loss)),
        _ => Ok(None),
    }
}
