//! A plan that is carried out, also over links that were used before, and which packets are sent again where a link
//! failed.
ghost use Rattle.std.specs.Prelude.{◌≡◌, ◌<◌, ◌-◌, ◌^◌, ◌↔◌, ℕ, All, IfNone, IfSome, IfErr, IsSome};
ghost use Rattle.mm_report.specs.declared.cause.Cause.TheVariants.{LinkFailed};
ghost use Rattle.callers.specs.Again.{GoesOutAgain};

use crate::ends::{Burst, Downlink};
use mm_dump::may_fail;
use mm_exec::{Halted, RunEnd, carry_out};
use mm_memory::Memory;
use mm_plan::Plan;
use mm_problem::Problem;
use std::alloc::Global;
use std::sync::Wait;
use std::thread::Threads;

/// Carries a plan out, the first step at the moment 1. Where a link failed, what it took last is still stored.
pub fn carry_out_or_tell<R: Threads + Wait + Sync>(
    rt: &R,
    alloc: Global,
    memory: &mut Memory,
    problem: &Problem,
    plan: &Plan,
    sources: Vec<Burst>,
    links: Vec<Downlink>,
) -> Result<RunEnd<Burst, Downlink>, Halted<Burst, Downlink>>
    requires links { All (λ l. l.failed < 2 ^ 64 - 1) links.items }
    // The packets that some link took last were sent, and are sent again.
    ensures again { IfErr result (λ halted. (step : ℕ) → halted.cause ≡ LinkFailed step
        → GoesOutAgain links.items halted.links.items memory.new) }
{
    carry_out(rt, alloc, memory, problem, plan, sources, links, 0)
}

/// Carries a plan out, the first step at the moment 1, where one more failure of each link can be counted. Otherwise
/// nothing is done.
pub fn carry_out_over_used<R: Threads + Wait + Sync>(
    rt: &R,
    alloc: Global,
    memory: &mut Memory,
    problem: &Problem,
    plan: &Plan,
    sources: Vec<Burst>,
    links: Vec<Downlink>,
) -> Option<Result<RunEnd<Burst, Downlink>, Halted<Burst, Downlink>>>
    ensures tested { IsSome result ↔ All (λ l. l.failed < 2 ^ 64 - 1) links.items }
    ensures nothing { IfNone result (memory.new ≡ memory.old) }
    ensures again { IfSome result (λ ended. IfErr ended (λ halted. (step : ℕ) → halted.cause ≡ LinkFailed step
        → GoesOutAgain links.items halted.links.items memory.new)) }
{
    if !may_fail(&links) {
        return None;
    }
    Some(carry_out_or_tell(rt, alloc, memory, problem, plan, sources, links))
}
