//! Counts how often what is proposed for made problems is not shown to lose least, so that a planner falls back.
ghost use Rattle.std.specs.Prelude.{IfOk, IfSome};
ghost use Rattle.mm_plan.specs.Table.{HasShape};

use crate::kinds::Kind;
use crate::study::{Texts, made};
use anyhow::Result;
use mm_cut::{Verdict, verify};
use mm_plan::{Plan, fill, fits, loss_of};
use mm_problem::{Problem, read_problem};
use mm_propose::propose;
use std::alloc::Global;
use work_base::Numbers;

// The plan filled, where it fits.
fn filled(alloc: Global, problem: &Problem, plan: &Plan) -> Result<Option<Plan>>
    requires { HasShape problem.now plan.now }
    ensures { IfOk result (λ filled. IfSome filled (HasShape problem.now)) }
{
    match fits(problem, plan) {
        Ok(()) => Ok(Some(fill(alloc, problem, plan)?)),
        Err(_) => Ok(None),
    }
}

// Whether the proposal, filled, is shown to lose least.
fn is_shown(alloc: Global, problem: &Problem) -> Result<bool> {
    let proposal = propose(alloc, problem)?;
    let Some(plan) = filled(alloc, problem, &proposal.plan)? else {
        return Ok(false);
    };
    let loss = loss_of(problem, &plan);
    let cut = &proposal.cut;
    let (stretches, counts) = (cut.stretches.as_slice(), cut.by_channels.as_slice());
    let verdict = verify(problem, &plan, stretches, counts, loss, loss as i64);
    Ok(matches!(verdict, Verdict::Least(_)))
}

// How many of this many problems are not shown to lose least. Without a kind they are those of a study.
fn fallbacks(alloc: Global, count: u32, seed: u64, kind: Option<Kind>) -> Result<u32> {
    let mut numbers = Numbers::new(seed);
    let mut fallbacks: u32 = 0;
    for place in 0..count {
        let Texts { setup, forecast } = made(alloc, &mut numbers, place)?;
        let mut problem = read_problem(alloc, &setup, &forecast)?;
        if let Some(kind) = kind {
            problem = kind.of(alloc, &mut numbers, &problem)?;
        }
        if !is_shown(alloc, &problem)? {
            fallbacks = fallbacks.saturating_add(1);
        }
    }
    Ok(fallbacks)
}

/// How many of this many problems of a study fall back.
pub fn counted(alloc: Global, count: u32, seed: u64) -> Result<String> {
    let fallbacks = fallbacks(alloc, count, seed, None)?;
    Ok(format!(in alloc; "{count} problems, {fallbacks} fall back")?)
}

/// How many of this many problems of each kind fall back.
pub fn counted_by_kind(alloc: Global, count: u32, seed: u64) -> Result<String> {
    let during = fallbacks(alloc, count, seed, Some(Kind::During))?;
    let sized = fallbacks(alloc, count, seed, Some(Kind::Sized))?;
    let both = fallbacks(alloc, count, seed, Some(Kind::Both))?;
    Ok(format!(in alloc;
        "{count} problems with arrivals during dumps, {during} fall back\n{count} with sizes by step, {sized} fall back\n{count} with both, {both} fall back"
    )?)
}
