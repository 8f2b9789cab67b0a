//! The cuts of the first stores: for each store, the runs of spans that lost blocks could reach.
ghost use Rattle.std.specs.Prelude.{◌<◌, length};

use crate::profile::Profile;
use crate::reached::Reached;
use crate::span_sets::SpanSet;
use crate::spans::Span;
use mm_plan::{Cut, NoMemory, Stretch};
use mm_problem::{Arrivals, Problem};
use std::alloc::Global;

// The first step of a span, which follows the last step of the previous one.
fn first_step(spans: &[Span], at: usize) -> u32 {
    match at.checked_sub(1) {
        Some(before) => last_step(spans, before).saturating_add(1),
        None => 1,
    }
}

// The last step of a span.
fn last_step(spans: &[Span], at: usize) -> u32 {
    match spans.get(at) {
        Some(span) => span.last,
        None => 0,
    }
}

// Adds the runs of one store whose arrivals come during dumps. A run is made of spans in which more of its blocks could
// leave.
fn add_whole_runs(
    cut: &mut Vec<Stretch>,
    problem: &Problem,
    spans: &[Span],
    store: usize,
    more: SpanSet,
) -> Result<(), NoMemory>
    requires { store < length problem.now.rows }
{
    let mut starts = more.without(more.next());
    for _ in spans.iter() {
        let Some(first) = starts.take_first() else {
            break;
        };
        let after = more.not().first_from(first).unwrap_or(spans.len());
        cut.push(Stretch {
            store: problem.id(store),
            first: first_step(spans, first),
            last: last_step(spans, after.min(spans.len()).saturating_sub(1)),
        })?;
    }
    Ok(())
}

// Adds the runs of one store. A run is made of spans in which more of its blocks could leave or be kept, and ends with
// the next span, in which the store is full. A span in which it loses blocks that could not leave earlier is a run too.
fn add_runs(
    cut: &mut Vec<Stretch>,
    problem: &Problem,
    spans: &[Span],
    store: usize,
    profile: &Profile,
    more: SpanSet,
) -> Result<(), NoMemory>
    requires { store < length problem.now.rows }
{
    let mut ends = profile.losing.either(more.next()).without(more);
    for _ in spans.iter() {
        let Some(end) = ends.take_first() else {
            break;
        };
        let first = match more.not().last_before(end) {
            Some(other) => other.saturating_add(1),
            None => 0,
        };
        cut.push(Stretch {
            store: problem.id(store),
            first: first_step(spans, first),
            last: last_step(spans, end),
        })?;
    }
    Ok(())
}

/// The cut of the stores that are served. A step is counted by channels if more could leave through closed channels
/// alone.
pub(crate) fn cut_of_first(
    alloc: Global,
    problem: &Problem,
    spans: &[Span],
    profiles: &[Profile],
    exhausted: &Reached,
) -> Result<Cut, NoMemory> {
    let mut stretches = Vec::new(alloc);
    let mut by_channels = Vec::new(alloc);
    let mut inner = SpanSet::NONE;
    for (store, profile) in profiles.iter().enumerate() {
        let more = exhausted.of(store);
        inner = inner.either(more);
        if store < problem.stores() {
            match problem.come() {
                Arrivals::Before => {
                    add_runs(&mut stretches, problem, spans, store, profile, more)?;
                }
                Arrivals::During => {
                    add_whole_runs(&mut stretches, problem, spans, store, more)?;
                }
            }
        }
    }
    let mut rest = inner.without(exhausted.passes);
    for _ in spans.iter() {
        let Some(at) = rest.take_first() else {
            break;
        };
        by_channels.push(last_step(spans, at))?;
    }
    Ok(Cut {
        stretches,
        by_channels,
    })
}
