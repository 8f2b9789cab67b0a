//! Recorders: each takes what its source gives in a step, and offers it.
ghost use Rattle.std.specs.Prelude.{◌≡◌, ◌<◌, length};
ghost use Rattle.std.specs.Result.{result_err};
ghost use Rattle.std.specs.Thread.{IsSync, IsSend};
ghost use Rattle.mm_shared.specs.Stores.{end_of, IsFresh};
ghost use Rattle.mm_record.specs.Offering.{MayOffer, step_of};
ghost use Rattle.mm_record.specs.Recorders.{HasOfferedUntil, HaveFreshPorts, HaveOffered};
ghost use Rattle.mm_record.specs.Steps.{worse_of};

use crate::context::StepContext;
use crate::offering::offer_packet;
use crate::routing::Routings;
use crate::source::AnySource;
use mm_desk::Fault;
use mm_shared::Port;
use std::sync::Wait;
use std::thread::{Threads, join_mut};

// Records what a source gives in a step.
fn record_source<S: AnySource, R: Wait>(
    context: &StepContext<'_, R>,
    source: &mut S,
    port: &mut Port,
) -> Result<(), Fault>
    requires may { MayOffer context.now.labels.now context.now.stores.now port.old.of }
    requires fresh { IsFresh port.old }
    ensures offered { HasOfferedUntil S.leads S.until (step_of context.now) source.old source.new port.new
        (result_err result) }
    ensures end { end_of port.new ≡ end_of port.old }
{
    let mut routings = Routings::new();
    for _ in context.rt.forever() {
        let Some(packet) = source.next_packet(context.step) else {
            return Ok(());
        };
        offer_packet(context, &mut routings, port, packet)?;
    }
    unreachable!()
}

// The worse of two reasons why recorders stopped early: out of memory only if neither is another.
fn worse(first: Option<Fault>, second: Option<Fault>) -> Option<Fault>
    ensures { result ≡ worse_of first second }
{
    match first {
        None => second,
        Some(Fault::NoMemory) => second.or(first),
        Some(_) => first,
    }
}

// Lets recorders run, each in a thread of its own where one can be made, and tells why some stopped early.
#[cycle(recorders)]
pub(crate) fn record_all<S: AnySource + Send, R: Threads + Wait + Sync>(
    context: &StepContext<'_, R>,
    sources: &mut [S],
    workers: &mut [Port],
) -> Option<Fault>
    requires may { HaveFreshPorts context.now.labels.now context.now.stores.now sources.old workers.old }
    ensures offered { HaveOffered S.leads S.until (step_of context.now) sources.old sources.new workers.old workers.new
        result }
{
    if sources.is_empty() {
        return None;
    }
    if sources.len() == 1 {
        return record_source(context, &mut sources[0], &mut workers[0]).err();
    }
    let half = sources.len() / 2;
    let (low_sources, high_sources) = sources.split_at_mut(half);
    let (low_workers, high_workers) = workers.split_at_mut(half);
    let (first, second) = record_halves(
        context,
        low_sources,
        low_workers,
        high_sources,
        high_workers,
    );
    worse(first, second)
}

// Lets the recorders of two halves run, each half in a thread of its own where one can be made, and tells why some of
// each half stopped early.
#[cycle(recorders)]
fn record_halves<S: AnySource + Send, R: Threads + Wait + Sync>(
    context: &StepContext<'_, R>,
    low_sources: &mut [S],
    low_workers: &mut [Port],
    high_sources: &mut [S],
    high_workers: &mut [Port],
) -> (Option<Fault>, Option<Fault>)
    requires low { HaveFreshPorts context.now.labels.now context.now.stores.now low_sources.old low_workers.old }
    requires high { HaveFreshPorts context.now.labels.now context.now.stores.now high_sources.old high_workers.old }
    requires some_low { 0 < length low_sources.old }
    requires some_high { 0 < length high_sources.old }
    ensures low { HaveOffered S.leads S.until (step_of context.now) low_sources.old low_sources.new low_workers.old
        low_workers.new result.0 }
    ensures high { HaveOffered S.leads S.until (step_of context.now) high_sources.old high_sources.new high_workers.old
        high_workers.new result.1 }
{
    let mut low = || -> Option<Fault>
        requires { IsSync R.row × IsSend S.row
            × HaveFreshPorts context.now.labels.now context.now.stores.now low_sources.now low_workers.now }
        ensures { HaveOffered S.leads S.until (step_of context.entry.now) low_sources.entry.now low_sources.exit.now
            low_workers.entry.now low_workers.exit.now result }
    { record_all(context, low_sources, low_workers) };
    let mut high = || -> Option<Fault>
        requires { IsSync R.row × IsSend S.row
            × HaveFreshPorts context.now.labels.now context.now.stores.now high_sources.now high_workers.now }
        ensures { HaveOffered S.leads S.until (step_of context.entry.now) high_sources.entry.now high_sources.exit.now
            high_workers.entry.now high_workers.exit.now result }
    { record_all(context, high_sources, high_workers) };
    join_mut(context.rt, &mut low, &mut high)
}
