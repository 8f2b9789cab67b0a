//! When what a plan sends is sent.
ghost use Rattle.std.specs.Prelude.{◌≡◌, ◌+◌, ◌-◌, ◌*◌, ◌<◌, ◌≤◌, length, IfOk, OnOk, IfSome};
ghost use Rattle.mm_mission.specs.Edges.{AreTimes};
ghost use Rattle.mm_mission.specs.Packets.{sent_in};
ghost use Rattle.mm_mission.specs.Timeline.{length_of, is_in_pass, both, Follows, IsAdded, AreSent};
ghost use Rattle.mm_mission.specs.Timeline.{step_dump, IsTimeline};

use crate::mission::Mission;
use crate::packets::PacketStep;
use crate::parts::{Pass, Span};
use mm_base::NoMemory;
use std::alloc::{AllocError, Global};

/// Packets of a store that are sent evenly from one time to another.
#[derive(Clone, Copy, Debug, PartialEq, Eq)]
pub struct Dump {
    /// The store's place in the mission, from 0.
    pub store: usize,
    pub span: Span,
    pub packets: u64,
}

impl Span {
    // Whether it lies in a pass.
    fn is_in_pass(&self, passes: &[Pass]) -> bool
        ensures { result ≡ is_in_pass passes.now self.now }
    {
        passes.iter().any(|pass| pass.span.begin <= self.begin && self.end <= pass.span.end)
    }

    fn length(&self) -> u64
        ensures { result ≡ length_of self.now }
    {
        self.end.saturating_sub(self.begin)
    }
}

impl Dump {
    // Both dumps as one, if the second follows this one, of the same store and at its rate, in one pass.
    fn joined(&self, passes: &[Pass], second: &Dump) -> Option<Dump>
        ensures { IfSome result (λ dump. (dump ≡ both self.now second.now) × Follows passes.now self.now second.now) }
    {
        let span = Span {
            begin: self.span.begin,
            end: second.span.end,
        };
        let packets = self.packets.checked_add(second.packets)?;
        let here = u128::from(self.packets) * u128::from(second.span.length());
        let there = u128::from(second.packets) * u128::from(self.span.length());
        if self.store == second.store
            && self.span.end == second.span.begin
            && here == there
            && span.is_in_pass(passes)
        {
            Some(Dump {
                store: self.store,
                span,
                packets,
            })
        } else {
            None
        }
    }
}

// Adds a dump at the end, or joins it to the last one.
fn push_dump(dumps: &mut Vec<Dump>, passes: &[Pass], next: Dump) -> Result<(), AllocError>
    ensures { OnOk result (IsAdded passes.now dumps.old.items next dumps.new.items) }
{
    match dumps.pop() {
        Some(last) => match last.joined(passes, &next) {
            Some(both) => dumps.push(both)?,
            None => {
                dumps.push(last)?;
                dumps.push(next)?;
            }
        },
        None => dumps.push(next)?,
    }
    Ok(())
}

// The dump of a store in a step.
fn step_dump(
    mission: &Mission,
    edges: &[u64],
    steps: &[PacketStep],
    store: usize,
    step: usize,
) -> Dump
    requires table { length steps.now ≡ length mission.now.stores * (length edges.now - 1) }
    requires store { store < length mission.now.stores }
    requires first { 1 ≤ step }
    requires last { step < length edges.now }
    ensures { result ≡ step_dump edges.now (sent_in edges.now steps.now) store step }
{
    let span = Span {
        begin: edges[step - 1],
        end: edges[step],
    };
    let packets = steps[store * (edges.len() - 1) + (step - 1)].dumped;
    Dump {
        store,
        span,
        packets,
    }
}

// Adds what is sent of a store in a step.
fn push_step(
    dumps: &mut Vec<Dump>,
    mission: &Mission,
    edges: &[u64],
    steps: &[PacketStep],
    store: usize,
    step: usize,
) -> Result<(), AllocError>
    requires times { AreTimes mission.now edges.now }
    requires table { length steps.now ≡ length mission.now.stores * (length edges.now - 1) }
    requires store { store < length mission.now.stores }
    requires first { 1 ≤ step }
    requires last { step < length edges.now }
    requires sent { AreSent mission.now edges.now (sent_in edges.now steps.now) store (step - 1) dumps.old.items }
    ensures { OnOk result
        (AreSent mission.now edges.now (sent_in edges.now steps.now) store step dumps.new.items) }
{
    let next = step_dump(mission, edges, steps, store, step);
    if next.packets == 0 {
        return Ok(());
    }
    push_dump(dumps, &mission.passes, next)
}

// Adds what is sent of a store in all steps.
fn push_store(
    dumps: &mut Vec<Dump>,
    mission: &Mission,
    edges: &[u64],
    steps: &[PacketStep],
    store: usize,
) -> Result<(), AllocError>
    requires times { AreTimes mission.now edges.now }
    requires table { length steps.now ≡ length mission.now.stores * (length edges.now - 1) }
    requires store { store < length mission.now.stores }
    requires sent { AreSent mission.now edges.now (sent_in edges.now steps.now) store 0 dumps.old.items }
    ensures { OnOk result
        (AreSent mission.now edges.now (sent_in edges.now steps.now) (store + 1) 0 dumps.new.items) }
{
    for step in 1..edges.len() {
        push_step(dumps, mission, edges, steps, store, step)?;
    }
    Ok(())
}

/// When what a plan sends is sent: in each step the packets of each store that leave in it, evenly while it lasts.
/// The steps are those of `in_packets`. Dumps of a store that follow one another at one rate in one pass are joined.
pub fn timeline(
    alloc: Global,
    mission: &Mission,
    edges: &[u64],
    steps: &[PacketStep],
) -> Result<Vec<Dump>, NoMemory>
    requires times { AreTimes mission.now edges.now }
    requires table { length steps.now ≡ length mission.now.stores * (length edges.now - 1) }
    ensures timeline { IfOk result (λ dumps.
        IsTimeline mission.now edges.now (sent_in edges.now steps.now) dumps.items) }
{
    let mut dumps = Vec::new(alloc);
    for store in 0..mission.stores.len() {
        push_store(&mut dumps, mission, edges, steps, store)?;
    }
    Ok(dumps)
}
