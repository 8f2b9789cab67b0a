//! What a plan does to stores, in packets.
ghost use Rattle.std.specs.Prelude.{◌≡◌, ◌+◌, ◌-◌, ◌*◌, ◌<◌, ◌≤◌, ◌++◌, length, IfOk, OnOk, IsTrue};
ghost use Rattle.mm_mission.specs.Mission.{is_store};
ghost use Rattle.mm_mission.specs.Packets.{step_of, held_by, step_in, steps_in, all_steps, sent_in, AreSentBy};
ghost use Rattle.mm_mission.specs.Timeline.{amount};

use crate::counter::Counter;
use crate::limits::{MAX_OBSERVATIONS, MAX_RATE, MAX_TIME};
use crate::mission::Mission;
use crate::parts::Store;
use crate::table::growth;
use mm_base::NoMemory;
use std::alloc::{AllocError, Global};

/// What a step of a plan does to a store, in packets.
#[derive(Clone, Copy, Debug, PartialEq, Eq)]
pub struct PacketStep {
    /// A packet that has begun to come has arrived.
    pub arrived: u128,
    pub lost: u128,
    /// Of a unit whose last packets have not come, those that have.
    pub dumped: u64,
    /// What is held as the step ends.
    pub held: u64,
}

impl Store {
    // What a step does to it while it holds so many packets, so many arrive and so many units are to be sent.
    fn step(&self, held: u64, arrived: u128, units: u32) -> PacketStep
        requires store { IsTrue (is_store self.now) }
        requires few { arrived ≤ MAX_OBSERVATIONS * (MAX_RATE * MAX_TIME) + 1 }
        ensures { result ≡ step_of self.now held arrived units }
    {
        let there = u128::from(held) + arrived;
        let dumped = (u128::from(units) * u128::from(self.unit)).min(there);
        let stays = there - dumped;
        let lost = stays.saturating_sub(u128::from(self.size));
        PacketStep {
            arrived,
            lost,
            dumped: dumped as u64,
            held: (stays - lost) as u64,
        }
    }
}

// What a step does to a store that holds so many packets as it begins.
fn step_in(
    mission: &Mission,
    edges: &[u64],
    amounts: &[u32],
    store: usize,
    step: usize,
    held: u64,
) -> PacketStep
    requires table { length amounts.now ≡ (length edges.now - 1) * length mission.now.stores }
    requires store { store < length mission.now.stores }
    requires first { 1 ≤ step }
    requires last { step < length edges.now }
    requires held { held ≡ held_by mission.now edges.now (amount mission.now amounts.now) store (step - 1) }
    ensures { result ≡ step_in mission.now edges.now (amount mission.now amounts.now) store step }
{
    let units = amounts[(step - 1) * mission.stores.len() + store];
    let arrived = growth(mission, Counter::Packets(store), edges, step);
    mission.store_at(store).step(held, arrived, units)
}

// Adds what each step does to a store.
fn push_steps(
    steps: &mut Vec<PacketStep>,
    mission: &Mission,
    edges: &[u64],
    amounts: &[u32],
    store: usize,
) -> Result<(), AllocError>
    requires table { length amounts.now ≡ (length edges.now - 1) * length mission.now.stores }
    requires store { store < length mission.now.stores }
    ensures { OnOk result (steps.new.items
        ≡ steps.old.items ++ steps_in mission.now edges.now (amount mission.now amounts.now) store) }
{
    let mut held = mission.store_at(store).start;
    for step in 1..edges.len() {
        let next = step_in(mission, edges, amounts, store, step, held);
        held = next.held;
        steps.push(next)?;
    }
    Ok(())
}

/// What each step of a plan does to each store, in packets: store by store, and of a store step by step. The amounts
/// come step by step, and within a step in the mission's order.
#[tactic(auto, using(crate::proofs::Stepped::next_store))]
pub fn in_packets(
    alloc: Global,
    mission: &Mission,
    edges: &[u64],
    amounts: &[u32],
) -> Result<Vec<PacketStep>, NoMemory>
    requires table { length amounts.now ≡ (length edges.now - 1) * length mission.now.stores }
    ensures steps { IfOk result (λ steps.
        steps.items ≡ all_steps mission.now edges.now (amount mission.now amounts.now)) }
    ensures table { IfOk result (λ steps.
        length steps.items ≡ length mission.now.stores * (length edges.now - 1)) }
    ensures sent { IfOk result (λ steps.
        AreSentBy mission.now edges.now (amount mission.now amounts.now) (sent_in edges.now steps.items)) }
{
    let mut steps = Vec::new(alloc);
    for store in 0..mission.stores.len() {
        push_steps(&mut steps, mission, edges, amounts, store)?;
    }
    Ok(steps)
}
