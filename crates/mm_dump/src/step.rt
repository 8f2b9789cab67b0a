//! A step's dump: workers carry out the orders of one queue, over any number of stores.
ghost use Rattle.std.specs.Prelude.{◌≡◌, ◌≤◌, ◌^◌, [], length, map, sum_by, All, None, Ok, IfOk, OnErr};
ghost use Rattle.mm_desk.specs.declared.desk.TheConstants.{MAX_SEATS};
ghost use Rattle.mm_desk.specs.Machine.{IsState};
ghost use Rattle.mm_shared.specs.Stores.{states_of, labels_of, stores_in, AreAtRest};
ghost use Rattle.mm_dump.specs.Dumped.{MayDump, CarriesOut, LeavesStores};

use crate::buffers::{DumpBuffers, hire, join_passes, reserve_dump};
use crate::dumper::{DumpContext, DumpWorker, dump_all};
use crate::link::Link;
use crate::order::{Order, OrderBroken};
use crate::queue::learn_taken;
use crate::worst::worst_broken;
use mm_base::NoMemory;
use mm_desk::Held;
use mm_shared::{OpenStores, close_all, open_all, seat_workers, settle};
use std::alloc::Global;
use std::sync::Wait;
use std::thread::Threads;

/// What a step's dump did: the worst cause for which an order broke, if one broke, and how many blocks of the pass
/// window it spent: one for each packet sent, and one for each send that failed.
#[derive(Clone, Copy, Debug, PartialEq, Eq)]
pub struct Dumped {
    pub broken: Option<OrderBroken>,
    pub spent: u64,
}

// What a dump without orders does.
const NOTHING: Dumped = Dumped {
    broken: None,
    spent: 0,
};

// How many blocks workers spent.
fn spent_by(workers: &[DumpWorker]) -> u64
    requires few { length workers.now ≤ MAX_SEATS }
    requires bound { All (λ w. w.spent ≤ 2 ^ 48) workers.now }
    ensures spent { result ≡ sum_by (λ w. w.spent) workers.now }
{
    let mut spent = 0;
    for worker in workers {
        spent += worker.spent;
    }
    spent
}

/// Carries out a step's dump orders, of which no two name one store, over stores that are open: each link gets a
/// worker, as far as there are orders. It takes orders from one queue until none is left, and sends the packets of each
/// before it deletes them. A worker whose order breaks takes no further one, and the others go on. A store is locked
/// during a call on it and not during a send. Nothing but a packet's copy takes memory. Without orders no worker is
/// needed.
pub fn dump_open<L: Link + Send, R: Threads + Wait + Sync>(
    rt: &R,
    alloc: Global,
    buffers: &mut DumpBuffers,
    orders: &[Order],
    stores: &mut OpenStores,
    links: &mut [L],
) -> Dumped
    requires rest { AreAtRest stores.old }
    requires may { MayDump L.failed orders.now (stores_in stores.old) links.old }
    ensures carried { CarriesOut L.sent L.failed (map (λ h. h.id) (stores_in stores.old)) orders.now
        (states_of (stores_in stores.old)) (states_of (stores_in stores.new)) links.old links.new
        result.broken result.spent }
    ensures stores { LeavesStores stores.old stores.new }
    // Without orders nothing is done.
    ensures without_orders { orders.now ≡ [] → (result ≡ record { broken = None; spent = 0 })
        × (stores_in stores.new ≡ stores_in stores.old) × (links.new ≡ links.old) }
{
    if orders.is_empty() {
        mm_shared::read_states(stores);
        return NOTHING;
    }
    let many = links.len().min(orders.len());
    seat_workers(stores, many as u32);
    hire(
        rt,
        &buffers.queue,
        &mut buffers.pass,
        &mut buffers.workers,
        orders.len() as u32,
        many as u32,
    );
    dump_all(
        &DumpContext {
            rt,
            queue: &buffers.queue,
            orders,
            labels: &stores.labels,
            stores: &stores.stores,
            alloc,
        },
        &mut links[..many],
        &mut stores.workers,
        &mut buffers.workers,
    );
    settle(stores);
    let broken = worst_broken(&buffers.workers);
    let spent = spent_by(&buffers.workers);
    join_passes(&buffers.queue, &mut buffers.pass, &mut buffers.workers);
    learn_taken(&buffers.queue, &mut buffers.pass);
    Dumped { broken, spent }
}

// Reads each store, which shows that it is sound.
fn read_states(stores: &[Held])
    ensures { All (λ h. IsState h.state) stores.now }
{
    for held in stores {
        held.state.store();
    }
}

/// Carries out a step's dump orders as `dump_open` does. The queue, the workers and the shared stores are reserved for
/// this dump alone. The stores and the links are lent: each store is in its place again afterwards. Where there is no
/// memory for these, nothing is begun.
pub fn dump<L: Link + Send, R: Threads + Wait + Sync>(
    rt: &R,
    alloc: Global,
    orders: &[Order],
    stores: &mut Vec<Held>,
    links: &mut [L],
) -> Result<Dumped, NoMemory>
    requires may { MayDump L.failed orders.now stores.old.items links.old }
    ensures labels { labels_of stores.new.items ≡ labels_of stores.old.items }
    ensures carried { IfOk result (λ d. CarriesOut L.sent L.failed (map (λ h. h.id) stores.old.items) orders.now
        (states_of stores.old.items) (states_of stores.new.items) links.old links.new d.broken d.spent) }
    ensures sound { IfOk result (λ d. All (λ h. IsState h.state) stores.new.items) }
    // Where there was no memory.
    ensures unchanged { OnErr result ((stores.new.items ≡ stores.old.items) × (links.new ≡ links.old)) }
    // Without orders it is never out of memory, and nothing is done.
    ensures without_orders { orders.now ≡ [] → (result ≡ Ok (record { broken = None; spent = 0 }))
        × (stores.new.items ≡ stores.old.items) × (links.new ≡ links.old) }
{
    if orders.is_empty() {
        read_states(stores);
        return Ok(NOTHING);
    }
    let mut buffers = reserve_dump(alloc)?;
    let mut opened = open_all(alloc, stores)?;
    let dumped = dump_open(rt, alloc, &mut buffers, orders, &mut opened, links);
    close_all(opened, stores);
    Ok(dumped)
}
