//! Dump workers: each takes its next order from the queue until it finds that none is left, and carries it out.
ghost use Rattle.std.specs.Prelude.{◌-◌, ◌<◌, ◌^◌, List};
ghost use Rattle.std.specs.Thread.{IsSync, IsSend};
ghost use Rattle.crossbeam_queue.specs.Passes.{view};
ghost use Rattle.mm_shared.specs.Stores.{ids_of};
ghost use Rattle.mm_dump.specs.OrderSteps.{progress};
ghost use Rattle.mm_dump.specs.Courses.{Course};
ghost use Rattle.mm_dump.specs.Workers.{IsHired, IsBack, OrdersFit, past_of, Worked, IsNewPort, AreReady, AllWorked};

use crate::carrying::carry;
use crate::link::Link;
use crate::order::{Order, OrderBroken};
use crate::queue::{OrderPass, OrderQueue, take_next};
use mm_shared::{Port, SharedStores, StoreLabel};
use std::alloc::Global;
use std::sync::Wait;
use std::thread::{Threads, join_mut};

/// What a dump worker has beside its link and its port: its pass of the queue, how many blocks of the window it spent,
/// and why its last order broke, where it did.
#[derive(Drop)]
pub(crate) struct DumpWorker {
    pub(crate) pass: OrderPass,
    pub(crate) spent: u64,
    pub(crate) why: Option<OrderBroken>,
}

/// What the workers of a step share: the queue of the orders' numbers, the orders, and the stores with their labels.
#[derive(Drop)]
pub(crate) struct DumpContext<'a, R: Wait> {
    pub(crate) rt: &'a R,
    pub(crate) queue: &'a OrderQueue,
    pub(crate) orders: &'a [Order],
    pub(crate) labels: &'a [StoreLabel],
    pub(crate) stores: &'a SharedStores,
    pub(crate) alloc: Global,
}

// Carries out orders of the queue until none is left or one breaks, and says why that one did.
fn work<L: Link, R: Wait>(
    context: &DumpContext<'_, R>,
    port: &mut Port,
    worker: &mut DumpWorker,
    link: &mut L,
) -> Option<OrderBroken>
    requires fit { OrdersFit context.now.stores.now context.now.labels.now context.now.orders.now }
    requires port { IsNewPort context.now.stores.now port.old }
    requires hired { IsHired context.now.queue.now worker.old }
    requires room { L.failed link.old < 2 ^ 64 - 1 }
    ensures back { IsBack context.now.queue.now worker.new }
    ensures worked { (courses : List Course) × Worked (ids_of context.now.labels.now) context.now.orders.now
        (view worker.new.pass).taken (past_of result) result (progress L.sent L.failed port.old link.old 0)
        (progress L.sent L.failed port.new link.new worker.new.spent) courses }
{
    for _ in context.rt.forever() {
        let number = take_next(context.rt, context.queue, &mut worker.pass) as usize;
        if number >= context.orders.len() {
            return None;
        }
        let order = context.orders[number];
        let broken = carry(context, order, port, link, &mut worker.spent);
        if broken.is_some() {
            return broken;
        }
    }
    unreachable!()
}

// Lets workers carry out orders, each in a thread of its own where one can be made.
#[cycle(halves)]
pub(crate) fn dump_all<L: Link + Send, R: Threads + Wait + Sync>(
    context: &DumpContext<'_, R>,
    links: &mut [L],
    ports: &mut [Port],
    workers: &mut [DumpWorker],
)
    requires ready { AreReady L.sent L.failed context.now.queue.now context.now.stores.now context.now.labels.now
        context.now.orders.now links.old ports.old workers.old }
    ensures worked { AllWorked L.sent L.failed context.now.queue.now (ids_of context.now.labels.now)
        context.now.orders.now links.old links.new ports.old ports.new workers.new }
{
    if links.len() == 1 {
        let worker = &mut workers[0];
        let why = work(context, &mut ports[0], worker, &mut links[0]);
        worker.why = why;
        return;
    }
    let middle = links.len() / 2;
    let (low_links, high_links) = links.split_at_mut(middle);
    let (low_ports, high_ports) = ports.split_at_mut(middle);
    let (low_workers, high_workers) = workers.split_at_mut(middle);
    dump_halves(
        context,
        (low_links, low_ports, low_workers),
        (high_links, high_ports, high_workers),
    );
}

// The links of half of a step's workers, their ports, and these workers.
type HalfOfWorkers<'a, L> = (&'a mut [L], &'a mut [Port], &'a mut [DumpWorker]);

// Lets two halves of the workers carry out orders side by side. A function of its own, so that what the closures
// require is what it is given.
#[cycle(halves)]
fn dump_halves<L: Link + Send, R: Threads + Wait + Sync>(
    context: &DumpContext<'_, R>,
    low: HalfOfWorkers<'_, L>,
    high: HalfOfWorkers<'_, L>,
)
    requires ready { AreReady L.sent L.failed context.now.queue.now context.now.stores.now context.now.labels.now
        context.now.orders.now low.0.now low.1.now low.2.now
        × AreReady L.sent L.failed context.now.queue.now context.now.stores.now context.now.labels.now
        context.now.orders.now high.0.now high.1.now high.2.now }
    ensures low { AllWorked L.sent L.failed context.now.queue.now (ids_of context.now.labels.now)
        context.now.orders.now low.entry.0.now low.exit.0.now low.entry.1.now low.exit.1.0.now low.exit.1.1.0.now }
    ensures high { AllWorked L.sent L.failed context.now.queue.now (ids_of context.now.labels.now)
        context.now.orders.now high.entry.0.now high.exit.0.now high.entry.1.now high.exit.1.0.now high.exit.1.1.0.now }
{
    let (low_links, low_ports, low_workers) = low;
    let (high_links, high_ports, high_workers) = high;
    let mut low = ||
        requires { IsSync R.row × IsSend L.row × AreReady L.sent L.failed context.now.queue.now context.now.stores.now
            context.now.labels.now context.now.orders.now low_links.now low_ports.now low_workers.now }
        ensures { AllWorked L.sent L.failed context.entry.now.queue.now (ids_of context.entry.now.labels.now)
            context.entry.now.orders.now low_links.entry.now low_links.exit.now low_ports.entry.now low_ports.exit.now
            low_workers.exit.now }
    { dump_all(context, low_links, low_ports, low_workers) };
    let mut high = ||
        requires { IsSync R.row × IsSend L.row × AreReady L.sent L.failed context.now.queue.now context.now.stores.now
            context.now.labels.now context.now.orders.now high_links.now high_ports.now high_workers.now }
        ensures { AllWorked L.sent L.failed context.entry.now.queue.now (ids_of context.entry.now.labels.now)
            context.entry.now.orders.now high_links.entry.now high_links.exit.now high_ports.entry.now
            high_ports.exit.now high_workers.exit.now }
    { dump_all(context, high_links, high_ports, high_workers) };
    join_mut(context.rt, &mut low, &mut high);
}
