//! One dump order carried out. It alone makes calls on its store, at which no retrieval was on, so none of its calls is
//! refused.
ghost use Rattle.std.specs.Prelude.{◌≡◌, ◌+◌, ◌-◌, ◌<◌, ◌≤◌, ◌^◌, length, IfOk, IfErr};
ghost use Rattle.mm_store.specs.Content.{clock_end};
ghost use Rattle.mm_shared.specs.Stores.{ids_of};
ghost use Rattle.mm_dump.specs.OrderSteps.{order_store, IsPortAt, progress, CallsOnce, Deletes, BreaksOff, SentAll};
ghost use Rattle.mm_dump.specs.OrderSteps.{OrderCarriedOut};

use crate::dumper::DumpContext;
use crate::link::Link;
use crate::order::{Order, OrderBroken};
use mm_base::StoreId;
use mm_desk::{Event, Fault};
use mm_shared::{Port, SharedStores};
use mm_store::Stored;
use std::alloc::Global;
use std::sync::Wait;

/// Where an order is carried out: at the store of a place, under its identifier.
#[derive(Drop)]
struct OrderContext<'a, R: Wait> {
    rt: &'a R,
    alloc: Global,
    stores: &'a SharedStores,
    place: usize,
    id: &'a StoreId,
}

// Begins a retrieval of all packets.
#[tactic(auto, using(crate::proofs::OneOrder::calls_once))]
fn begin<R: Wait>(context: &OrderContext<'_, R>, port: &mut Port)
    requires at { IsPortAt context.now.stores.now context.now.place port.old }
    ensures called { CallsOnce context.now.place (Event.Begin 1 clock_end) port.old port.new }
    ensures of { port.new.of ≡ port.old.of }
{
    let _begun = context
        .stores
        .begin(context.rt, port, context.place, 1, u64::MAX);
}

// Aborts the retrieval.
#[tactic(auto, using(crate::proofs::OneOrder::calls_once))]
fn abort<R: Wait>(context: &OrderContext<'_, R>, port: &mut Port)
    requires at { IsPortAt context.now.stores.now context.now.place port.old }
    ensures called { CallsOnce context.now.place Event.Abort port.old port.new }
    ensures of { port.new.of ≡ port.old.of }
{
    let _aborted = context.stores.abort(context.rt, port, context.place);
}

// Sends the packets of a retrieval, this many or as many as there are, and ends it. A block of the window is spent for
// each. Gives the time of the last one, where one was sent. Where there is no memory for a copy, or the link does not
// take a packet, the retrieval is aborted. A refused call, which never comes, is told as out of memory.
fn send_all<L: Link, R: Wait>(
    context: &OrderContext<'_, R>,
    port: &mut Port,
    link: &mut L,
    spent: &mut u64,
    amount: u32,
) -> Result<Option<u64>, OrderBroken>
    requires at { IsPortAt context.now.stores.now context.now.place port.old }
    requires room { L.failed link.old < 2 ^ 64 - 1 }
    requires blocks { spent.old + amount < 2 ^ 64 }
    ensures of { port.new.of ≡ port.old.of }
    ensures ok { IfOk result (λ last. SentAll (order_store context.now.place context.now.id.now) amount last
        (progress L.sent L.failed port.old link.old spent.old) (progress L.sent L.failed port.new link.new spent.new)) }
    ensures err { IfErr result (λ why. BreaksOff (order_store context.now.place context.now.id.now) amount why
        (progress L.sent L.failed port.old link.old spent.old) (progress L.sent L.failed port.new link.new spent.new)) }
{
    let mut last = None;
    for _ in 0..amount {
        let next = match context
            .stores
            .next(context.rt, context.alloc, port, context.place)
        {
            Ok(next) => next,
            Err(Fault::NoMemory) => {
                abort(context, port);
                return Err(OrderBroken::NoMemory);
            }
            Err(_) => return Err(OrderBroken::NoMemory),
        };
        let Some(stored) = next else {
            return Ok(last);
        };
        *spent += 1;
        if link.send(context.id, stored.time, &stored.packet).is_err() {
            abort(context, port);
            return Err(OrderBroken::LinkFailed);
        }
        last = Some(stored.time);
    }
    abort(context, port);
    Ok(last)
}

// Deletes the packets that were sent, up to the time of the last one.
#[tactic(auto, using(crate::proofs::OneOrder::calls_once))]
fn delete_sent<R: Wait>(context: &OrderContext<'_, R>, port: &mut Port, last: Option<u64>)
    requires at { IsPortAt context.now.stores.now context.now.place port.old }
    ensures called { Deletes context.now.place last port.old port.new }
{
    let Some(limit) = last else {
        return;
    };
    let _deleted = context
        .stores
        .delete(context.rt, port, context.place, limit);
}

/// Carries out an order at the store of its place, and says why it broke, if it broke: each packet that the store gives
/// is sent, for which a block of the window is spent, and at the end those sent are deleted. If memory is refused or a
/// send fails, the retrieval is aborted and nothing is deleted.
pub(crate) fn carry<L: Link, R: Wait>(
    context: &DumpContext<'_, R>,
    order: Order,
    port: &mut Port,
    link: &mut L,
    spent: &mut u64,
) -> Option<OrderBroken>
    requires named { order.place < length context.now.labels.now }
    requires at { IsPortAt context.now.stores.now order.place port.old }
    requires room { L.failed link.old < 2 ^ 64 - 1 }
    requires blocks { spent.old < 2 ^ 48 }
    ensures few { spent.new ≤ spent.old + 2 ^ 32 }
    ensures carried { OrderCarriedOut (ids_of context.now.labels.now) order result
        (progress L.sent L.failed port.old link.old spent.old) (progress L.sent L.failed port.new link.new spent.new) }
{
    let place = order.place as usize;
    let at = OrderContext {
        rt: context.rt,
        alloc: context.alloc,
        stores: context.stores,
        place,
        id: &context.labels[place].id,
    };
    begin(&at, port);
    match send_all(&at, port, link, spent, order.amount) {
        Ok(last) => delete_sent(&at, port, last),
        Err(why) => return Some(why),
    }
    None
}
