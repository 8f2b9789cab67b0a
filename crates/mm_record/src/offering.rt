//! One packet: it is offered to the last store that its report type is routed to, and a copy of it to each other one.
ghost use Rattle.std.specs.Prelude.{◌<◌, [], ◌∷◌, length};
ghost use Rattle.mm_record.specs.Offering.{step_of, offer_at, offers_by, offers_of, MayOffer, Offers};
ghost use Rattle.mm_record.specs.Routings.{AreRoutings};

use crate::context::StepContext;
use crate::routing::{ReportType, Routings};
use mm_base::RouteRow;
use mm_desk::Fault;
use mm_packet::BlockPacket;
use mm_shared::{Port, place_of};
use std::sync::Wait;

// Offers a packet to the store at an index.
fn offer_at<R: Wait>(
    context: &StepContext<'_, R>,
    port: &mut Port,
    packet: BlockPacket,
    index: usize,
) -> Result<(), Fault>
    requires within { index < length context.now.labels.now }
    requires may { MayOffer context.now.labels.now context.now.stores.now port.old.of }
    ensures offers { Offers (step_of context.now) (offer_at (step_of context.now) packet index)
        port.old port.new result }
{
    match context
        .stores
        .offer(context.rt, port, index, context.moment, packet)
    {
        Ok(_) => Ok(()),
        Err(back) => Err(back.fault),
    }
}

// Offers a copy of a packet to the store that a row leads to, if it is one of these.
fn offer_copy<R: Wait>(
    context: &StepContext<'_, R>,
    port: &mut Port,
    packet: &BlockPacket,
    row: &RouteRow,
) -> Result<(), Fault>
    requires may { MayOffer context.now.labels.now context.now.stores.now port.old.of }
    ensures offers { Offers (step_of context.now) (offers_by (step_of context.now) packet.now (row.now ∷ []))
        port.old port.new result }
{
    let Some(index) = place_of(context.labels, &row.store) else {
        return Ok(());
    };
    let copy = packet.copy(context.alloc)?;
    offer_at(context, port, copy, index)
}

// Offers a packet to each store that a row leads to and that is one of these, in the order of the rows: the packet
// itself to the last, and a copy to the others.
fn offer_routed<R: Wait>(
    context: &StepContext<'_, R>,
    port: &mut Port,
    packet: BlockPacket,
    rows: &[RouteRow],
) -> Result<(), Fault>
    requires may { MayOffer context.now.labels.now context.now.stores.now port.old.of }
    ensures offers { Offers (step_of context.now) (offers_by (step_of context.now) packet rows.now)
        port.old port.new result }
{
    let Some((row, others)) = rows.split_first() else {
        return Ok(());
    };
    if !others.is_empty() {
        offer_copy(context, port, &packet, row)?;
        return offer_routed(context, port, packet, others);
    }
    match place_of(context.labels, &row.store) {
        Some(index) => offer_at(context, port, packet, index),
        None => Ok(()),
    }
}

// Offers a packet to each store that its report type is routed to; a telecommand goes to no store.
pub(crate) fn offer_packet<R: Wait>(
    context: &StepContext<'_, R>,
    routings: &mut Routings,
    port: &mut Port,
    packet: BlockPacket,
) -> Result<(), Fault>
    requires may { MayOffer context.now.labels.now context.now.stores.now port.old.of }
    requires routings { AreRoutings context.now.control.now context.now.labels.now routings.old }
    ensures routings { AreRoutings context.now.control.now context.now.labels.now routings.new }
    ensures offers { Offers (step_of context.now) (offers_of (step_of context.now) packet) port.old port.new result }
{
    let content = packet.packet();
    if content.is_telecommand() {
        return Ok(());
    }
    let (apid, service, subtype) = (content.apid(), content.service(), content.subtype());
    let report = ReportType {
        apid,
        service,
        subtype,
    };
    if let Some(index) = routings.lone_store(context.labels, context.control, report) {
        return offer_at(context, port, packet, index);
    }
    let rows = context.control.rows_for(apid, service, subtype);
    offer_routed(context, port, packet, rows)
}
