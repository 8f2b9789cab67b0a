//! Reports as the octets of packets.
ghost use Rattle.std.specs.Prelude.{◌≡◌, ◌<◌, IfOk};
ghost use Rattle.mm_packet.specs.Packet.{IsTelecommand};
ghost use Rattle.mm_packet.specs.Spelling.{spelling};
ghost use Rattle.mm_st15.specs.Report.{HasCount};
ghost use Rattle.mm_packet.specs.declared.header.TheConstants.{SEQUENCE_COUNTS};
ghost use Rattle.mm_ask.specs.Telemetry.{telemetry_of};

use crate::counters::Numbers;
use mm_base::NoMemory;
use mm_packet::Packet;
use mm_st15::Report;
use std::alloc::Global;

/// The octets of a report on the request of this packet: its APID, its source identifier as the
/// destination.
pub(crate) fn telemetry_octets(
    alloc: Global,
    asked: &Packet,
    numbers: Numbers,
    report: &Report,
) -> Result<Vec<u8>, NoMemory>
    requires telecommand { IsTelecommand asked.now.kind }
    requires sequence { numbers.sequence < SEQUENCE_COUNTS }
    requires count { HasCount report.now }
    ensures { IfOk result (λ octets. octets.items
        ≡ spelling (telemetry_of asked.now numbers report.now)) }
{
    let telemetry = report.write(
        alloc,
        asked.apid(),
        numbers.sequence,
        numbers.counter,
        asked.source(),
    )?;
    let octets = telemetry.write(alloc)?;
    Ok(octets)
}
