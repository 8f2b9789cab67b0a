//! Reports that wait to be given.
ghost use Rattle.std.specs.Prelude.{◌≡◌, ◌<◌, ◌≤◌, IfOk};
ghost use Rattle.mm_packet.specs.declared.header.TheConstants.{IDLE_APID, SEQUENCE_COUNTS};
ghost use Rattle.mm_st15.specs.Report.{HasCount};
ghost use Rattle.mm_service.specs.Waiting.{report_packet};

use mm_ask::Numbers;
use mm_base::NoMemory;
use mm_packet::Packet;
use mm_st15::Report;
use std::alloc::Global;
use std::marker::Model;

// A report that waits, with the numbers, the APID and the destination of its packet. Contracts see the packet.
#[derive(Drop)]
pub(crate) struct Waiting {
    apid: u16,
    destination: u16,
    numbers: Numbers,
    report: Report,
}

impl Model for Waiting {
    ghost use Rattle.std.specs.Prelude.{◌<◌, ◌≤◌};
    ghost use Rattle.mm_packet.specs.Packet.{SpacePacket};
    ghost use Rattle.mm_packet.specs.declared.header.TheConstants.{IDLE_APID, SEQUENCE_COUNTS};
    ghost use Rattle.mm_service.specs.Waiting.{report_packet, entries_of, most_of};

    ghost Value = { SpacePacket };

    ghost view = { λ w. report_packet w.apid w.destination w.numbers w.report };

    ghost invariant = { λ w. (w.apid < IDLE_APID) × (w.numbers.sequence < SEQUENCE_COUNTS) × (entries_of w.report ≤ most_of w.report) };
}

impl Waiting {
    // A report that waits.
    pub(crate) fn new(apid: u16, destination: u16, numbers: Numbers, report: Report) -> Waiting
        requires apid { apid < IDLE_APID }
        requires sequence { numbers.sequence < SEQUENCE_COUNTS }
        requires count { HasCount report }
        ensures packet { result ≡ report_packet apid destination numbers report }
    {
        Waiting {
            apid,
            destination,
            numbers,
            report,
        }
    }

    // Its packet.
    pub(crate) fn packet(&self, alloc: Global) -> Result<Packet, NoMemory>
        ensures packet { IfOk result (λ packet. packet ≡ self.now) }
    {
        let packet = self.report.write(
            alloc,
            self.apid,
            self.numbers.sequence,
            self.numbers.counter,
            self.destination,
        )?;
        Ok(packet)
    }
}
