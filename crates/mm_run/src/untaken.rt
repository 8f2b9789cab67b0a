//! Packets of the sources that go to no store.
ghost use Rattle.std.specs.Prelude.{◌≡◌, ◌<◌, ◌≤◌, ◌∷◌, ◌++◌, [], List};
ghost use Rattle.mm_packet.specs.Packet.{IsTelemetry};
ghost use Rattle.mm_run.specs.Types.{SourceLine};
ghost use Rattle.mm_run.specs.Counted.{HasCounted, all_unstored};
ghost use Rattle.mm_run.specs.Untaken.{HasRoutesToStores, is_untaken};

use crate::sources::SourceLine;
use crate::texts::ProblemAndMemory;
use mm_memory::Memory;
use mm_packet::Packet;

/// The first line of the sources whose telemetry no route takes, and its report type.
#[derive(Clone, Copy, Debug, PartialEq, Eq)]
pub struct Untaken {
    /// The number of the line, from 1.
    pub line: u64,
    pub apid: u16,
    pub service: u8,
    pub subtype: u8,
}

impl Untaken {
    // What is told of the packet of a line, which has this number.
    fn of(line: u64, packet: &Packet) -> Untaken {
        Untaken {
            line,
            apid: packet.apid(),
            service: packet.service(),
            subtype: packet.subtype(),
        }
    }
}

/// How many packets of the sources go to no store. Each is counted once.
#[derive(Clone, Copy, Debug, PartialEq, Eq)]
pub struct Unstored {
    /// Packets of steps after the last one, which are never asked for.
    pub late: u64,
    /// Telecommands among the others.
    pub telecommands: u64,
    /// Telemetry among the others that no route takes.
    pub unrouted: u64,
}

/// Counts the packets that go to no store, where the number of steps and the routes are known.
#[derive(Clone, Copy)]
pub(crate) struct UnstoredCount<'a> {
    start: Option<&'a ProblemAndMemory>,
    pub(crate) unstored: Unstored,
    /// The first packet that no route takes.
    pub(crate) untaken: Option<Untaken>,
}

impl<'a> UnstoredCount<'a> {
    pub(crate) fn new(start: Option<&'a ProblemAndMemory>) -> UnstoredCount<'a>
        ensures start { result.start ≡ start.entry }
        ensures none { all_unstored result.unstored ≡ 0 }
        ensures counts { HasCounted result [] }
    {
        UnstoredCount {
            start,
            unstored: Unstored {
                late: 0,
                telecommands: 0,
                unrouted: 0,
            },
            untaken: None,
        }
    }

    /// Looks at the packet of a line, which has this number.
    pub(crate) fn note(&mut self, line: u64, source_line: &SourceLine)
        requires fewer { all_unstored self.old.unstored < line }
        ensures start { self.new.start ≡ self.old.start }
        ensures within { all_unstored self.new.unstored ≤ line }
        ensures counts { (lines : List SourceLine) → HasCounted self.old lines
            → HasCounted self.new (lines ++ source_line.now ∷ []) }
    {
        let Some(start) = self.start else {
            return;
        };
        let packet = source_line.packet.packet();
        let counted = &mut self.unstored;
        if source_line.step > start.problem.steps() {
            counted.late += 1;
        } else if packet.is_telecommand() {
            counted.telecommands += 1;
        } else if is_unrouted(&start.memory, packet) {
            counted.unrouted += 1;
            self.untaken = self.untaken.or(Some(Untaken::of(line, packet)));
        }
    }
}

// Whether no route takes telemetry of the packet's report type.
fn is_unrouted(memory: &Memory, packet: &Packet) -> bool
    requires { HasRoutesToStores memory.now }
    ensures { IsTelemetry packet.now.kind → result ≡ is_untaken memory.now packet.now }
{
    let control = memory.control();
    let rows = control.rows_for(packet.apid(), packet.service(), packet.subtype());
    rows.is_empty()
}
