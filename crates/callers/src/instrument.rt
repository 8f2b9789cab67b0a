//! An instrument of which nobody knows before what it will give: another thread puts its packets into a ring while steps are recorded.
ghost use Rattle.std.specs.Prelude.{◌≡◌, ◌+◌, [], map, All, IfOk};
ghost use Rattle.mm_record.specs.MemorySteps.{recording_of, IsRecorded};
ghost use Rattle.callers.specs.Instruments.{given_in, nothing};

use mm_exec::record_step;
use mm_memory::Memory;
use mm_packet::BlockPacket;
use mm_record::{Live, LiveSource, RecordHalted, RecordedStep};
use rtrb::Consumer;
use std::alloc::Global;
use std::snapshot::Snapshot;
use std::sync::Wait;
use std::thread::Threads;

/// What answers with a packet where it has one now.
pub trait Instrument {
    fn poll(&mut self) -> Option<BlockPacket>;
}

/// The end of a ring that another thread fills.
#[derive(Drop)]
pub struct RingEnd(pub Consumer<BlockPacket>);

impl Instrument for RingEnd {
    fn poll(&mut self) -> Option<BlockPacket> {
        self.0.pop().ok()
    }
}

/// A packet that was given, and in which step, for contracts alone: it has no bytes, and neither has a list of such.
#[derive(Drop)]
pub struct Given {
    pub step: Snapshot<u32>,
    pub packet: Snapshot<BlockPacket>,
}

/// An instrument, and what it gave so far.
#[derive(Drop)]
pub struct Observed<I: Instrument + Drop> {
    pub instrument: I,
    pub given: Vec<Given>,
}

impl<I: Instrument + Drop> LiveSource for Observed<I> {
    ghost use Rattle.callers.specs.Instruments.{given_in};

    ghost gave = { λ observed. given_in observed.given.items };

    fn next(&mut self, step: u32) -> Option<BlockPacket> {
        self.given.reserve(1).ok()?;
        let packet = self.instrument.poll()?;
        self.given.push_reserved(Given {
            step: Snapshot::of(&step),
            packet: Snapshot::of(&packet),
        });
        Some(packet)
    }
}

/// Instruments that recorders take packets from.
pub type Observing<I> = Live<Observed<I>>;

/// Records a step of instruments that have given nothing. What they have given then is what was recorded.
pub fn record_instruments<I: Instrument + Send + Drop, R: Threads + Wait + Sync>(
    rt: &R,
    alloc: Global,
    memory: &mut Memory,
    step: u32,
    base: u64,
    instruments: Vec<Observing<I>>,
) -> Result<RecordedStep<Observing<I>>, RecordHalted<Observing<I>>>
    requires first { All (λ live. live.source.given.items ≡ []) instruments.items }
    ensures recorded { IfOk result (λ done. IsRecorded (recording_of step (base + step) memory.old) memory.old memory.new done.recorded.items
        (map (λ live. given_in live.source.given.items) done.sources.items) (map (λ live. nothing) done.sources.items)) }
{
    record_step(rt, alloc, memory, step, base, instruments)
}
