//! Instruments of which nobody knows before what they will give.
ghost use Rattle.std.specs.Prelude.{◌≡◌, [], All};

use crate::tests::samples::{holds, id, memory_of, next_after, packet};
use callers::instrument::{Instrument, Observed, Observing, RingEnd, record_instruments};
use mm_exec::record_step;
use mm_memory::Memory;
use mm_packet::BlockPacket;
use mm_record::{AnySource, Live, RecordedStep};
use rtrb::{Producer, RingBuffer};
use std::alloc::Global;
use std::process::Abort;
use std::sync::Wait;
use std::thread;
use std::thread::Threads;

// A bounded store of eight blocks, which has all telemetry of APID 100, service 3, subtype 25.
const ONE_STORE: &str =
    "[[store]]\nid = \"B\"\nsize = 8\ntype = \"bounded\"\nchannel = 0\n\n[[route]]\napid = 100\nservice = 3\nsubtype = 25\nstore = \"B\"\n";

// The two ends of a ring of four packets, the second as a source.
fn ring(rt: &impl Abort, alloc: Global) -> (Producer<BlockPacket>, Observing<RingEnd>)
    ensures first { result.1.source.given.items ≡ [] }
{
    let (producer, consumer) = RingBuffer::new(alloc, 4).expect(rt, "memory");
    let observed = Observed {
        instrument: RingEnd(consumer),
        given: Vec::new(alloc),
    };
    (producer, Live::new(observed))
}

// The sequence count of the next packet of a step.
fn next_count(source: &mut Observing<RingEnd>, step: u32) -> Option<u16> {
    let packet = source.next_packet(step)?;
    Some(packet.packet().count())
}

#[test]
fn what_comes_after_a_step_is_over_counts_to_a_later_one(rt: HostRuntime) {
    let (mut producer, mut source) = ring(&rt, rt.alloc());
    for count in [1, 2] {
        let put = producer.push(packet(&rt, rt.alloc(), count));
        assert!(&rt; put.is_ok(), "the ring has room");
    }
    let first = [1, 1, 1].map(|step| next_count(&mut source, step));
    assert!(&rt;
        first == [Some(1), Some(2), None],
        "both packets, and the step is over"
    );
    assert!(&rt;
        producer.push(packet(&rt, rt.alloc(), 3)).is_ok(),
        "the ring has room"
    );
    let later = [1, 2, 2].map(|step| next_count(&mut source, step));
    assert!(&rt;
        later == [None, Some(3), None],
        "the packet of the next step"
    );
}

// Puts these packets into a ring that has room for them.
fn fill(producer: Producer<BlockPacket>, packets: Vec<BlockPacket>) {
    let mut producer = producer;
    for packet in packets {
        let _ = producer.push(packet);
    }
}

// The store holds the packets 1, 2, 3 and 4, in this order.
fn holds_four(rt: &impl Abort, memory: &Memory) {
    let state = memory.state(&id(rt, "B")).expect(rt, "a store");
    let mut after = 0;
    for count in 1..5 {
        let (time, apid, found) = next_after(state, after).expect(rt, "a packet");
        holds(rt, (apid, found) == (100, count), "the packet");
        after = time;
    }
    assert!(rt; next_after(state, after).is_none(), "no more packets");
}

// An instrument that has given nothing, as all that there are.
fn one(rt: &impl Abort, alloc: Global, source: Observing<RingEnd>) -> Vec<Observing<RingEnd>>
    requires first { source.source.given.items ≡ [] }
    ensures first { All (λ live. live.source.given.items ≡ []) result.items }
{
    vec![in alloc; source].expect(rt, "memory")
}

// Records a step of instruments that may have given something before.
fn recorded<I: Instrument + Send + Drop, R: Threads + Wait + Sync>(
    rt: &R,
    alloc: Global,
    memory: &mut Memory,
    step: u32,
    sources: Vec<Observing<I>>,
) -> Option<RecordedStep<Observing<I>>> {
    record_step(rt, alloc, memory, step, 0, sources).ok()
}

#[test]
fn a_thread_fills_a_ring_while_steps_are_recorded(rt: HostRuntime) {
    let alloc = rt.alloc();
    let mut memory = memory_of(&rt, alloc, ONE_STORE);
    let (producer, source) = ring(&rt, alloc);
    let mut packets = Vec::new(alloc);
    for count in 1..5 {
        packets
            .push(packet(&rt, alloc, count))
            .expect(&rt, "memory");
    }
    let filling = thread::spawn(&rt, move || fill(producer, packets)).expect(&rt, "a thread");
    let sources = one(&rt, alloc, source);
    let Ok(first) = record_instruments(&rt, alloc, &mut memory, 1, 0, sources) else {
        panic!(&rt; "the first step is recorded")
    };
    filling.join(&rt);
    let second = recorded(&rt, alloc, &mut memory, 2, first.sources).expect(
        &rt,
        "the second step is recorded",
    );
    let rows = (first.recorded.len(), second.recorded.len());
    assert!(&rt; rows == (1, 1), "a row for the store in each step");
    holds_four(&rt, &memory);
}
