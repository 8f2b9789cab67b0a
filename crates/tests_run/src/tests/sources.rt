//! Sources that give what they were told to give.

use crate::tests::samples::packet_of;
use mm_packet::BlockPacket;
use mm_record::Source;
use std::alloc::Global;
use std::collections::VecDeque;
use std::process::Abort;
use work_parts::Bursts;

// This many packets, with the sequence counts after another one.
fn packets(
    rt: &impl Abort,
    alloc: Global,
    apid: u16,
    after: u16,
    many: u16,
) -> VecDeque<BlockPacket> {
    let mut packets = VecDeque::new(alloc);
    for count in 0..many {
        let count = after.saturating_add(count).saturating_add(1);
        let packet = packet_of(rt, alloc, apid, count);
        packets.push_back(packet).expect(rt, "memory");
    }
    packets
}

// Lets a source give these packets, which are few, in the next step.
fn add(rt: &impl Abort, source: &mut Bursts, packets: VecDeque<BlockPacket>) {
    assert!(rt; packets.len() < 65536, "few packets");
    source.add(packets).expect(rt, "memory");
}

// A source of these packets in step 1.
pub(crate) fn source_of(rt: &impl Abort, alloc: Global, packets: VecDeque<BlockPacket>) -> Bursts {
    let mut source = Bursts::new(alloc);
    add(rt, &mut source, VecDeque::new(alloc));
    add(rt, &mut source, packets);
    source
}

// A source that gives this many packets of an APID in each of three steps, with sequence counts from 1 on.
pub(crate) fn new_script(rt: &impl Abort, alloc: Global, apid: u16, many: [u16; 3]) -> Bursts {
    let [first, second, third] = many;
    let mut source = source_of(rt, alloc, packets(rt, alloc, apid, 0, first));
    add(rt, &mut source, packets(rt, alloc, apid, first, second));
    let after = first.saturating_add(second);
    add(rt, &mut source, packets(rt, alloc, apid, after, third));
    source
}

// This many sources of APID 100 that give the same.
pub(crate) fn scripts(rt: &impl Abort, alloc: Global, sources: u32, many: [u16; 3]) -> Vec<Bursts> {
    let mut list = Vec::new(alloc);
    for _ in 0..sources {
        let source = new_script(rt, alloc, 100, many);
        list.push(source).expect(rt, "memory");
    }
    list
}

// The source still gives this many packets in the steps 1, 2 and 3.
pub(crate) fn has_left(rt: &impl Abort, source: &impl Source, want: [u32; 3]) {
    let left = [source.left(1), source.left(2), source.left(3)];
    assert!(rt; left == want, "packets left");
}

// These are this many sources, each of which still gives this many packets in the steps 1, 2 and 3.
pub(crate) fn all_have_left(rt: &impl Abort, sources: &[Bursts], many: usize, want: [u32; 3]) {
    assert!(rt; sources.len() == many, "as many sources");
    for source in sources {
        has_left(rt, source, want);
    }
}
