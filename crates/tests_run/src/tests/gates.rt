//! Counts that threads raise, and for which they wait, so that they meet; and sources that do so.

use crate::tests::sources::new_script;
use mm_packet::BlockPacket;
use mm_record::Source;
use std::alloc::Global;
use std::process::Abort;
use std::sync::Arc;
use std::sync::atomic::{AtomicU64, Ordering};
use std::thread::yield_now;
use work_parts::Bursts;

// The turns for which a thread waits.
const TURNS: u32 = 1_000_000;

/// Whether a count comes up to a number before the turns are used up.
pub fn comes_to(count: &AtomicU64, number: u64) -> bool {
    for _ in 0..TURNS {
        yield_now();
        if count.load(Ordering::SeqCst) >= number {
            return true;
        }
    }
    false
}

pub fn counter(rt: &impl Abort, alloc: Global) -> Arc<AtomicU64, Global> {
    Arc::new(alloc, AtomicU64::new(0)).expect(rt, "memory")
}

pub fn shared(rt: &impl Abort, count: &Arc<AtomicU64, Global>) -> Arc<AtomicU64, Global> {
    Arc::try_clone(count).expect(rt, "memory")
}

/// A source that gives its packet once all sources were asked for theirs, and notes where they were not.
#[derive(Drop)]
pub struct GatedSource<S: Source> {
    source: S,
    asked: Arc<AtomicU64, Global>,
    all: u64,
    missed: bool,
}

impl<S: Source> Source for GatedSource<S> {
    ghost gives = { λ gated. S.gives gated.source };

    fn left(&self, step: u32) -> u32 {
        self.source.left(step)
    }

    fn next(&mut self, step: u32) -> Option<BlockPacket> {
        self.asked.fetch_add(1, Ordering::SeqCst);
        self.missed = self.missed || !comes_to(&self.asked, self.all);
        self.source.next(step)
    }
}

// A source of one packet of an APID.
fn gated_source(
    rt: &impl Abort,
    alloc: Global,
    apid: u16,
    asked: &Arc<AtomicU64, Global>,
    all: u64,
) -> GatedSource<Bursts> {
    GatedSource {
        source: new_script(rt, alloc, apid, [1, 0, 0]),
        asked: shared(rt, asked),
        all,
        missed: false,
    }
}

/// Sources of one packet each, this many for each of these APIDs.
pub fn gated_sources(
    rt: &impl Abort,
    alloc: Global,
    apids: &[u16],
    each: u32,
) -> Vec<GatedSource<Bursts>> {
    let asked = counter(rt, alloc);
    let all = (apids.len() as u64).saturating_mul(u64::from(each));
    let mut list = Vec::new(alloc);
    for apid in apids {
        for _ in 0..each {
            let source = gated_source(rt, alloc, *apid, &asked, all);
            list.push(source).expect(rt, "memory");
        }
    }
    list
}

/// These are this many sources, each of which met the others and has nothing left.
pub fn all_met(rt: &impl Abort, sources: &[GatedSource<Bursts>], many: usize) {
    assert!(rt; sources.len() == many, "all sources come back");
    for source in sources {
        assert!(rt; !source.missed, "each met the others");
        assert!(rt; source.left(1) == 0, "nothing is left");
    }
}
