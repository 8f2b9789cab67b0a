//! Links in memory, and what they took.

use crate::tests::samples::holds_of;
use mm_base::StoreId;
use mm_dump::{Link, MemoryLink};
use std::alloc::Global;
use std::process::Abort;

// Links of which each fails once, after a number of sends, or never.
pub(crate) fn new_links(rt: &impl Abort, alloc: Global, until: &[Option<u64>]) -> Vec<MemoryLink> {
    let mut list = Vec::new(alloc);
    for until in until {
        list.push(MemoryLink::new(alloc, *until))
            .expect(rt, "memory");
    }
    list
}

// The sequence counts of the packets of a store that a link took are these.
pub(crate) fn has_taken(
    rt: &impl Abort,
    name: &str,
    link: &MemoryLink,
    store: &StoreId,
    counts: &[u16],
) {
    let mut rest = counts;
    for taken in link.taken() {
        if taken.store == *store {
            let [count, more @ ..] = rest else {
                panic!(rt; "{name}: no more packets of this store");
            };
            let found = taken.stored.packet.packet().count();
            holds_of(rt, found == *count, name, "the packet");
            rest = more;
        }
    }
    holds_of(rt, rest.is_empty(), name, "all packets of this store");
}

// A link took this many packets, and this many of its sends failed.
pub(crate) fn has_sent(rt: &impl Abort, name: &str, link: &MemoryLink, many: usize, failures: u64) {
    holds_of(rt, link.taken().len() == many, name, "how many are sent");
    assert!(rt; link.failures() == failures, "how many sends failed");
}

// These are this many links, each of which took this many packets without a failure.
pub(crate) fn all_have_sent(
    rt: &impl Abort,
    name: &str,
    links: &[MemoryLink],
    many: usize,
    each: usize,
) {
    holds_of(rt, links.len() == many, name, "as many links");
    for link in links {
        has_sent(rt, name, link, each, 0);
    }
}
