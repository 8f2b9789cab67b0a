//! The parts by their names.
use crate::data::{later, new, rest};
use crate::dumps::dumps;
use crate::met::Met;
use crate::records::record;
use crate::runs::{ALONE, CROWD, flight, run};
use crate::seats::desk;
use crate::shared::shared;
use std::alloc::Global;
use std::sync::Wait;
use std::thread::Threads;

/// What the calls of the part of this name answered.
pub fn part_named<R: Threads + Wait + Sync>(rt: &R, alloc: Global, name: &[u8]) -> Met {
    let met = match name {
        b"new" => Some(new(alloc)),
        b"rest" => rest(alloc),
        b"later" => later(alloc),
        b"seats" => desk(rt, alloc),
        b"shared" => Some(shared(rt, alloc)),
        b"record" => record(rt, alloc),
        b"dump" => dumps(rt, alloc),
        b"carry_out" => run(rt, alloc, &ALONE),
        b"crowd" => run(rt, alloc, &CROWD),
        b"fly" => flight(rt, alloc),
        _ => Some(Met::Wrong("no such part")),
    };
    met.unwrap_or(Met::Unready)
}
