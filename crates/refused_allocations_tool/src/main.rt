//! The calls of one part of `refused_allocations`, which the first argument names: a line says what they answered.
#![tactic(auto)]

use anyhow::Result;
use refused_allocations::{Met, part_named};
use std::alloc::Global;
use std::env::Env;
use std::sync::Wait;
use std::thread::Threads;

// The calls of the part that the first argument names.
fn part<R: Env + Threads + Wait + Sync>(rt: &R, alloc: Global) -> Met {
    let mut room = [0u8; 16];
    match rt.arg(1, &mut room) {
        Ok(len) if len <= 16 => part_named(rt, alloc, &room[..len]),
        _ => Met::Wrong("no part is named"),
    }
}

/// Prints what the calls of a part answered.
fn main(rt: HostRuntime) -> Result<()> {
    let met = part(&rt, rt.alloc());
    println!(rt; "{met}")?;
    Ok(())
}
