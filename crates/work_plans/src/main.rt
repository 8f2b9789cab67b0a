//! A workload of `bench/workloads.txt`: a study of many plans, made, checked, drawn and listed; and how often a
//! proposal is not enough.
#![tactic(auto)]

mod extent;
mod families;
mod kinds;
mod propose;
mod small;
mod study;
mod texts;

use anyhow::Result;
use std::alloc::Global;
use work_base::{UnknownWords, words};

// What the job of the words answers.
fn said(alloc: Global, words: &[String]) -> Result<String> {
    match words {
        [] => small::small(alloc),
        [job, seed] if job.as_str() == "study" => study::run(alloc, seed.parse()?),
        [job, count, seed] if job.as_str() == "propose" => {
            propose::counted(alloc, count.parse()?, seed.parse()?)
        }
        [job, count, seed] if job.as_str() == "kinds" => {
            propose::counted_by_kind(alloc, count.parse()?, seed.parse()?)
        }
        _ => Err(UnknownWords(
            "the words are: study SEED, propose COUNT SEED, or kinds COUNT SEED",
        ).into()),
    }
}

/// With `study` and a seed a digest of all that is answered is printed, with `propose` how many proposals are not shown
/// to lose least. With no words a small run is made, and what it prints can be worked out by hand.
fn main(rt: HostRuntime) -> Result<()> {
    let said = said(rt.alloc(), &words(&rt)?)?;
    println!(rt; "{said}")?;
    Ok(())
}
