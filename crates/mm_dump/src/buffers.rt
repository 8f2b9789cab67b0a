//! What the dumps of a run use beside stores and links: reserved once, and used again in each step.
ghost use Rattle.std.specs.Prelude.{◌≡◌, ◌<◌, [], All, vec_capacity};
ghost use Rattle.crossbeam_queue.specs.Passes.{view, IsPassOf};
ghost use Rattle.mm_dump.specs.Workers.{MayHire, AreHired, IsBack, AreBack};

use crate::dumper::DumpWorker;
use crate::queue::{OrderPass, OrderQueue, SplitOne, new_queue, push_all};
use mm_base::{MAX_STORES, NoMemory};
use mm_desk::MAX_SEATS;
use std::alloc::Global;
use std::marker::Model;
use std::sync::Wait;

/// A queue for the numbers of `MAX_STORES` orders and of one more for each of `MAX_SEATS` workers, and room for these
/// workers. Between dumps no worker is hired. Contracts see nothing of it: any dump may use it.
#[derive(Drop)]
pub struct DumpBuffers {
    pub(crate) queue: OrderQueue,
    // the pass with the parts that no worker has
    pub(crate) pass: OrderPass,
    pub(crate) workers: Vec<DumpWorker>,
}

impl Model for DumpBuffers {
    ghost use Rattle.std.specs.Prelude.{◌≡◌, ◌+◌, ◌≤◌, [], vec_capacity};
    ghost use Rattle.crossbeam_queue.specs.Passes.{ruled_capacity};
    ghost use Rattle.mm_base.specs.declared.limits.TheConstants.{MAX_STORES};
    ghost use Rattle.mm_desk.specs.declared.desk.TheConstants.{MAX_SEATS};
    ghost use Rattle.mm_dump.specs.Workers.{HasAllParts};

    ghost Value = { Unit {0} };

    ghost view = { λ _. tt };

    ghost invariant = { λ b. HasAllParts b.queue b.pass × (b.workers.items ≡ [])
        × (MAX_STORES + MAX_SEATS ≤ ruled_capacity b.queue) × (MAX_SEATS ≤ vec_capacity b.workers) };
}

/// Reserves what the dumps of a run use.
pub fn reserve_dump(alloc: Global) -> Result<DumpBuffers, NoMemory> {
    let (queue, pass) = new_queue(alloc, MAX_STORES as u32 + MAX_SEATS)?;
    let workers = Vec::with_capacity(alloc, MAX_SEATS as usize)?;
    Ok(DumpBuffers {
        queue,
        pass,
        workers,
    })
}

// Queues the numbers of orders and one more for each worker, and hires this many workers.
pub(crate) fn hire<R: Wait>(
    rt: &R,
    queue: &OrderQueue,
    pass: &mut OrderPass,
    workers: &mut Vec<DumpWorker>,
    orders: u32,
    count: u32,
)
    requires may { MayHire queue.now pass.old workers.old orders count }
    ensures hired { AreHired queue.now count pass.new workers.new.items }
    ensures capacity { vec_capacity workers.new ≡ vec_capacity workers.old }
{
    push_all(rt, queue, pass, orders + count);
    for _ in 0..count {
        workers.push_reserved(DumpWorker {
            pass: queue.another::<SplitOne>(pass),
            spent: 0,
            why: None,
        });
    }
}

// Joins the passes of workers to one pass. No worker is left.
#[tactic(auto, using(crate::proofs::Moves::merges))]
pub(crate) fn join_passes(queue: &OrderQueue, pass: &mut OrderPass, workers: &mut Vec<DumpWorker>)
    requires pass { IsPassOf queue.now pass.old }
    requires part { 0 < (view pass.old).parts }
    requires passes { All (IsBack queue.now) workers.old.items }
    ensures joined { AreBack queue.now workers.old.items pass.old pass.new }
    ensures none { workers.new.items ≡ [] }
    ensures capacity { vec_capacity workers.new ≡ vec_capacity workers.old }
{
    while let Some(worker) = workers.pop() {
        queue.absorb::<SplitOne>(pass, worker.pass);
    }
}
