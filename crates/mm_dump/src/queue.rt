//! The queue of a step's orders, by their numbers. All numbers are pushed before the workers start, and after those of
//! the orders one more for each worker: a number that no order has tells the worker which takes it that no order is
//! left. Each step uses the queue again: what the last one left is taken first, and the numbers begin at 0 anew.
ghost use Rattle.std.specs.Prelude.{◌≡◌, ℕ, ◌+◌, ◌<◌, ◌≤◌, List, [], ◌∷◌, ◌++◌, length, IfOk};
ghost use Rattle.crossbeam_queue.specs.Passes.{view, IsPassOf, ruled_capacity};
ghost use Rattle.mm_dump.specs.Queue.{queue_view, Tells};
ghost use Rattle.mm_dump.specs.Workers.{HasAllParts};

use crossbeam_queue::protocol::{Join, Lesson, Outcome, Protocol, Split};
use crossbeam_queue::{Pass, RuledArrayQueue};
use mm_base::NoMemory;
use std::alloc::Global;
use std::collections::LinkedList;
use std::sync::Wait;

/// What a pass of the queue knows: its parts of the right to know the whole, how many numbers were pushed, and which of
/// them it took. No value of it is made.
pub struct QueueView {
    pub parts: u64,
    pub pushed: u64,
    pub taken: LinkedList<u32>,
}

/// The queue's rule: the numbers are taken in order, each by one pass, and those still queued come after all that were
/// taken.
pub(crate) struct EachTakenOnce;

impl Protocol<u32, QueueView> for EachTakenOnce {
    ghost use Rattle.std.specs.Prelude.{[]};
    ghost use Rattle.mm_dump.specs.Queue.{queue_view, AreTakenOnce};

    ghost holds = { AreTakenOnce };

    ghost first = { queue_view 1024 0 [] };
}

/// A part goes to a new pass, which has taken nothing, and comes back with what it took.
pub(crate) struct SplitOne;

impl Split<QueueView> for SplitOne {
    ghost use Rattle.std.specs.Prelude.{◌-◌, []};
    ghost use Rattle.mm_dump.specs.Queue.{queue_view};

    ghost left = { λ v. queue_view (v.parts - 1) v.pushed v.taken };

    ghost right = { λ v. queue_view 1 v.pushed [] };
}

impl Join<QueueView> for SplitOne {
    ghost use Rattle.std.specs.Prelude.{◌+◌, ◌++◌, []};
    ghost use Rattle.mm_dump.specs.Queue.{queue_view};

    ghost both = { λ v w. queue_view (v.parts + w.parts) v.pushed (v.taken ++ w.taken) };

    ghost spent = { queue_view 0 0 [] };
}

/// The next number is pushed by the pass with all parts, and 0 where it took all that were pushed before. What it took
/// is forgotten.
pub(crate) struct PushNumber;

impl Outcome<u32, QueueView> for PushNumber {
    ghost use Rattle.std.specs.Prelude.{◌≡◌, ◌+◌, []};
    ghost use Rattle.mm_dump.specs.Queue.{queue_view};

    ghost then = { λ v x w. w ≡ queue_view 1024 (x + 1) [] };
}

impl Lesson<u32, QueueView> for PushNumber {
    ghost use Rattle.mm_dump.specs.Queue.{Tells};

    ghost fact = { Tells };
}

/// The number that is next is taken.
pub(crate) struct TakeNext;

impl Outcome<u32, QueueView> for TakeNext {
    ghost use Rattle.mm_dump.specs.Queue.{TakesNext};

    ghost then = { TakesNext };
}

impl Lesson<u32, QueueView> for TakeNext {
    ghost use Rattle.mm_dump.specs.Queue.{Tells};

    ghost fact = { Tells };
}

/// A queue of orders, by their numbers.
pub(crate) type OrderQueue = RuledArrayQueue<u32, QueueView, EachTakenOnce>;

/// A pass of the queue.
pub(crate) type OrderPass = Pass<u32, QueueView>;

// A queue with room for this many numbers, with its first pass.
pub(crate) fn new_queue(alloc: Global, numbers: u32) -> Result<(OrderQueue, OrderPass), NoMemory>
    requires some { 1 ≤ numbers }
    ensures room { IfOk result (λ made. numbers ≤ ruled_capacity made.0) }
    ensures whole { IfOk result (λ made. HasAllParts made.0 made.1) }
{
    Ok(OrderQueue::ruled(alloc, numbers as usize)?)
}

// Takes the numbers that the last step left.
fn drain<R: Wait>(rt: &R, queue: &OrderQueue, pass: &mut OrderPass)
    requires whole { HasAllParts queue.now pass.old }
    ensures whole { HasAllParts queue.now pass.new }
    ensures all { length (view pass.new).taken ≡ (view pass.new).pushed }
{
    while queue.pop_as::<TakeNext, R>(rt, pass).is_some() {}
}

// Queues the numbers from 0 on, and no others.
pub(crate) fn push_all<R: Wait>(rt: &R, queue: &OrderQueue, pass: &mut OrderPass, numbers: u32)
    requires whole { HasAllParts queue.now pass.old }
    requires some { 1 ≤ numbers }
    requires room { numbers ≤ ruled_capacity queue.now }
    ensures pass { IsPassOf queue.now pass.new }
    ensures pushed { view pass.new ≡ queue_view 1024 numbers [] }
{
    drain(rt, queue, pass);
    for number in 0..numbers {
        let Ok(()) = queue.push_as::<PushNumber, R>(rt, pass, number) else {
            unreachable!()
        };
    }
}

// Takes the next number. There is one for each worker after those of the orders, so a worker does not wait for one in
// vain.
pub(crate) fn take_next<R: Wait>(rt: &R, queue: &OrderQueue, pass: &mut OrderPass) -> u32
    requires pass { IsPassOf queue.now pass.old }
    requires part { 0 < (view pass.old).parts }
    ensures pass { IsPassOf queue.now pass.new }
    ensures within { result < (view pass.old).pushed }
    ensures taken { view pass.new
        ≡ queue_view (view pass.old).parts (view pass.old).pushed ((view pass.old).taken ++ result ∷ []) }
    ensures few { length (view pass.old).taken < (view pass.old).pushed }
{
    for _ in rt.forever() {
        if let Some(number) = queue.pop_as::<TakeNext, R>(rt, pass) {
            return number;
        }
    }
    unreachable!()
}

// What the pass with all parts knows of the numbers that were taken.
pub(crate) fn learn_taken(queue: &OrderQueue, pass: &mut OrderPass)
    requires pass { IsPassOf queue.now pass.old }
    ensures same { view pass.new ≡ view pass.old }
    ensures pass { IsPassOf queue.now pass.new }
    ensures taken { (items : List ℕ) × Tells (view pass.new) items }
{
    queue.learn_as::<TakeNext>(pass);
}
