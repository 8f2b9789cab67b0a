//! The lock of each shared store: its state is taken, and given back.
ghost use Rattle.std.specs.Prelude.{◌≡◌, MatchBool, length};
ghost use Rattle.mm_shared.specs.Steps.{HasSlot, MayTake, Holds, HasTaken, HasCalled, IsAsTaken, AreAll, IsTakenByAll};
ghost use Rattle.mm_shared.specs.Steps.{called, at_rest};

use crate::rule::{Call, Give, Restore, StoreSeat, StoreTable, Take, TakeByAll};
use std::hint::spin_loop;
use std::sync::Wait;

// The word: 0 if the state is in its slot, 1 if a thread has it, 2 if another thread may sleep meanwhile.
const FREE: u64 = 0;

const LOCKED: u64 = 1;

const AWAITED: u64 = 2;

// Tries before a thread sleeps.
const TRIES: u32 = 100;

// Takes the state, if it is soon free.
fn try_take(table: &StoreTable, seat: &mut StoreSeat, store: usize) -> bool
    requires there { HasSlot table.now.table_id (length table.now.key.states.value.items) store }
    requires may { MayTake table.now.table_id seat.old }
    ensures of { seat.new.table_id ≡ seat.old.table_id }
    ensures took { MatchBool result (Holds store seat.old.me seat.new.me) (seat.new.me ≡ seat.old.me) }
{
    for _ in 0..TRIES {
        if table.peek(store) == FREE
            && table.compare_exchange::<Take>(seat, store, FREE, LOCKED) == FREE
        {
            return true;
        }
        spin_loop();
    }
    false
}

// Takes the state as soon as it is free.
#[inline(never)]
fn wait<R: Wait>(rt: &R, table: &StoreTable, seat: &mut StoreSeat, store: usize)
    requires there { HasSlot table.now.table_id (length table.now.key.states.value.items) store }
    requires may { MayTake table.now.table_id seat.old }
    ensures took { HasTaken store seat.old seat.new }
{
    if try_take(table, seat, store) {
        return;
    }
    for _ in rt.forever() {
        if table.swap::<Take>(seat, store, AWAITED) == FREE {
            return;
        }
        table.park(rt, store, AWAITED as u32);
    }
    unreachable!()
}

// Takes the state. If it is free, this is one step.
#[inline(always)]
pub(crate) fn take<R: Wait>(rt: &R, table: &StoreTable, seat: &mut StoreSeat, store: usize)
    requires there { HasSlot table.now.table_id (length table.now.key.states.value.items) store }
    requires may { MayTake table.now.table_id seat.old }
    ensures took { HasTaken store seat.old seat.new }
{
    if table.compare_exchange::<Take>(seat, store, FREE, LOCKED) != FREE {
        wait(rt, table, seat, store);
    }
}

// Takes the state, with all seats: it is in its slot.
pub(crate) fn take_by_all(table: &StoreTable, seat: &mut StoreSeat, store: usize)
    requires of { seat.old.table_id ≡ table.now.table_id }
    requires there { HasSlot table.now.table_id (length table.now.key.states.value.items) store }
    requires all { AreAll table.now.key.seats seat.old.me }
    ensures of { seat.new.table_id ≡ seat.old.table_id }
    ensures took { IsTakenByAll store seat.old.me seat.new.me }
{
    table.swap::<TakeByAll>(seat, store, LOCKED);
}

// Gives the state back after a call on it. What was asked and answered is for the proof alone.
pub(crate) fn give<T: Call, X, Y>(
    table: &StoreTable,
    seat: &mut StoreSeat,
    store: usize,
    _asked: &X,
    _answer: &Y,
)
    requires of { seat.old.table_id ≡ table.now.table_id }
    requires there { HasSlot table.now.table_id (length table.now.key.states.value.items) store }
    requires called { HasCalled store T.event T.reply seat.old.me }
    ensures of { seat.new.table_id ≡ seat.old.table_id }
    ensures gave { seat.new.me ≡ called store seat.old.me T.event T.reply }
{
    if table.swap::<Give<T>>(seat, store, FREE) == AWAITED {
        table.wake_one(store);
    }
}

// Gives the state back as it was taken.
pub(crate) fn restore(table: &StoreTable, seat: &mut StoreSeat, store: usize)
    requires of { seat.old.table_id ≡ table.now.table_id }
    requires there { HasSlot table.now.table_id (length table.now.key.states.value.items) store }
    requires same { IsAsTaken store seat.old.me }
    ensures of { seat.new.table_id ≡ seat.old.table_id }
    ensures rest { seat.new.me ≡ at_rest seat.old.me }
{
    if table.swap::<Restore>(seat, store, FREE) == AWAITED {
        table.wake_one(store);
    }
}
