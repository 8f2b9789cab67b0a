//! What is known of a shared store, in the proofs alone, and the rule that all its steps keep.
ghost use Rattle.std.specs.Prelude.{◌≡◌, [], None, Ok, length};
ghost use Rattle.mm_shared.specs.Words.{Asked, Answered};
ghost use Rattle.mm_shared.specs.Rule.{IsKept, knows, all_seats};
ghost use Rattle.mm_shared.specs.Steps.{tried, IsTakenByAll, IsSettled, called, at_rest, first_of, others_of, joined};
ghost use Rattle.mm_desk.specs.declared.event.Event.TheVariants.{Enable};

use atomic_table::{Join, Play, Split, TableRule};
use mm_desk::{Entry, StoreState};
use std::collections::LinkedList;
use std::marker::{Brand, PhantomData};
use std::snapshot::Snapshot;

/// What is known with seats: the states from which calls count, the number of the first seat, the calls made through
/// each seat from it on, each with the index of its store, and the state that is held, with the index of its store. No
/// value of it is made.
pub struct Knows {
    pub states: LinkedList<StoreState>,
    pub first: u64,
    pub lists: LinkedList<LinkedList<(u64, Entry)>>,
    pub held: Option<(u64, StoreState)>,
}

/// What shared stores were opened with: the states, for the proofs alone, and how many seats.
#[derive(Drop)]
pub struct Opened {
    pub states: Snapshot<Vec<StoreState>>,
    pub seats: u32,
}

/// The rule of shared stores.
#[derive(Clone, Copy)]
pub struct Ruled;

impl TableRule<StoreState, Knows, Opened> for Ruled {
    ghost holds = { λ key. IsKept (length key.states.value.items) key.seats };

    ghost first = { λ key. all_seats key.states.value.items key.seats };
}

/// A seat of a shared store.
pub type StoreSeat = atomic_table::Seat<StoreState, Knows>;

/// What threads share of a shared store.
pub type StoreTable = atomic_table::Shared<StoreState, Knows, Opened, Ruled>;

/// A try of the lock.
pub struct Take;

impl Play<StoreState, Knows> for Take {
    ghost then = { tried };
}

/// The holder of all seats takes a state.
pub struct TakeByAll;

impl Play<StoreState, Knows> for TakeByAll {
    ghost then = { λ st m r n. IsTakenByAll st.word m n };
}

/// The holder of all seats learns the states of the stores.
pub struct Settle;

impl Play<StoreState, Knows> for Settle {
    ghost then = { λ st m r n. IsSettled st.slots m n };
}

/// The call that was made on a state that is held, with its answer.
pub trait Call {
    ghost event: { Asked };

    ghost reply: { Answered };
}

impl Call for Brand {
    ghost event = { Enable };

    ghost reply = { Answered.Done (Ok tt) };
}

/// The state is given back after a call.
pub struct Give<T: Call> {
    of: PhantomData<T>,
}

impl<T: Call> Play<StoreState, Knows> for Give<T> {
    ghost then = { λ st m r n. n ≡ called st.word m T.event T.reply };
}

/// The state is given back as it was.
pub struct Restore;

impl Play<StoreState, Knows> for Restore {
    ghost then = { λ st m r n. n ≡ at_rest m };
}

/// The first seat is parted from the others.
pub struct First;

impl Split<Knows> for First {
    ghost left = { others_of };

    ghost right = { first_of };
}

/// Seats are put before others.
pub struct Before;

impl Join<Knows> for Before {
    ghost both = { joined };

    ghost spent = { knows [] 0 [] None };
}
