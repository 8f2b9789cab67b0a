//! What is under a desk's lock.
ghost use Rattle.std.specs.Prelude.{◌≡◌, ◌∷◌, [], ◌++◌, IfOk, IfErr, OnErr};
ghost use Rattle.mm_desk.specs.Answers.{Answers};
ghost use Rattle.mm_desk.specs.Runs.{entry};

use crate::entry::Entry;
use crate::event::Event;
use crate::opening::Opening;
use crate::reply::Reply;
use crate::state::StoreState;
use std::alloc::Global;
use std::marker::{Model, PhantomData};

// The state of a store, with the log of the calls made since it was opened.
#[derive(Drop)]
pub(crate) struct LockedStore<N: Opening> {
    pub(crate) place: u32,
    pub(crate) state: StoreState,
    pub(crate) log: Vec<Entry>,
    pub(crate) of: PhantomData<N>,
}

impl<N: Opening> Model for LockedStore<N> {
    ghost use Rattle.mm_desk.specs.Seats.{LockedStoreView};
    ghost use Rattle.mm_desk.specs.Runs.{IsRun, opening_at};

    ghost Value = { LockedStoreView };

    ghost view = { λ s. record { place = s.place; state = s.state; log = s.log.items } };

    ghost invariant = { λ s. IsRun (opening_at N.states s.place) s.log.items s.state };
}

impl<N: Opening> LockedStore<N> {
    // Makes the event's call for a seat and logs it. Gives the reply twice: once for the seat's list. Where there is no
    // memory the event comes back.
    pub(crate) fn call(
        &mut self,
        alloc: Global,
        seat: u32,
        event: Event,
        logged: Event,
    ) -> Result<(Reply, Reply), Event>
        requires logged { logged ≡ event }
        ensures same { IfOk result (λ r. r.1 ≡ r.0) }
        ensures log { IfOk result (λ r. self.new.log ≡ self.old.log ++ entry seat event r.0 ∷ []) }
        ensures answers { IfOk result (λ r. Answers event r.0) }
        ensures back { IfErr result (λ back. back ≡ event) }
        ensures err { OnErr result (self.new ≡ self.old) }
    {
        if self.log.reserve(1).is_err() {
            return Err(event);
        }
        let copies = self.state.apply(alloc, event)?;
        self.log.push_reserved(Entry {
            seat,
            event: logged,
            reply: copies.logged,
        });
        Ok((copies.answer, copies.listed))
    }
}
