//! The mass memory.
ghost use Rattle.std.specs.Prelude.{◌≡◌, [], Some, IfOk, slice_get};
ghost use Rattle.std.specs.Option.{option_copied, option_copied_mut, option_map};
ghost use Rattle.mm_memory.specs.Holdings.{AreHeld, memory_of, store_of, state_of};

use crate::places::{place_named, place_of, store_of};
use crate::setup::{control_of, stores_of};
use mm_base::{NoMemory, StoreId};
use mm_control::ControlTable;
use mm_desk::{Held, StoreState};
use mm_problem::Setup;
use std::alloc::Global;
use std::marker::Model;
use std::mem;

/// A mass memory: at most 16 named packet stores in order, and its storage control.
#[derive(Drop)]
pub struct Memory {
    pub(crate) stores: Vec<Held>,
    pub(crate) control: ControlTable,
}

impl Model for Memory {
    ghost use Rattle.mm_memory.specs.Holdings.{Holdings, AreHeld};

    ghost Value = { Holdings };

    ghost view = { λ a. record { stores = a.stores.items; routes = a.control } };

    ghost invariant = { λ a. AreHeld a.stores.items };
}

impl Memory {
    ghost use Rattle.std.specs.Borrow.{sem};
    ghost use Rattle.mm_base.specs.Id.{field_of};
    ghost use Rattle.mm_desk.specs.Machine.{State};
    ghost use Rattle.mm_memory.specs.Lending.{LendsState, with_state};
    ghost use Rattle.mm_memory.specs.Naming.{state_of_text};

    /// The memory of a setup: its stores in order, empty, with their storage on, and its routes.
    pub fn of_setup(alloc: Global, setup: &Setup) -> Result<Memory, NoMemory>
        ensures memory { IfOk result (λ memory. memory ≡ memory_of setup.now) }
    {
        let stores = stores_of(alloc, setup.stores())?;
        let control = control_of(alloc, setup.routes())?;
        Ok(Memory { stores, control })
    }

    /// The state of the store with this identifier.
    #[must_use]
    pub fn state(&self, id: &StoreId) -> Option<&StoreState>
        ensures state { option_copied result ≡ state_of id.now self.now }
    {
        let held = store_of(&self.stores, id)?;
        Some(&held.state)
    }

    /// The state of the store with this identifier, to be changed.
    pub fn state_mut(&mut self, id: &StoreId) -> Option<&mut StoreState>
        ensures* lends { sem 𝓛 (LendsState self.entry id.now result) }
        ensures state { option_copied_mut result ≡ state_of id.now self.old }
        // The memory is as it was where the state is left as it was.
        ensures same { (s : State) → state_of id.now self.old ≡ Some s → with_state id.now self.old s ≡ self.old }
    {
        let place = place_of(&self.stores, id)?;
        let held = self.stores.get_mut(place)?;
        Some(&mut held.state)
    }

    /// The state of the store whose identifier has this text, to be changed; none where no identifier or no store has
    /// it.
    pub fn named_mut(&mut self, text: &[u8]) -> Option<&mut StoreState>
        ensures* lends { sem 𝓛 (LendsState self.entry (field_of text.now) result) }
        ensures state { option_copied_mut result ≡ state_of_text text.now self.old }
        // The memory is as it was where the state is left as it was.
        ensures same { (s : State) → state_of_text text.now self.old ≡ Some s → with_state (field_of text.now) self.old
            s ≡ self.old }
    {
        let place = place_named(&self.stores, text)?;
        let held = self.stores.get_mut(place)?;
        Some(&mut held.state)
    }

    /// The identifier and the virtual channel of the store at this place, counted from 0.
    #[must_use]
    pub fn entry(&self, place: u32) -> Option<(StoreId, u8)>
        ensures entry { result ≡ option_map (λ h. (h.id, h.channel)) (slice_get self.now.stores place) }
    {
        let held = self.stores.get(place as usize)?;
        Some((held.id, held.channel))
    }

    /// The stores, in order.
    #[must_use]
    pub fn stores(&self) -> &[Held]
        ensures stores { result.now ≡ self.now.stores }
        ensures are_held { AreHeld self.now.stores }
    {
        &self.stores
    }

    /// The storage control.
    #[must_use]
    pub fn control(&self) -> &ControlTable
        ensures rows { result.now ≡ self.now.routes }
    {
        &self.control
    }

    /// Takes out all stores, in order, and leaves the storage control.
    #[must_use]
    pub fn lift(&mut self) -> Vec<Held>
        ensures stores { result.items ≡ self.old.stores }
        ensures are_held { AreHeld self.old.stores }
        ensures left { self.new ≡ record self.old { stores = [] } }
    {
        let alloc = *self.stores.allocator();
        mem::replace(&mut self.stores, Vec::new(alloc))
    }

    /// Puts stores into a memory that has none, in this order.
    pub fn restore(&mut self, stores: Vec<Held>)
        requires none { self.old.stores ≡ [] }
        requires are_held { AreHeld stores.items }
        ensures after { self.new ≡ record self.old { stores = stores.items } }
    {
        self.stores = stores;
    }
}
