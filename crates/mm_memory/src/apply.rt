//! Applying requests to a memory.
ghost use Rattle.std.specs.Prelude.{◌≡◌, ◌<◌, ◌≤◌, [], length, vec_capacity, Some, None, Ok, All, IfOk, OnErr};
ghost use Rattle.std.specs.Prelude.{MatchOption};
ghost use Rattle.mm_memory.specs.Applying.{new_store, without, created, deleted, changed, routed, on_store};
ghost use Rattle.mm_memory.specs.Applying.{on_no_store, ComesUnlessNoMemory, Applies, AppliesEach, MayLack, route_to};
ghost use Rattle.mm_memory.specs.Acting.{act, TakesMemory};
ghost use Rattle.mm_control.specs.Routes.{without_store};
ghost use Rattle.mm_memory.specs.Holdings.{StandsAt, store_of};
ghost use Rattle.mm_st15.specs.Report.{HasCount};
ghost use Rattle.mm_st15.specs.Request.{count_of};
ghost use Rattle.mm_memory.specs.Reports.{reports_on};
ghost use Rattle.mm_memory.specs.Instruction.{instructions_of};

use crate::answer::{Answer, Answers};
use crate::change::change_store;
use crate::fault::Fault;
use crate::instruction::{Action, Instruction, RouteChange, StoreChange, StoreConfig};
use crate::memory::Memory;
use crate::places::place_of;
use crate::request::instructions_of;
use mm_base::{MAX_STORES, NoMemory, RouteRow, StoreId};
use mm_desk::{Held, StoreState};
use mm_st15::{Request, Row};
use mm_store::AnyStore;
use std::alloc::Global;

// A new store, empty, with its storage off.
fn new_store(alloc: Global, id: StoreId, config: &StoreConfig) -> Result<Held, NoMemory>
    ensures { IfOk result (λ held. held ≡ new_store id config.now) }
{
    let store = AnyStore::new(alloc, config.kind, config.size.count())?;
    Ok(Held {
        id,
        channel: config.channel,
        state: StoreState::of(store),
    })
}

fn route_to(id: StoreId, row: &Row) -> RouteRow
    ensures { result ≡ route_to id row.now }
{
    RouteRow {
        apid: row.apid,
        service: row.service,
        subtype: row.subtype,
        store: id,
    }
}

impl Memory {
    // Creates a store that is not there.
    fn create(&mut self, alloc: Global, id: StoreId, config: &StoreConfig) -> Result<(), Fault>
        requires { store_of id self.old.stores ≡ None }
        ensures { ComesUnlessNoMemory (Unit {0}) (created id config.now self.old)
            self.old (result, self.new) }
    {
        if self.stores.len() >= MAX_STORES {
            return Err(Fault::TooManyStores);
        }
        let held = new_store(alloc, id, config)?;
        match self.stores.push(held) {
            Ok(()) => Ok(()),
            Err(_) => Err(Fault::NoMemory),
        }
    }

    // Takes out the store with this identifier, and its routes.
    fn take_out(&mut self, id: &StoreId)
        ensures stores { self.new.stores ≡ without id.now self.old.stores }
        ensures routes { self.new.routes ≡ without_store id.now self.old.routes }
    {
        self.stores.retain(|held| held.id != *id);
        let _rows = self.control.delete_store(id);
    }

    // Deletes the store at this place, with its routes.
    fn delete(&mut self, place: usize, id: &StoreId) -> Result<(), Fault>
        requires { StandsAt id.now self.old.stores place }
        ensures { (h : Held) → store_of id.now self.old.stores ≡ Some h
            → deleted id.now h self.old ≡ (result, self.new) }
    {
        self.stores[place].state.at_rest()?;
        self.take_out(id);
        Ok(())
    }

    // Changes the store at this place.
    fn change(&mut self, place: usize, id: &StoreId, change: &StoreChange) -> Result<(), Fault>
        requires { StandsAt id.now self.old.stores place }
        ensures { (h : Held) → store_of id.now self.old.stores ≡ Some h
            → ComesUnlessNoMemory (TakesMemory change.now h)
            (changed id.now (act change.now h) self.old) self.old (result, self.new) }
    {
        change_store(&mut self.stores[place], change)
    }

    // Changes the storage control by a row.
    fn route(&mut self, change: RouteChange, row: RouteRow) -> Result<(), Fault>
        ensures { routed change row self.old ≡ (result, self.new) }
    {
        match change {
            RouteChange::Add => self.control.add(row)?,
            RouteChange::Delete => self.control.delete(row)?,
        }
        Ok(())
    }

    // Applies an action to the store at this place.
    fn on_store(&mut self, place: usize, id: &StoreId, action: &Action) -> Result<(), Fault>
        requires { StandsAt id.now self.old.stores place }
        ensures { (h : Held) → store_of id.now self.old.stores ≡ Some h
            → ComesUnlessNoMemory (MayLack action.now (Some h))
            (on_store id.now action.now h self.old) self.old (result, self.new) }
    {
        match action {
            Action::Create(_) => Err(Fault::Exists),
            Action::Delete => self.delete(place, id),
            Action::Route(change, row) => self.route(*change, route_to(*id, row)),
            Action::Report => Ok(()),
            Action::Change(change) => self.change(place, id, change),
        }
    }

    // Applies an action for a store that is not there.
    fn on_no_store(&mut self, alloc: Global, id: StoreId, action: &Action) -> Result<(), Fault>
        requires { store_of id self.old.stores ≡ None }
        ensures { ComesUnlessNoMemory (MayLack action.now None) (on_no_store id action.now self.old)
            self.old (result, self.new) }
    {
        match action {
            Action::Create(config) => self.create(alloc, id, config),
            _ => Err(Fault::NoSuchStore),
        }
    }

    // Carries out an instruction, or answers the test that it fails.
    fn apply_one(
        &mut self,
        alloc: Global,
        instruction: &Result<Instruction, Fault>,
    ) -> Result<(), Fault>
        ensures { Applies instruction.now self.old (result, self.new) }
    {
        match instruction {
            Ok(instruction) => match place_of(&self.stores, &instruction.id) {
                Some(place) => self.on_store(place, &instruction.id, &instruction.action),
                None => self.on_no_store(alloc, instruction.id, &instruction.action),
            },
            Err(fault) => Err(*fault),
        }
    }

    // Applies instructions in order, each by itself.
    fn answers(
        &mut self,
        alloc: Global,
        instructions: &[Result<Instruction, Fault>],
        each: &mut Vec<Answer>,
    )
        requires none { each.old.items ≡ [] }
        requires room { length instructions.now ≤ vec_capacity each.old }
        ensures { AppliesEach instructions.now self.old each.new.items self.new }
    {
        for instruction in instructions {
            let outcome = self.apply_one(alloc, instruction);
            each.push_reserved(Answer::of(outcome));
        }
    }

    /// Applies a request (ECSS-E-ST-70-41C, 6.15) at a moment, in ticks: one answer for each
    /// instruction, in order, and the reports. An instruction that is refused changes nothing, and
    /// the others are carried out all the same. `NoMemory` has changed nothing.
    pub fn apply(&mut self, alloc: Global, now: u64, request: &Request) -> Result<Answers, NoMemory>
        ensures each { IfOk result (λ answers.
            AppliesEach (instructions_of request.now) self.old answers.each.items self.new) }
        ensures reports { IfOk result (λ answers.
            answers.reports.items ≡ reports_on request.now now self.old) }
        ensures fit { IfOk result (λ answers.
            count_of request.now < 256 → All HasCount answers.reports.items) }
        ensures err { OnErr result (self.new ≡ self.old) }
    {
        let instructions = instructions_of(alloc, request)?;
        let mut each = Vec::with_capacity(alloc, instructions.len())?;
        // A request that is answered by reports changes nothing, so that they may be made first.
        let reports = self.reports_on(alloc, now, request)?;
        self.answers(alloc, &instructions, &mut each);
        Ok(Answers { each, reports })
    }
}
