//! The reports that answer requests.
ghost use Rattle.std.specs.Prelude.{◌≡◌, ◌<◌, ◌≤◌, ◌∷◌, [], length, map, filter_map, All, IfOk, IfSome};
ghost use Rattle.std.specs.Option.{option_copied};
ghost use Rattle.mm_st15.specs.Report.{HasCount};
ghost use Rattle.mm_st15.specs.Request.{count_of};
ghost use Rattle.mm_st15.specs.declared.report.TheConstants.{MOST_ROWS};
ghost use Rattle.mm_memory.specs.Reports.{types_to, summary_of, asked_about, summary_at, control_at, reports_on};

use crate::memory::Memory;
use crate::places::store_of;
use crate::validation::id_of;
use mm_base::{NoMemory, StoreId};
use mm_desk::Held;
use mm_st15::{Configuration, Entries, Report, Request, Row, Status, Summary, Target};
use mm_store::PacketStore;
use std::alloc::Global;

fn summary_of(held: &Held) -> Summary
    ensures { result ≡ summary_of held.now }
{
    let store = held.state.store();
    Summary {
        id: held.id.field(),
        oldest: store.oldest(),
        newest: store.newest(),
        held: store.len(),
    }
}

// An entry of a report on each store.
trait OfStore: Copy {
    ghost use Rattle.mm_desk.specs.declared.held.Held.{Held};

    // What it tells of a store.
    ghost told: { Held → Self };

    fn of(held: &Held) -> Self
        ensures { result ≡ Self.told held.now };
}

impl OfStore for Status {
    ghost use Rattle.mm_memory.specs.Reports.{statuses_of};

    ghost told = { statuses_of };

    fn of(held: &Held) -> Status {
        Status {
            id: held.id.field(),
            storage: u8::from(held.state.storage()),
            retrieval: u8::from(held.state.retrieval().is_some()),
        }
    }
}

impl OfStore for Configuration {
    ghost use Rattle.mm_memory.specs.Reports.{configuration_of};

    ghost told = { configuration_of };

    fn of(held: &Held) -> Configuration {
        let store = held.state.store();
        Configuration {
            id: held.id.field(),
            size: store.size(),
            kind: store.kind().code(),
            channel: held.channel,
        }
    }
}

// A single report.
fn one(alloc: Global, report: Report) -> Result<Vec<Report>, NoMemory>
    ensures reports { IfOk result (λ reports. reports.items ≡ report ∷ []) }
    ensures fits { IfOk result (λ reports. HasCount report → All HasCount reports.items) }
{
    let mut reports = Vec::new(alloc);
    reports.push(report)?;
    Ok(reports)
}

impl Memory {
    // The store that an instruction asks about, where it is accepted.
    fn asked_about(&self, octets: [u8; 8]) -> Option<&Held>
        ensures { option_copied result ≡ asked_about octets self.now }
    {
        match id_of(octets) {
            Ok(id) => store_of(&self.stores, &id),
            Err(_) => None,
        }
    }

    // The summary for an instruction, where it is accepted.
    fn summary_at(&self, target: &Target) -> Option<Summary>
        ensures { result ≡ summary_at self.now target.now }
    {
        let held = self.asked_about(target.id)?;
        Some(summary_of(held))
    }

    // The summaries for the accepted instructions, in order.
    fn summaries(&self, alloc: Global, targets: &[Target]) -> Result<Vec<Summary>, NoMemory>
        ensures entries { IfOk result
            (λ entries. entries.items ≡ filter_map (summary_at self.now) targets.now) }
        ensures few { IfOk result (λ entries. length entries.items ≤ length targets.now) }
    {
        let all = targets
            .iter()
            .filter_map(|target| self.summary_at(target))
            .collect(alloc)?;
        Ok(all)
    }

    // The report types that go into a store.
    fn types_to(&self, alloc: Global, id: &StoreId) -> Result<Vec<Row>, NoMemory>
        ensures rows { IfOk result (λ rows. rows.items ≡ types_to id.now self.now.routes) }
        ensures few { IfOk result (λ rows. length rows.items ≤ MOST_ROWS) }
    {
        let rows = self
            .control
            .list()
            .iter()
            .filter(|row| row.store == *id)
            .map(|row| Row {
                apid: row.apid,
                service: row.service,
                subtype: row.subtype,
            })
            .collect(alloc)?;
        Ok(rows)
    }

    // The report on the storage control for an instruction, where it is accepted.
    fn control_at(
        &self,
        alloc: Global,
        moment: u64,
        target: &Target,
    ) -> Result<Option<Report>, NoMemory>
        ensures report { IfOk result (λ report. report ≡ control_at moment self.now target.now) }
        ensures fits { IfOk result (λ report. IfSome report HasCount) }
    {
        match self.asked_about(target.id) {
            Some(held) => {
                let rows = Entries::new(self.types_to(alloc, &held.id)?);
                let id = held.id.field();
                Ok(Some(Report::Control { moment, id, rows }))
            }
            None => Ok(None),
        }
    }

    // The reports on the storage control for the accepted instructions, in order.
    fn controls(
        &self,
        alloc: Global,
        moment: u64,
        targets: &[Target],
    ) -> Result<Vec<Report>, NoMemory>
        ensures reports { IfOk result
            (λ reports. reports.items ≡ filter_map (control_at moment self.now) targets.now) }
        ensures fit { IfOk result (λ reports. All HasCount reports.items) }
    {
        let mut all = Vec::new(alloc);
        for target in targets {
            match self.control_at(alloc, moment, target)? {
                Some(report) => all.push(report)?,
                None => {}
            }
        }
        Ok(all)
    }

    // The reports on a request at a moment, in ticks.
    pub(crate) fn reports_on(
        &self,
        alloc: Global,
        moment: u64,
        request: &Request,
    ) -> Result<Vec<Report>, NoMemory>
        ensures reports { IfOk result
            (λ reports. reports.items ≡ reports_on request.now moment self.now) }
        ensures fit { IfOk result (λ reports.
            count_of request.now < 256 → All HasCount reports.items) }
    {
        match request {
            Request::ReportControl(targets) => self.controls(alloc, moment, targets.as_slice()),
            Request::SummariseContent(targets) => {
                let entries = Entries::new(self.summaries(alloc, targets.as_slice())?);
                one(alloc, Report::Summaries { moment, entries })
            }
            Request::ReportStatus => {
                let entries = self.entries::<Status>(alloc)?;
                one(alloc, Report::Statuses { moment, entries })
            }
            Request::ReportConfiguration => {
                let entries = self.entries::<Configuration>(alloc)?;
                one(alloc, Report::Configurations { moment, entries })
            }
            _ => Ok(Vec::new(alloc)),
        }
    }

    // The entries on the stores, in order.
    fn entries<T: OfStore>(&self, alloc: Global) -> Result<Entries<T>, NoMemory>
        ensures entries { IfOk result (λ entries. entries ≡ map T.told self.now.stores) }
        ensures few { IfOk result (λ entries. length entries < 256) }
    {
        let all: Vec<T> = self.stores.iter().map(|held| T::of(held)).collect(alloc)?;
        Ok(Entries::new(all))
    }
}
