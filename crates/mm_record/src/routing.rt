//! The routings that a recorder remembers, so that the rows of a report type are not looked up for each packet.
ghost use Rattle.std.specs.Prelude.{◌≡◌, ◌<◌, List, IfSome};
ghost use Rattle.mm_record.specs.Words.{RouteRow, StoreLabel, ids_of, AreNamed};
ghost use Rattle.mm_record.specs.declared.routing.TheConstants.{REMEMBERED};
ghost use Rattle.mm_record.specs.Routings.{LeadsTo, AreRoutings};

use mm_control::ControlTable;
use mm_shared::{StoreLabel, place_of};

/// How many routings a recorder remembers.
pub(crate) const REMEMBERED: usize = 16;

/// The report type of telemetry.
#[derive(Clone, Copy, PartialEq, Eq)]
pub(crate) struct ReportType {
    pub(crate) apid: u16,
    pub(crate) service: u8,
    pub(crate) subtype: u8,
}

impl ReportType {
    // Where the routing of this report type is remembered.
    fn slot(self) -> usize
        ensures within { result < REMEMBERED }
    {
        (self.apid as usize + self.service as usize + self.subtype as usize) % REMEMBERED
    }
}

/// A report type, and the index of the store that its packets go to, if they go to one store alone.
#[derive(Clone, Copy)]
pub(crate) struct Routing {
    pub(crate) report: ReportType,
    pub(crate) store: Option<usize>,
}

// The index of the store that packets of a report type go to, if they go to one store alone.
fn lone_store_of(labels: &[StoreLabel], control: &ControlTable, report: ReportType) -> Option<usize>
    requires named { AreNamed (ids_of labels.now) }
    ensures leads { IfSome result (LeadsTo control.now labels.now report) }
{
    let rows = control.rows_for(report.apid, report.service, report.subtype);
    let [row] = rows else {
        return None;
    };
    place_of(labels, &row.store)
}

/// The routings of the report types that a recorder met last, one in each slot.
#[derive(Drop)]
pub(crate) struct Routings {
    slots: [Routing; REMEMBERED],
}

impl Routings {
    /// The routings of a recorder that has met no report type.
    pub(crate) fn new() -> Routings
        ensures routings { (routes : List RouteRow) (labels : List StoreLabel) → AreRoutings routes labels result }
    {
        let report = ReportType {
            apid: 0,
            service: 0,
            subtype: 0,
        };
        let nothing = Routing {
            report,
            store: None,
        };
        Routings {
            slots: [nothing; REMEMBERED],
        }
    }

    /// The index of the store that packets of a report type go to, if they go to one store alone.
    pub(crate) fn lone_store(
        &mut self,
        labels: &[StoreLabel],
        control: &ControlTable,
        report: ReportType,
    ) -> Option<usize>
        requires named { AreNamed (ids_of labels.now) }
        requires routings { AreRoutings control.now labels.now self.old }
        ensures routings { AreRoutings control.now labels.now self.new }
        ensures leads { IfSome result (LeadsTo control.now labels.now report) }
    {
        let slot = report.slot();
        if self.slots[slot].report != report {
            let store = lone_store_of(labels, control, report);
            self.slots[slot] = Routing { report, store };
        }
        self.slots[slot].store
    }
}
