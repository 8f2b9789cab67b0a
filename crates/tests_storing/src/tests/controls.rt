//! The table of the storage control.
ghost use Rattle.std.specs.Prelude.{◌≤◌};

use crate::tests::samples::{Host, holds, is_shown};
use mm_base::{RouteRow, StoreId};
use mm_control::{ControlTable, Fault};

fn store(rt: &impl Host, text: &[u8]) -> StoreId {
    StoreId::of_text(text).expect(rt, "an identifier")
}

fn row(rt: &impl Host, apid: u16, subtype: u8, text: &[u8]) -> RouteRow {
    RouteRow {
        apid,
        service: 3,
        subtype,
        store: store(rt, text),
    }
}

// The table takes the row.
fn adds(rt: &impl Host, table: &mut ControlTable, row: RouteRow) {
    assert!(rt; table.add(row) == Ok(()));
}

// The result of deleting the row.
fn deletes(rt: &impl Host, table: &mut ControlTable, row: RouteRow, want: Result<(), Fault>) {
    assert!(rt; table.delete(row) == want);
}

// A report type by APID, service and subtype.
type ReportType = (u16, u8, u8);

// The rows of this report type lead to these stores.
fn rows_lead(rt: &impl Host, table: &ControlTable, of: ReportType, want: &[StoreId]) {
    let rows = table.rows_for(of.0, of.1, of.2);
    holds(rt, rows.len() == want.len(), "the rows of a report type");
    for (row, id) in rows.iter().zip(want) {
        let is_led = row.apid == of.0 && row.store == *id;
        holds(rt, is_led, "the rows of a report type");
    }
}

// Reports of this type go into these stores, and their rows lead there.
fn finds(rt: &impl Host, table: &ControlTable, of: ReportType, want: &[StoreId]) {
    let stores = table.stores_for(rt.alloc(), of.0, of.1, of.2);
    let stores = stores.expect(rt, "memory");
    holds(rt, stores.as_slice() == want, "the stores of a report type");
    rows_lead(rt, table, of, want);
}

fn empty(rt: &impl Host) -> ControlTable {
    ControlTable::new(rt.alloc()).expect(rt, "memory")
}

#[test]
fn routes_of_setup(rt: HostRuntime) {
    let mut table = empty(&rt);
    adds(&rt, &mut table, row(&rt, 100, 25, b"SCI"));
    finds(&rt, &table, (100, 3, 25), &[store(&rt, b"SCI")]);
    finds(&rt, &table, (100, 3, 26), &[]);
    let other = row(&rt, 100, 26, b"SCI");
    deletes(&rt, &mut table, other, Err(Fault::NoSuchRoute));
}

// A table with a row for each of the APIDs below 256.
fn full(rt: &impl Host) -> ControlTable {
    let mut table = empty(rt);
    for apid in 0..256 {
        adds(rt, &mut table, row(rt, apid, 25, b"SCI"));
    }
    table
}

#[test]
fn a_full_table_takes_the_rows_that_it_has(rt: HostRuntime) {
    let mut table = full(&rt);
    let refused = table.add(row(&rt, 256, 25, b"SCI"));
    assert!(rt; refused == Err(Fault::TableFull));
    adds(&rt, &mut table, row(&rt, 255, 25, b"SCI"));
    assert!(rt; table.list().len() == 256);
}

#[test]
fn a_full_table_has_room_after_a_deletion(rt: HostRuntime) {
    let mut table = full(&rt);
    deletes(&rt, &mut table, row(&rt, 7, 25, b"SCI"), Ok(()));
    adds(&rt, &mut table, row(&rt, 256, 25, b"SCI"));
}

// The table has these rows, by APID, subtype and store, in this order.
fn lists(rt: &impl Host, table: &ControlTable, rows: &[(u16, u8, &str)]) {
    assert!(rt; table.list().len() == rows.len());
    for (listed, (apid, subtype, text)) in table.list().iter().zip(rows) {
        let want = row(rt, *apid, *subtype, text.as_bytes());
        holds(rt, *listed == want, "the rows in order");
    }
}

// Rows by APID, subtype and store.
macro_rules! rows {
    ($($apid:literal $subtype:literal $store:literal),*) => { [$(($apid, $subtype, $store)),*] };
}

// Rows in the order in which they are added.
static ADDED: [(u16, u8, &str); 6] = rows! {
    101 0 "A", 100 25 "B", 100 25 "AB", 99 255 "B", 100 25 "A", 100 25 "B"
};

// The same rows in the order of the table.
static ORDERED: [(u16, u8, &str); 5] = rows! {
    99 255 "B", 100 25 "A", 100 25 "AB", 100 25 "B", 101 0 "A"
};

// Without the rows of the store A.
static WITHOUT_A: [(u16, u8, &str); 3] = rows! { 99 255 "B", 100 25 "AB", 100 25 "B" };

// A table with the rows as they come.
fn filled(rt: &impl Host) -> ControlTable {
    let mut table = empty(rt);
    for (apid, subtype, text) in &ADDED {
        adds(rt, &mut table, row(rt, *apid, *subtype, text.as_bytes()));
    }
    table
}

#[test]
fn rows_stand_by_report_type_and_then_by_store(rt: HostRuntime) {
    let table = filled(&rt);
    lists(&rt, &table, &ORDERED);
    let stores = [store(&rt, b"A"), store(&rt, b"AB"), store(&rt, b"B")];
    finds(&rt, &table, (100, 3, 25), &stores);
}

#[test]
fn the_rows_of_a_store_are_deleted(rt: HostRuntime) {
    let mut table = filled(&rt);
    let a = store(&rt, b"A");
    assert!(rt; table.delete_store(&a) == 2);
    lists(&rt, &table, &WITHOUT_A);
    assert!(rt; table.delete_store(&a) == 0);
}

// Report types of this APID go into both stores, and those of neighbouring APIDs into none.
fn finds_both(rt: &impl Host, table: &ControlTable, apid: u16, both: &[StoreId])
    requires { apid ≤ 1000 }
{
    finds(rt, table, (apid, 3, 25), both);
    finds(rt, table, (apid + 1, 3, 25), &[]);
    finds(rt, table, (apid, 2, 25), &[]);
    finds(rt, table, (apid, 4, 24), &[]);
}

#[test]
fn each_report_type_finds_its_stores_among_many(rt: HostRuntime) {
    let mut table = empty(&rt);
    for apid in 0..60 {
        adds(&rt, &mut table, row(&rt, 2 * apid, 25, b"B"));
        adds(&rt, &mut table, row(&rt, 2 * apid, 25, b"A"));
    }
    let both = [store(&rt, b"A"), store(&rt, b"B")];
    for apid in 0..60 {
        finds_both(&rt, &table, 2 * apid, &both);
    }
}

#[test]
fn a_refusal_is_shown_by_number_and_name(rt: HostRuntime) {
    is_shown(&rt, &Fault::TableFull, "11 TableFull");
}
