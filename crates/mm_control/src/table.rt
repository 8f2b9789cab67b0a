//! The storage control.
ghost use Rattle.std.specs.Prelude.{◌≡◌, ◌+◌, ◌≤◌, ℕ, if◌then◌else◌, List, [], ◌∷◌, length, map, filter, bytes_eq};
ghost use Rattle.std.specs.Prelude.{is_ok, IfOk, IfErr, OnOk, OnErr};
ghost use Rattle.std.specs.List.{prefix_len};
ghost use Rattle.mm_control.specs.Routes.{IsInOrder, AreInOrder, IsTable, Stands, WouldStand, has_row, takes, with_row};
ghost use Rattle.mm_control.specs.Routes.{without_row, without_store, count_of_store, is_for, type_cmp, stores_for};
ghost use Rattle.mm_control.specs.declared.fault.Fault.TheVariants.{NoSuchRoute, TableFull};

use crate::fault::Fault;
use mm_base::{MAX_ROUTES, NoMemory, RouteRow, StoreId};
use std::alloc::{AllocError, Global};
use std::cmp::Ordering;
use std::marker::Model;

/// The storage control (ECSS-E-ST-70-41C, 6.15): which report types go into which packet stores. Contracts see the list
/// of its rows in the order of APID, service, subtype and store. No row is in the list twice.
#[derive(Drop)]
pub struct ControlTable {
    rows: Vec<RouteRow>,
}

impl Model for ControlTable {
    ghost use Rattle.std.specs.Prelude.{List, ◌≤◌, vec_capacity};
    ghost use Rattle.mm_base.specs.declared.limits.TheConstants.{MAX_ROUTES};
    ghost use Rattle.mm_base.specs.declared.rows.RouteRow.{RouteRow};
    ghost use Rattle.mm_control.specs.Routes.{IsTable};

    ghost Value = { List RouteRow };

    ghost view = { λ a. a.rows.items };

    ghost invariant = { λ a. IsTable a.rows.items × (MAX_ROUTES ≤ vec_capacity a.rows) };
}

// The order of a row's report type and this one.
fn type_cmp(row: &RouteRow, apid: u16, service: u8, subtype: u8) -> Ordering
    ensures { result ≡ type_cmp apid service subtype row.now }
{
    match row.apid.cmp(&apid) {
        Ordering::Equal => match row.service.cmp(&service) {
            Ordering::Equal => row.subtype.cmp(&subtype),
            other => other,
        },
        other => other,
    }
}

// Whether a row is for this report type.
fn is_for(row: &RouteRow, apid: u16, service: u8, subtype: u8) -> bool
    ensures { result ≡ is_for apid service subtype row.now }
{
    row.apid == apid && row.service == service && row.subtype == subtype
}

// The number of rows at the front of the list that are for this report type.
fn count_for(rows: &[RouteRow], apid: u16, service: u8, subtype: u8) -> usize
    ensures { result ≡ prefix_len (is_for apid service subtype) rows.now }
{
    rows.iter()
        .position(|row| !is_for(row, apid, service, subtype))
        .unwrap_or(rows.len())
}

// The rows of a report type, which are next to one another in the table.
fn rows_for(rows: &[RouteRow], apid: u16, service: u8, subtype: u8) -> &[RouteRow]
    requires { IsInOrder rows.now }
    ensures { result.now ≡ filter (is_for apid service subtype) rows.now }
{
    let start = rows.partition_point(|row| type_cmp(row, apid, service, subtype).is_lt());
    let rest = &rows[start..];
    &rest[..count_for(rest, apid, service, subtype)]
}

// The stores of these rows, in order.
fn stores_of(alloc: Global, rows: &[RouteRow]) -> Result<Vec<StoreId>, AllocError>
    ensures { IfOk result (λ stores. stores.items ≡ map (λ r. r.store) rows.now) }
{
    rows.iter().map(|row| row.store).collect(alloc)
}

// The place of a row in the table, or as the error the place where it would be inserted.
fn place_of(rows: &[RouteRow], row: &RouteRow) -> Result<usize, usize>
    requires { IsInOrder rows.now }
    ensures found { is_ok result ≡ has_row row.now rows.now }
    ensures stands { IfOk result (λ place. Stands row.now rows.now place) }
    ensures would_stand { IfErr result (λ place. WouldStand row.now rows.now place) }
{
    rows.binary_search(row)
}

impl ControlTable {
    /// An empty table with room for 256 rows. All its memory is taken here.
    pub fn new(alloc: Global) -> Result<ControlTable, NoMemory>
        ensures empty { IfOk result (λ table. table ≡ []) }
    {
        let rows = Vec::with_capacity(alloc, MAX_ROUTES)?;
        Ok(ControlTable { rows })
    }

    /// Adds a row. If the table already has the row, nothing changes; if not, a table of 256 rows refuses it as 11
    /// `TableFull`.
    pub fn add(&mut self, row: RouteRow) -> Result<(), Fault>
        // The rows that are taken, and the table after them.
        ensures taken { is_ok result ≡ takes row self.old }
        ensures ok { OnOk result (self.new ≡ with_row row self.old) }
        ensures grows { length self.new ≤ length self.old + 1 }
        // A refused row changes nothing.
        ensures refusal { IfErr result (λ e. e ≡ TableFull) }
        ensures err { OnErr result (self.new ≡ self.old) }
    {
        match place_of(self.rows.as_slice(), &row) {
            Ok(_) => Ok(()),
            Err(_) if self.rows.len() == MAX_ROUTES => Err(Fault::TableFull),
            Err(place) => {
                self.rows.insert(place, row).unwrap();
                Ok(())
            }
        }
    }

    /// Deletes a row. If the table does not have the row, the refusal is 10 `NoSuchRoute`.
    pub fn delete(&mut self, row: RouteRow) -> Result<(), Fault>
        ensures found { is_ok result ≡ has_row row self.old }
        ensures ok { OnOk result (self.new ≡ without_row row self.old) }
        ensures refusal { IfErr result (λ e. e ≡ NoSuchRoute) }
        ensures err { OnErr result (self.new ≡ self.old) }
    {
        match place_of(self.rows.as_slice(), &row) {
            Ok(place) => {
                let _deleted = self.rows.remove(place);
                Ok(())
            }
            Err(_) => Err(Fault::NoSuchRoute),
        }
    }

    /// Deletes the rows of a store, and returns their number.
    pub fn delete_store(&mut self, store: &StoreId) -> u32
        ensures rows { self.new ≡ without_store store.now self.old }
        ensures count { result ≡ count_of_store store.now self.old }
    {
        let before = self.rows.len();
        self.rows.retain(|row| row.store != *store);
        (before - self.rows.len()) as u32
    }

    /// The rows of a report type, in the order of their stores, read in place.
    pub fn rows_for(&self, apid: u16, service: u8, subtype: u8) -> &[RouteRow]
        ensures rows { result.now ≡ filter (is_for apid service subtype) self.now }
        // Their stores stand in order, and a store is among them once where the table has the row, and else not.
        ensures in_order { AreInOrder (map (λ r. r.store) result.now) }
        ensures once { (id : List ℕ)
            → filter (bytes_eq id) (map (λ r. r.store) result.now)
            ≡ (if has_row (record { apid = apid; service = service; subtype = subtype; store = id }) self.now then id
            ∷ [] else []) }
    {
        rows_for(&self.rows, apid, service, subtype)
    }

    /// The stores that a report type goes into, in the order of their identifiers.
    pub fn stores_for(
        &self,
        alloc: Global,
        apid: u16,
        service: u8,
        subtype: u8,
    ) -> Result<Vec<StoreId>, NoMemory>
        ensures stores { IfOk result
            (λ stores. stores.items ≡ stores_for apid service subtype self.now) }
        // They stand in order, and a store is among them once where the table has the row, and else not.
        ensures in_order { IfOk result (λ stores. AreInOrder stores.items) }
        ensures once { IfOk result (λ stores. (id : List ℕ)
            → filter (bytes_eq id) stores.items
            ≡ (if has_row (record { apid = apid; service = service; subtype = subtype; store = id }) self.now then id
            ∷ [] else [])) }
    {
        let stores = stores_of(alloc, self.rows_for(apid, service, subtype))?;
        Ok(stores)
    }

    /// The rows, in the order of APID, service, subtype and store.
    pub fn list(&self) -> &[RouteRow]
        ensures rows { result.now ≡ self.now }
        ensures is_table { IsTable self.now }
    {
        &self.rows
    }
}
