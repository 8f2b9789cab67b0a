//! The rows of a setup, read from its tables.
ghost use Rattle.std.specs.Prelude.{◌≡◌, ◌==◌};
ghost use Rattle.std.specs.List.{list_any};
ghost use Rattle.toml.specs.View.{view, table_view};
ghost use Rattle.mm_problem.specs.declared.fault.Fault.TheVariants.{NoMemory};
ghost use Rattle.mm_base.specs.Reading.{Gives};
ghost use Rattle.mm_base.specs.SameRoutes.{same_route};
ghost use Rattle.mm_problem.specs.Tables.{table_at, table_of, id_of, id_at, kind_of, kind_at, start_at};
ghost use Rattle.mm_problem.specs.Tables.{store_at, has_store, new_store, route_at, new_route, limit_at, new_limit};

use crate::fault::{Fault, Name};
use crate::keys::{has_only, number_at, text_at, value_at};
use crate::reading::test_field;
use crate::rows::Row;
use mm_base::{Kind, LimitRow, MAX_APID, MAX_BLOCKS, MAX_CHANNEL, RouteRow, StoreId, StoreRow};
use toml::{Table, Value};

// The keys in the tables of stores, routes and limits.
static STORE_KEYS: [Name; 5] = [Name::Id, Name::Size, Name::Type, Name::Channel, Name::Start];

static ROUTE_KEYS: [Name; 4] = [Name::Apid, Name::Service, Name::Subtype, Name::Store];

static LIMIT_KEYS: [Name; 2] = [Name::Channel, Name::Blocks];

// The members of an element that is a table.
fn table_at(row: u32, name: Name, value: &Value) -> Result<&Table, Fault>
    ensures { Gives NoMemory (λ t. table_view t.now) result (table_at row name (view value.now)) }
{
    value.as_table().ok_or(Fault::SetupField { row, name })
}

// The members of an element that is a table with no keys but these.
#[tactic(auto, unfolding(crate::specs::Tables::table_of))]
fn table_of<'a>(
    row: u32,
    element: Name,
    keys: &[Name],
    value: &'a Value,
) -> Result<&'a Table, Fault>
    ensures { Gives NoMemory (λ t. table_view t.now) result (table_of row element keys.now (view value.now)) }
{
    let table = table_at(row, element, value)?;
    test_field(has_only(keys, table), row, Name::Unknown)?;
    Ok(table)
}

// The identifier with this text.
fn id_of(row: u32, name: Name, text: &str) -> Result<StoreId, Fault>
    ensures { Gives NoMemory (λ id. id) result (id_of row name text.now) }
{
    match StoreId::of_text(text.as_bytes()) {
        Ok(id) => Ok(id),
        Err(_) => Err(Fault::SetupField { row, name }),
    }
}

// The identifier at a key.
#[tactic(auto, unfolding(crate::specs::Tables::id_at))]
fn id_at(row: u32, name: Name, table: &Table) -> Result<StoreId, Fault>
    ensures { Gives NoMemory (λ id. id) result (id_at row name (table_view table.now)) }
{
    let text = text_at(row, name, table)?;
    id_of(row, name, text)
}

fn kind_of(row: u32, word: &str) -> Result<Kind, Fault>
    ensures { Gives NoMemory (λ kind. kind) result (kind_of row word.now) }
{
    if word == Kind::Circular.word() {
        Ok(Kind::Circular)
    } else if word == Kind::Bounded.word() {
        Ok(Kind::Bounded)
    } else {
        Err(Fault::SetupField {
            row,
            name: Name::Type,
        })
    }
}

#[tactic(auto, unfolding(crate::specs::Tables::kind_at))]
fn kind_at(row: u32, table: &Table) -> Result<Kind, Fault>
    ensures { Gives NoMemory (λ kind. kind) result (kind_at row (table_view table.now)) }
{
    let word = text_at(row, Name::Type, table)?;
    kind_of(row, word)
}

fn start_at(row: u32, size: u32, table: &Table) -> Result<u32, Fault>
    ensures { Gives NoMemory (λ n. n) result (start_at row size (table_view table.now)) }
{
    match value_at(Name::Start, table) {
        Some(_) => number_at(row, Name::Start, 0, size, table),
        None => Ok(0),
    }
}

fn has_store(stores: &[StoreRow], id: &StoreId) -> bool
    ensures { result ≡ has_store stores.now id.now }
{
    stores.iter().any(|row| row.id == *id)
}

impl Row for StoreRow {
    ghost row_at = { store_at };

    ghost new_row = { λ stores. new_store };

    #[tactic(auto, unfolding(crate::specs::Tables::store_at))]
    fn read(row: u32, value: &Value) -> Result<StoreRow, Fault> {
        let table = table_of(row, Name::Store, &STORE_KEYS, value)?;
        let id = id_at(row, Name::Id, table)?;
        let size = number_at(row, Name::Size, 1, MAX_BLOCKS, table)?;
        let kind = kind_at(row, table)?;
        let channel = number_at(row, Name::Channel, 0, u32::from(MAX_CHANNEL), table)? as u8;
        let start = start_at(row, size, table)?;
        Ok(StoreRow {
            id,
            size,
            start,
            kind,
            channel,
        })
    }

    // No earlier store has the row's identifier.
    fn test_new(_stores: &[StoreRow], earlier: &[StoreRow], row: &StoreRow) -> Result<(), Fault> {
        let number = earlier.len() as u32 + 1;
        test_field(!has_store(earlier, &row.id), number, Name::Repeated)
    }
}

fn same_route(a: &RouteRow, b: &RouteRow) -> bool
    ensures { result ≡ same_route a.now b.now }
{
    a.apid == b.apid && a.service == b.service && a.subtype == b.subtype && a.store == b.store
}

fn has_route(routes: &[RouteRow], route: &RouteRow) -> bool
    ensures { result ≡ list_any (λ r. same_route r route.now) routes.now }
{
    routes.iter().any(|row| same_route(row, route))
}

impl Row for RouteRow {
    ghost row_at = { route_at };

    ghost new_row = { new_route };

    #[tactic(auto, unfolding(crate::specs::Tables::route_at))]
    fn read(row: u32, value: &Value) -> Result<RouteRow, Fault> {
        let table = table_of(row, Name::Route, &ROUTE_KEYS, value)?;
        let apid = number_at(row, Name::Apid, 0, u32::from(MAX_APID), table)? as u16;
        let service = number_at(row, Name::Service, 0, 255, table)? as u8;
        let subtype = number_at(row, Name::Subtype, 0, 255, table)? as u8;
        let store = id_at(row, Name::Store, table)?;
        Ok(RouteRow {
            apid,
            service,
            subtype,
            store,
        })
    }

    // The route leads to one of the stores, and differs from all earlier routes.
    #[tactic(auto, unfolding(crate::specs::Tables::new_route))]
    fn test_new(stores: &[StoreRow], earlier: &[RouteRow], row: &RouteRow) -> Result<(), Fault> {
        let number = earlier.len() as u32 + 1;
        test_field(has_store(stores, &row.store), number, Name::Store)?;
        test_field(!has_route(earlier, row), number, Name::Repeated)
    }
}

fn has_limit(limits: &[LimitRow], channel: u8) -> bool
    ensures { result ≡ list_any (λ r. r.channel == channel) limits.now }
{
    limits.iter().any(|row| row.channel == channel)
}

impl Row for LimitRow {
    ghost row_at = { limit_at };

    ghost new_row = { λ stores. new_limit };

    #[tactic(auto, unfolding(crate::specs::Tables::limit_at))]
    fn read(row: u32, value: &Value) -> Result<LimitRow, Fault> {
        let table = table_of(row, Name::Limit, &LIMIT_KEYS, value)?;
        let channel = number_at(row, Name::Channel, 0, u32::from(MAX_CHANNEL), table)? as u8;
        let blocks = number_at(row, Name::Blocks, 0, MAX_BLOCKS, table)?;
        Ok(LimitRow { channel, blocks })
    }

    // No earlier limit has the row's channel.
    fn test_new(_stores: &[StoreRow], earlier: &[LimitRow], row: &LimitRow) -> Result<(), Fault> {
        let number = earlier.len() as u32 + 1;
        test_field(!has_limit(earlier, row.channel), number, Name::Repeated)
    }
}
