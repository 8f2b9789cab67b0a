//! The text of a setup.
ghost use Rattle.std.specs.Prelude.{◌≡◌, ◌≤◌, All, IfOk, OnOk, codes, map, true};
ghost use Rattle.toml.specs.Data.{Data, is_before, member};
ghost use Rattle.toml.specs.View.{table_view, view};
ghost use Rattle.mm_base.specs.Id.{IsIdField};
ghost use Rattle.mm_problem.specs.Document.{setup_of};
ghost use Rattle.mm_problem.specs.Setup.{IsSetup};
ghost use Rattle.mm_rest.specs.Documents.{IsWholeRoute, id_data, number, setup_members, with_array, with_come};

use mm_base::{LimitRow, NoMemory, RouteRow, StoreId, StoreRow};
use mm_problem::Arrivals;
use mm_problem::laws::setups;
use std::alloc::Global;
use toml::{Table, Value};

// Puts a key with its value before the keys that a table has.
fn put(alloc: Global, table: &mut Table, key: &str, value: Value) -> Result<(), NoMemory>
    requires { is_before key.now (table_view table.old) ≡ true }
    ensures { OnOk result (table_view table.new ≡ member key.now (view value) (table_view table.old)) }
{
    let key = String::from_str(alloc, key)?;
    let _earlier = table.insert(key, value)?;
    Ok(())
}

// The text of an identifier.
fn id_value(alloc: Global, id: &StoreId) -> Result<Value, NoMemory>
    ensures value { IfOk result (λ v. view v ≡ id_data id.now) }
    ensures field { OnOk result (IsIdField id.now) }
{
    // The bytes are those of an identifier, as `field` ensures.
    let _field = id.field();
    let text = String::from_utf8_lossy(alloc, id.text())?;
    Ok(Value::from(text))
}

fn octet_value(octet: u8) -> Value
    ensures value { view result ≡ number octet }
    ensures most { octet ≤ 255 }
{
    Value::from(octet)
}

// Rows of a kind, each of which is printed as a table.
trait Tabled: Sized {
    // What the table says.
    ghost data_of: { Self → Data };

    // What a row of this kind is known to be.
    ghost IsWhole: { Self → Type 0 };

    fn value(&self, alloc: Global) -> Result<Value, NoMemory>
        ensures value { IfOk result (λ v. view v ≡ data_of self.now) }
        ensures whole { OnOk result (IsWhole self.now) };
}

impl Tabled for StoreRow {
    ghost use Rattle.mm_base.specs.Id.{IsIdField};
    ghost use Rattle.mm_rest.specs.Documents.{store_data};

    ghost data_of = { store_data };

    ghost IsWhole = { λ row. IsIdField row.id };

    fn value(&self, alloc: Global) -> Result<Value, NoMemory> {
        let mut table = Table::new(alloc);
        let kind = Value::string(alloc, self.kind.word())?;
        put(alloc, &mut table, "type", kind)?;
        put(alloc, &mut table, "start", Value::from(self.start))?;
        put(alloc, &mut table, "size", Value::from(self.size))?;
        let id = id_value(alloc, &self.id)?;
        put(alloc, &mut table, "id", id)?;
        put(alloc, &mut table, "channel", Value::from(self.channel))?;
        Ok(Value::from(table))
    }
}

impl Tabled for RouteRow {
    ghost use Rattle.mm_rest.specs.Documents.{IsWholeRoute, route_data};

    ghost data_of = { route_data };

    ghost IsWhole = { IsWholeRoute };

    fn value(&self, alloc: Global) -> Result<Value, NoMemory> {
        let mut table = Table::new(alloc);
        put(alloc, &mut table, "subtype", octet_value(self.subtype))?;
        let store = id_value(alloc, &self.store)?;
        put(alloc, &mut table, "store", store)?;
        put(alloc, &mut table, "service", octet_value(self.service))?;
        put(alloc, &mut table, "apid", Value::from(u32::from(self.apid)))?;
        Ok(Value::from(table))
    }
}

impl Tabled for LimitRow {
    ghost use Rattle.mm_rest.specs.Documents.{limit_data};

    ghost data_of = { limit_data };

    ghost IsWhole = { λ _. Unit {0} };

    fn value(&self, alloc: Global) -> Result<Value, NoMemory> {
        let mut table = Table::new(alloc);
        put(alloc, &mut table, "channel", Value::from(self.channel))?;
        put(alloc, &mut table, "blocks", Value::from(self.blocks))?;
        Ok(Value::from(table))
    }
}

// The tables of these rows.
fn values_of<R: Tabled>(alloc: Global, rows: &[R]) -> Result<Vec<Value>, NoMemory>
    ensures values { IfOk result (λ values. map view values.items ≡ map R.data_of rows.now) }
    ensures whole { OnOk result (All R.IsWhole rows.now) }
{
    let mut values = Vec::new(alloc);
    for row in rows {
        let value = row.value(alloc)?;
        values.push(value)?;
    }
    Ok(values)
}

// Puts a key with an array of tables before the keys that a table has, where there is a row.
fn put_rows<R: Tabled>(
    alloc: Global,
    table: &mut Table,
    key: &str,
    rows: &[R],
) -> Result<(), NoMemory>
    requires { is_before key.now (table_view table.old) ≡ true }
    ensures table { OnOk result (table_view table.new
        ≡ with_array key.now (map R.data_of rows.now) (table_view table.old)) }
    ensures whole { OnOk result (All R.IsWhole rows.now) }
{
    let values = values_of(alloc, rows)?;
    if !values.is_empty() {
        put(alloc, table, key, Value::from(values))?;
    }
    Ok(())
}

// Puts the key that says when arrivals come before the keys that a table has, where they come during dumps.
fn put_come(alloc: Global, table: &mut Table, come: Arrivals) -> Result<(), NoMemory>
    requires { is_before (codes "arrivals") (table_view table.old) ≡ true }
    ensures { OnOk result (table_view table.new ≡ with_come come (table_view table.old)) }
{
    match come {
        Arrivals::Before => Ok(()),
        Arrivals::During => {
            let word = Value::string(alloc, come.word())?;
            put(alloc, table, "arrivals", word)
        }
    }
}

// The document of a setup with these rows, and arrivals that come then.
fn setup_table(
    alloc: Global,
    stores: &[StoreRow],
    routes: &[RouteRow],
    limits: &[LimitRow],
    come: Arrivals,
) -> Result<Table, NoMemory>
    ensures table { IfOk result (λ table. table_view table ≡ setup_members
        (record { stores = stores.now; routes = routes.now; limits = limits.now; come = come })) }
    ensures stores { OnOk result (All (λ row. IsIdField row.id) stores.now) }
    ensures routes { OnOk result (All IsWholeRoute routes.now) }
{
    let mut table = Table::new(alloc);
    put_rows(alloc, &mut table, "store", stores)?;
    put_rows(alloc, &mut table, "route", routes)?;
    put_rows(alloc, &mut table, "limit", limits)?;
    put_come(alloc, &mut table, come)?;
    Ok(table)
}

/// The text of the setup with these rows and arrivals that come then, which is read as these rows. The key `arrivals`
/// stands first, if arrivals come during dumps; limits and routes stand before the stores, and keys in alphabetical
/// order.
pub fn print_setup(
    alloc: Global,
    stores: &[StoreRow],
    routes: &[RouteRow],
    limits: &[LimitRow],
    come: Arrivals,
) -> Result<Vec<u8>, NoMemory>
    requires { IsSetup (record { stores = stores.now; routes = routes.now; limits = limits.now; come = come }) }
    ensures { IfOk result (λ text. setup_of text.items
        ≡ Ok (record { stores = stores.now; routes = routes.now; limits = limits.now; come = come })) }
{
    let table = setup_table(alloc, stores, routes, limits, come)?;
    setups();
    match toml::table_to_string(alloc, &table) {
        Ok(text) => {
            // The text is UTF-8, as `as_str` ensures.
            let _text = text.as_str();
            Ok(text.into_bytes())
        }
        // A table without dates is refused for memory alone.
        Err(_) => Err(NoMemory),
    }
}
