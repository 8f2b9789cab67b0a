//! The stores and the routes of a setup.
ghost use Rattle.std.specs.Prelude.{◌≡◌, ◌≤◌, length, map, All, IfOk};
ghost use Rattle.mm_problem.specs.Setup.{IsStoreRow};
ghost use Rattle.mm_base.specs.declared.limits.TheConstants.{MAX_ROUTES};
ghost use Rattle.mm_memory.specs.Holdings.{opened, table_of};

use mm_base::{NoMemory, RouteRow, StoreRow};
use mm_control::ControlTable;
use mm_desk::{Held, StoreState};
use mm_store::AnyStore;
use std::alloc::Global;

// The store of a row, empty, with its storage on.
fn opened(alloc: Global, row: &StoreRow) -> Result<Held, NoMemory>
    requires { IsStoreRow row.now }
    ensures { IfOk result (λ held. held ≡ opened row.now) }
{
    let store = AnyStore::new(alloc, row.kind, row.size)?;
    let mut state = StoreState::of(store);
    state.enable();
    Ok(Held {
        id: row.id,
        channel: row.channel,
        state,
    })
}

// The stores of these rows, in order.
pub(crate) fn stores_of(alloc: Global, rows: &[StoreRow]) -> Result<Vec<Held>, NoMemory>
    requires { All IsStoreRow rows.now }
    ensures { IfOk result (λ stores. stores.items ≡ map opened rows.now) }
{
    let mut stores = Vec::new(alloc);
    for row in rows {
        stores.push(opened(alloc, row)?)?;
    }
    Ok(stores)
}

// The storage control with these routes.
pub(crate) fn control_of(alloc: Global, routes: &[RouteRow]) -> Result<ControlTable, NoMemory>
    requires { length routes.now ≤ MAX_ROUTES }
    ensures { IfOk result (λ control. control ≡ table_of routes.now) }
{
    let mut control = ControlTable::new(alloc)?;
    for route in routes {
        control.add(*route).unwrap();
    }
    Ok(control)
}
