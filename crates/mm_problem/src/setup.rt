//! The setup: packet stores, routes of the storage control, limits of channels, and when the arrivals of a step come.
ghost use Rattle.std.specs.Prelude.{◌≡◌};
ghost use Rattle.mm_problem.specs.Arrays.{lists_of};
ghost use Rattle.mm_problem.specs.Document.{AreCounted, rows_of, setup_in, setup_of};
ghost use Rattle.toml.specs.View.{table_view};
ghost use Rattle.mm_problem.specs.declared.fault.Fault.TheVariants.{NoMemory};
ghost use Rattle.mm_base.specs.Reading.{Gives};
ghost use Rattle.mm_problem.specs.Setup.{IsSetup};

use crate::come::Arrivals;
use crate::document::{Arrays, arrays_at, document_of, test_counts};
use crate::fault::Fault;
use crate::rows::rows_of;
use mm_base::{LimitRow, RouteRow, StoreRow};
use std::alloc::Global;
use std::marker::Model;
use toml::Table;

/// The setup of a mission. Contracts see its rows.
#[derive(Debug, Drop)]
pub struct Setup {
    pub(crate) stores: Vec<StoreRow>,
    pub(crate) routes: Vec<RouteRow>,
    pub(crate) limits: Vec<LimitRow>,
    pub(crate) come: Arrivals,
}

impl Model for Setup {
    ghost use Rattle.mm_problem.specs.Setup.{SetupRows, IsSetup};

    ghost Value = { SetupRows };

    ghost view = { λ a. record {
      stores = a.stores.items;
      routes = a.routes.items;
      limits = a.limits.items;
      come = a.come;
    } };

    ghost invariant = { λ a. IsSetup (record {
      stores = a.stores.items;
      routes = a.routes.items;
      limits = a.limits.items;
      come = a.come;
    }) };
}

// The setup of these arrays.
#[tactic(auto, unfolding(crate::specs::Document::rows_of))]
fn setup_of(alloc: Global, arrays: Arrays<'_>) -> Result<Setup, Fault>
    requires { AreCounted (lists_of arrays) }
    ensures { Gives NoMemory (λ setup. setup) result (rows_of (lists_of arrays.entry)) }
{
    let stores = rows_of(alloc, &[], arrays.stores)?;
    let routes = rows_of(alloc, stores.as_slice(), arrays.routes)?;
    let limits = rows_of(alloc, stores.as_slice(), arrays.limits)?;
    Ok(Setup {
        stores,
        routes,
        limits,
        come: arrays.come,
    })
}

// The setup of a document.
#[tactic(auto, unfolding(crate::specs::Document::setup_in))]
fn setup_in(alloc: Global, document: &Table) -> Result<Setup, Fault>
    ensures { Gives NoMemory (λ setup. setup) result (setup_in (table_view document.now)) }
{
    let arrays = arrays_at(document)?;
    test_counts(arrays)?;
    setup_of(alloc, arrays)
}

impl Setup {
    /// The setup of a TOML text. Otherwise the first fault of the text: 27 `SetupText`, 28 `SetupField` or 33 `Limit`;
    /// or 0 `NoMemory`.
    #[tactic(auto, unfolding(crate::specs::Document::setup_of))]
    pub fn read(alloc: Global, text: &[u8]) -> Result<Setup, Fault>
        ensures setup { Gives NoMemory (λ setup. setup) result (setup_of text.now) }
    {
        let document = document_of(alloc, text)?;
        setup_in(alloc, &document)
    }

    /// The packet stores, in setup order.
    #[must_use]
    pub fn stores(&self) -> &[StoreRow]
        ensures rows { result.now ≡ self.now.stores }
        ensures is_setup { IsSetup self.now }
    {
        self.stores.as_slice()
    }

    /// The routes, in setup order.
    #[must_use]
    pub fn routes(&self) -> &[RouteRow]
        ensures rows { result.now ≡ self.now.routes }
    {
        self.routes.as_slice()
    }

    /// The limits of channels, in setup order.
    #[must_use]
    pub fn limits(&self) -> &[LimitRow]
        ensures rows { result.now ≡ self.now.limits }
    {
        self.limits.as_slice()
    }

    /// When the arrivals of a step come.
    #[must_use]
    pub fn come(&self) -> Arrivals
        ensures come { result ≡ self.now.come }
    {
        self.come
    }
}
