//! Ports of shared stores: the right to make calls on them. A port may go to another thread.

use crate::rule::StoreSeat;
use std::marker::Model;

/// A port of shared stores: one seat there, through which calls are made on any of them. Contracts see which stores it
/// is of and the states from which its calls count, the number of its seat, and the list of the calls made through it,
/// each with the index of its store.
#[derive(Drop)]
pub struct Port {
    pub(crate) number: u32,
    pub(crate) seat: StoreSeat,
}

impl Model for Port {
    ghost use Rattle.std.specs.Prelude.{◌≡◌, ◌∷◌, [], length, slice_index_or};
    ghost use Rattle.mm_shared.specs.Steps.{IsAtRest};
    ghost use Rattle.mm_shared.specs.Views.{PortView, origin};

    ghost Value = { PortView };

    ghost view = { λ p. record {
      of = origin p.seat.table_id p.seat.me.0.states;
      number = p.seat.me.0.first;
      list = slice_index_or p.seat.me.0.lists 0 [];
    } };

    ghost invariant = { λ p. IsAtRest p.seat.me × (p.number ≡ p.seat.me.0.first) × (length p.seat.me.0.lists ≡ 1) };
}

/// Ports of shared stores that are still together. Contracts see which stores they are of and the states from
/// which their calls count, the number of the first seat, and the list of the calls made through each.
#[derive(Drop)]
pub struct Ports {
    pub(crate) first: u32,
    pub(crate) seat: StoreSeat,
}

impl Model for Ports {
    ghost use Rattle.std.specs.Prelude.{◌≡◌, ◌+◌, ◌<◌, ◌^◌, length};
    ghost use Rattle.mm_shared.specs.Steps.{IsAtRest};
    ghost use Rattle.mm_shared.specs.Views.{PortsView, origin};

    ghost Value = { PortsView };

    ghost view = { λ p. record {
      of = origin p.seat.table_id p.seat.me.0.states;
      first = p.seat.me.0.first;
      lists = p.seat.me.0.lists;
    } };

    ghost invariant = { λ p. IsAtRest p.seat.me × (p.first ≡ p.seat.me.0.first)
        × (p.first + length p.seat.me.0.lists < 2 ^ 32) };
}
