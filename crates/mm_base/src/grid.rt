//! Tables kept as one list: the steps in order, and in each step the stores in order.
ghost use Rattle.std.specs.Prelude.{◌≡◌, ◌<◌, ◌≤◌, ◌^◌};
ghost use Rattle.mm_base.specs.Grid.{grid_place};

/// The place in the list of the number for a store in a step, where each step has numbers for `stores` stores. Stores
/// and places count from 0, steps from 1.
pub fn place(stores: usize, step: u32, store: usize) -> usize
    requires first { 1 ≤ step }
    requires fits { grid_place stores step store < 2 ^ 64 }
    ensures { result ≡ grid_place stores step store }
{
    (step as usize - 1) * stores + store
}
