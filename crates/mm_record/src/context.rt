//! What the recorders of a step share.

use mm_control::ControlTable;
use mm_shared::{SharedStores, StoreLabel};
use std::alloc::Global;
use std::sync::Wait;

/// The stores of a step and their labels, its routes, its number, and the moment at which all is offered.
#[derive(Drop)]
pub(crate) struct StepContext<'a, R: Wait> {
    pub(crate) rt: &'a R,
    pub(crate) alloc: Global,
    pub(crate) labels: &'a [StoreLabel],
    pub(crate) stores: &'a SharedStores,
    pub(crate) control: &'a ControlTable,
    pub(crate) step: u32,
    pub(crate) moment: u64,
}
