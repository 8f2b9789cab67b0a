//! The planner: a dump plan that loses least, and the cut that shows that no plan loses less.
#![tactic(auto)]

mod arcs;
mod building;
mod by_flow;
mod certified;
mod goal;
mod laws;
mod nodes;
mod planner;
mod runs;
mod sheets;
mod taken;
mod texts;
mod way;

pub use building::network_of;
pub use by_flow::{plan_by_flow, plan_in_order_by_flow};
pub use goal::Goal;
pub use laws::{plans_check_least, plans_check_least_in_order, solutions_plan};
pub use mm_base::NoMemory;
pub use mm_cut::{Fault, check_bytes};
pub use nodes::{SINK, SOURCE};
pub use planner::{Planned, plan, plan_in_order};
pub use sheets::{sheet, sheet_in_order, store_ids};
pub use texts::{
    PrintedPlan, plan_bytes, plan_in_order_bytes, print_plan, print_plan_for, print_plan_in_order,
};
