//! The dump orders of a step.
ghost use Rattle.std.specs.Prelude.{◌≡◌, ◌<◌, ◌≤◌, length, All, vec_capacity};
ghost use Rattle.mm_base.specs.declared.limits.TheConstants.{MAX_STORES};
ghost use Rattle.mm_plan.specs.Table.{amount};
ghost use Rattle.mm_carry.specs.Numbers.{orders_of};

use mm_dump::Order;
use mm_plan::Plan;

// Lists the orders of a step, for stores at these places, in place of those that were listed.
#[tactic(auto, using(crate::proofs::Ordered::order_more, crate::proofs::Ordered::order_none))]
pub(crate) fn list_orders(orders: &mut Vec<Order>, plan: &Plan, places: &[usize], step: u32)
    requires room { length places.now ≤ vec_capacity orders.old }
    requires stores { length places.now ≡ plan.now.stores }
    requires step { (1 ≤ step) × (step ≤ plan.now.steps) }
    requires within { All (λ place. place < MAX_STORES) places.now }
    ensures orders { orders.new.items ≡ orders_of (amount plan.now) places.now step (length places.now) }
    ensures capacity { vec_capacity orders.new ≡ vec_capacity orders.old }
{
    orders.clear();
    for (store, place) in places.iter().enumerate() {
        let amount = plan.amount(store, step);
        if amount > 0 {
            let place = *place as u32;
            orders.push_reserved(Order { place, amount });
        }
    }
}
