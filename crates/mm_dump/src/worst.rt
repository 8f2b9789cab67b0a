//! The worst of the causes for which the orders of workers broke.
ghost use Rattle.std.specs.Prelude.{◌≡◌};
ghost use Rattle.mm_dump.specs.Courses.{worse, worst_of};
ghost use Rattle.mm_dump.specs.Workers.{causes_of};

use crate::dumper::DumpWorker;
use crate::order::OrderBroken;

// The worse of two causes: out of memory, then a link that failed.
fn worse(one: Option<OrderBroken>, other: Option<OrderBroken>) -> Option<OrderBroken>
    ensures worse { result ≡ worse one other }
{
    match (one, other) {
        (None, _) => other,
        (Some(OrderBroken::NoMemory), _) | (_, None) => one,
        _ => other,
    }
}

/// The worst cause for which an order of a worker broke, where one did.
pub(crate) fn worst_broken(workers: &[DumpWorker]) -> Option<OrderBroken>
    ensures worst { result ≡ worst_of (causes_of workers.now) }
{
    let mut worst = None;
    for worker in workers {
        worst = worse(worst, worker.why);
    }
    worst
}
