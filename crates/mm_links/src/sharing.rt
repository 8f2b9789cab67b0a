//! How what a plan sends is shared out among links.
ghost use Rattle.std.specs.Prelude.{◌≤◌, length, IfOk};
ghost use Rattle.mm_links.specs.Shared.{KeepsRooms, IsShared};

use crate::limits::MAX_LINKS;
use crate::link::Link;
use crate::network::network;
use mm_base::{CHANNELS, NoMemory};
use mm_flow::{Fault, solve};
use std::alloc::Global;

/// How what is sent of each channel is shared out among the links, by a maximum flow from channels to links: in units,
/// the channels of the first link, then those of the next, and so on.
pub fn share(alloc: Global, links: &[Link], amounts: &[u64; CHANNELS]) -> Result<Vec<u64>, NoMemory>
    requires few { length links.now ≤ MAX_LINKS }
    requires kept { KeepsRooms links.now amounts.now }
    ensures shared { IfOk result (λ table. IsShared links.now amounts.now table.items) }
{
    let network = network(alloc, links, amounts)?;
    let source = (CHANNELS + links.len()) as u32;
    match solve(alloc, &network, source, source + 1) {
        Ok(solved) => {
            let mut flow = solved.flow;
            flow.truncate(links.len() * CHANNELS);
            Ok(flow)
        }
        Err(Fault::NoMemory) => Err(NoMemory),
        Err(Fault::Unbounded) => unreachable!(),
        Err(Fault::SameEnds) => unreachable!(),
    }
}
