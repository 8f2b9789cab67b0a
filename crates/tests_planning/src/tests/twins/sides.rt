//! Both solvers compared with the least cut, on tiny networks.
ghost use Rattle.std.specs.Prelude.{◌<◌};

use crate::tests::flows::{ArcRow, built, same_value};
use crate::tests::samples::{Runtime, holds, next_below};
use mm_exhaustive::{MAX_TRIED, cut_below};

// The least capacity of a cut between node 0 and node 1 is the value of both solvers.
fn least_capacity(rt: &impl Runtime, nodes: u32, arcs: &[ArcRow]) -> Option<u64> {
    let network = built(rt, nodes, arcs);
    assert!(rt; network.node_count() > 1 && network.node_count() <= MAX_TRIED);
    let least = same_value(rt, &network, 0, 1);
    assert!(rt; cut_below(&network, 0, 1, least).is_none());
    if let Some(least) = least {
        let more = Some(least.saturating_add(1));
        assert!(rt; cut_below(&network, 0, 1, more).is_some());
    }
    least
}

// Networks with a number of nodes and these arcs, and the least capacity of a cut.
static COUNTED: [(u32, &[ArcRow], Option<u64>); 5] = wanted! {
    // No arc leads out of the source.
    2, &[] => Some(0);
    // An unlimited arc leaves each side without node 2, so the cut is 4 out of node 2 and 1 out of the source.
    3, &[(0, 2, None), (2, 1, Some(4)), (0, 1, Some(1))] => Some(5);
    // Arcs into the side do not count: 3 out of the source, and not the 9 back into it.
    3, &[(0, 2, Some(3)), (2, 0, Some(9)), (2, 1, Some(8))] => Some(3);
    // Node 2 alone with the source: 2 + 4 + 1, less than the 9 out of the source and the 11 into the sink.
    4, &[(0, 2, Some(7)), (0, 3, Some(2)), (2, 3, Some(4)), (2, 1, Some(1)), (3, 1, Some(10))]
    => Some(7);
    // Unlimited arcs lead to the sink.
    3, &[(0, 2, None), (2, 1, None), (0, 1, Some(1))] => None;
};

#[test]
fn cuts_counted_by_hand(rt: HostRuntime) {
    for (nodes, arcs, least) in &COUNTED {
        let found = least_capacity(&rt, *nodes, arcs);
        holds(&rt, found == *least, "the nodes");
    }
}

// Three random arcs for each node. One arc in 20 is unlimited.
fn made_arcs(rt: &impl Runtime, nodes: u32, state: &mut u32) -> Vec<ArcRow>
    requires { 0 < nodes }
{
    let mut arcs: Vec<ArcRow> = Vec::new(rt.alloc());
    for _ in 0..nodes.saturating_mul(3) {
        let (from, to) = (next_below(state, nodes), next_below(state, nodes));
        let most = next_below(state, 20);
        let arc = (from, to, (most > 0).then_some(u64::from(most)));
        arcs.push(arc).expect(rt, "memory");
    }
    arcs
}

#[test]
fn solvers_find_the_least_of_all_cuts(rt: HostRuntime) {
    let mut state = 7;
    let mut some = 0_u32;
    for number in 0..120u32 {
        let nodes = 2 + number % 7;
        let arcs = made_arcs(&rt, nodes, &mut state);
        let least = least_capacity(&rt, nodes, &arcs);
        some = some.saturating_add(u32::from(least > Some(0)));
    }
    assert!(rt; some > 60);
}
