//! Laws on every network, by any solver. The clause of each function is a law; its body is empty.
ghost use Rattle.std.specs.Prelude.{◌≡◌, ◌^◌};
ghost use Rattle.mm_flow.specs.declared.limits.TheConstants.{MAX_NODES, MAX_ARCS, MAX_CAPACITY};
ghost use Rattle.mm_flow.specs.Laws.{NetFlowIsTheValue, ValueIsWithinEachCut, SolutionIsBest};

/// For each side with the source and without the sink, what leaves the side is what enters it plus the value of the
/// flow (Cormen et al., "Introduction to Algorithms", flow across a cut).
pub fn net_flow_is_the_value()
    ensures { NetFlowIsTheValue }
{}

/// The value of any flow is at most the capacity of any cut (Ford and Fulkerson, 1956).
pub fn value_is_within_each_cut()
    ensures { ValueIsWithinEachCut }
{}

/// A solution's flow has the greatest value and its side the least capacity: maximum flow, minimum cut
/// (Ford and Fulkerson, 1956).
pub fn solution_is_best()
    ensures { SolutionIsBest }
{}

/// The limits of a network, as numbers.
pub fn constants_are()
    ensures nodes { MAX_NODES ≡ 65536 }
    ensures arcs { MAX_ARCS ≡ 262144 }
    ensures capacity { MAX_CAPACITY ≡ 2 ^ 40 }
{}
