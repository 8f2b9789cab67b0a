//! What a step brought to a store, and what steps brought in all.
ghost use Rattle.std.specs.Prelude.{◌≡◌, ◌+◌, ◌^◌, ◌<◌};
ghost use Rattle.mm_report.specs.Report.{totals_in};

/// What a step of a run brought to a store, in blocks.
#[derive(Clone, Copy, Debug, PartialEq, Eq)]
pub struct StepCounts {
    /// What the forecast says of the step.
    pub forecast: u64,
    /// The packets that came for the store.
    pub arrived: u64,
    /// The packets that were lost, the one that came or one that was overwritten.
    pub lost: u64,
    /// The packets that were deleted after they were sent.
    pub dumped: u64,
    /// The packets that the store holds as the step ends.
    pub held: u64,
}

/// What steps brought to all stores, in blocks. It has room for every sum of counts.
#[derive(Clone, Copy, Debug, PartialEq, Eq)]
pub struct Totals {
    pub arrived: u128,
    pub lost: u128,
    pub dumped: u128,
    /// The packets that the stores hold as the last step ends.
    pub held: u128,
}

// A sum and one number more, where there is room for it.
fn more(sum: u128, number: u64) -> u128
    requires { sum < 2 ^ 127 }
    ensures sum { result ≡ sum + number }
    ensures bound { result < sum + 2 ^ 64 }
{
    sum + u128::from(number)
}

// The sums of these counts.
#[tactic(auto, using(std::proofs::lemmas::List::Sums::sum_by_more))]
pub(crate) fn totals_in(all: &[StepCounts]) -> Totals
    ensures { result ≡ totals_in all.now }
{
    let mut totals = Totals {
        arrived: 0,
        lost: 0,
        dumped: 0,
        held: 0,
    };
    for counts in all {
        totals = Totals {
            arrived: more(totals.arrived, counts.arrived),
            lost: more(totals.lost, counts.lost),
            dumped: more(totals.dumped, counts.dumped),
            held: more(totals.held, counts.held),
        };
    }
    totals
}
