//! Laws of runs, over the definitions alone, and the number of this crate's constant.
ghost use Rattle.std.specs.Prelude.{◌≡◌};
ghost use Rattle.mm_carry.specs.Laws.{RunsLoseAsPlanned, RunsLoseThePlansLoss, RunsLoseNoPacketUncounted};
ghost use Rattle.mm_carry.specs.Laws.{HalvesMakeStepRuns, StepRunsKeepStores, WholeStepsFit, DrawsMeetNoRefusal};
ghost use Rattle.mm_carry.specs.Halts.{BrokenStepsAreLogs, StepsWithoutStopAreWhole};
ghost use Rattle.mm_carry.specs.Following.{RunsSendOnce, StepsAreStoreRuns, HaltedRunsAreStoreRuns};
ghost use Rattle.mm_carry.specs.GoingOn.{HaltedRunsGoOn, HaltedRunsHaveRests, RunsFollow};
ghost use Rattle.mm_carry.specs.declared.readiness.TheConstants.{MAX_LINKS};

use mm_desk::laws::events_keep_a_state;
use mm_dump::Link;
use mm_dump::laws::broken_orders_change_nothing;

/// The most links of a run.
pub fn constants_are()
    ensures links { MAX_LINKS ≡ 4 }
{}

/// Step runs of whole orders, each from the state that the one before left, lose and leave what the plan says, in every
/// store and step, whatever the order in which a step's offers were made, and whatever the kind of each store. What
/// comes in the problem is what was offered.
pub fn runs_lose_as_planned()
    ensures each { RunsLoseAsPlanned }
    ensures total { RunsLoseThePlansLoss }
{
    events_keep_a_state();
}

/// In step runs of whole orders no packet is lost uncounted, none is invented and none is given twice: of each store,
/// what stood in it and what was offered to it is what its orders were given, what it holds, and the lost, as many as
/// its counter says. What its orders were given has rising times over all steps. A bounded store lost packets that
/// found it full, and a circular store packets that are older than all that it holds at the end.
pub fn runs_lose_no_packet_uncounted()
    ensures law { RunsLoseNoPacketUncounted }
{
    events_keep_a_state();
}

/// Offers that a store takes, in any order that keeps each recorder's own, and then a dump make a step run.
pub fn halves_make_step_runs()
    ensures law { HalvesMakeStepRuns }
{}

/// A step run leaves a sound store sound, with its storage and its retrieval as they were; its counter of offers and
/// its last storage time move by no more than the offers made.
pub fn step_runs_keep_stores()
    ensures law { StepRunsKeepStores }
{
    events_keep_a_state();
}

/// In each whole step of a run no more was sent than the window, and of each channel no more than its limit.
pub fn whole_steps_fit()
    ensures law { WholeStepsFit }
{}

/// Where the plan fits a step's window, draws of one block for each packet that an order was given are never refused,
/// whatever their order. No run draws: this is for a caller that keeps a pass book.
pub fn draws_meet_no_refusal()
    ensures law { DrawsMeetNoRefusal }
{}

/// A step, broken off or whole, took each store by one legal log: offers of what the sources gave, in an order that
/// keeps each source's own, and then at most one dump order, whole or broken.
pub fn broken_steps_are_logs<L: Link>()
    ensures logs { BrokenStepsAreLogs L.sent L.failed }
{}

/// A step without a stop is whole: each store had a step run of all that the sources gave and of its whole order,
/// and the links sent what the orders were given.
#[tactic(auto, using(crate::proofs::Parts::whole_step))]
pub fn steps_without_stop_are_whole<L: Link>()
    ensures whole { StepsWithoutStopAreWhole L.sent L.failed }
{}

/// Over runs that follow one another over one store, whatever else is asked of it between them, what whole orders sent
/// has rising times: none of it is sent twice. All that a run sends is later than what whole orders of earlier runs
/// sent: what it sends again, only broken orders of earlier runs had sent.
#[tactic(auto, using(crate::proofs::StoreRuns::send_once))]
pub fn whole_orders_send_once()
    ensures law { RunsSendOnce }
{}

/// What a run did with a store is such a run: what its whole orders sent has left the store, and what an order that
/// broke sent after that stands there as the oldest packets. The second law is of a run that was halted in a step.
pub fn runs_are_store_runs<L: Link>()
    ensures steps { StepsAreStoreRuns L.sent L.failed }
    ensures halted { HaltedRunsAreStoreRuns L.sent L.failed }
{
    broken_orders_change_nothing();
}

/// After a halt the memory passes all tests before a run of the rest, whose start volumes are what its stores hold: the
/// halted step with what is left of it and the steps after it, or the later steps alone (`rest` of a `Problem`). A run
/// over the stores that another run left follows it.
pub fn halted_runs_go_on<L: Link>()
    ensures on { HaltedRunsGoOn L.sent L.failed }
    ensures rests { HaltedRunsHaveRests L.sent L.failed }
    ensures follow { RunsFollow }
{
    broken_orders_change_nothing();
}
