//! Laws on what a mission's problem counts. The contract of each function is a law.
ghost use Rattle.std.specs.Prelude.{◌≡◌, ◌+◌, ◌^◌};
ghost use Rattle.mm_mission.specs.declared.limits.TheConstants.{MAX_TIME, MAX_RATE, MAX_PACKET, MAX_UNIT};
ghost use Rattle.mm_mission.specs.declared.limits.TheConstants.{MAX_PASSES, MAX_OBSERVATIONS};
ghost use Rattle.mm_mission.specs.Laws.{StepsGrow, RoomsAddUp, ArrivalsAddUp, ObservationsRise, DumpsLieInPasses};
ghost use Rattle.mm_mission.specs.Laws.{RatesAreKept, UnitsHaveCome, PacketsHaveCome, LossesInPackets, LateAreFew};

/// In each step the window, the arrivals and the limits are what the mission's counts grow by.
pub fn steps_grow()
    ensures { StepsGrow }
{}

/// Over steps that lie in a pass, windows and limits add up to what can be sent, but for less than one unit; from the
/// pass's begin on that is rounded down.
pub fn rooms_add_up()
    ensures { RoomsAddUp }
{}

/// Up to the end of each step, arrivals add up to what has come of a store's observations.
pub fn arrivals_add_up()
    ensures { ArrivalsAddUp }
{}

/// What has come of a store's observations is summed exactly and rounded up once, in units and in packets.
pub fn observations_rise()
    ensures { ObservationsRise }
{}

/// Each dump of a timeline lies in a pass.
pub fn dumps_lie_in_passes()
    ensures { DumpsLieInPasses }
{}

/// No more is sent in a pass than its rates allow, but for less than one unit; from the pass's begin on, no more.
pub fn rates_are_kept()
    ensures { RatesAreKept }
{}

/// No unit is sent before it has come or is being received.
pub fn units_have_come()
    ensures { UnitsHaveCome }
{}

/// No packet is sent before it has come or is being received.
pub fn packets_have_come()
    ensures { PacketsHaveCome }
{}

/// No more packets are lost than the plan's units have, but for those that come too late for their unit's dump.
pub fn losses_in_packets()
    ensures { LossesInPackets }
{}

/// Less than a unit comes too late for one step, and less is held above whole units as the mission begins.
pub fn late_are_few()
    ensures { LateAreFew }
{}

/// The numbers of the constants.
pub fn constants_are()
    ensures time { MAX_TIME + 1 ≡ 2 ^ 59 }
    ensures rate { MAX_RATE ≡ 2 ^ 50 }
    ensures packet { MAX_PACKET ≡ 2 ^ 10 }
    ensures unit { MAX_UNIT ≡ 2 ^ 20 }
    ensures passes { MAX_PASSES ≡ 2 ^ 8 }
    ensures observations { MAX_OBSERVATIONS ≡ 2 ^ 16 }
{}
