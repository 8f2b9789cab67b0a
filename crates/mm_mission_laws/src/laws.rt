//! The contract of each function is a law.
ghost use Rattle.mm_mission_laws.specs.Lost.{NoTimelineLosesLess};
ghost use Rattle.mm_mission_laws.specs.Room.{UnitsHaveRoom, PacketsHaveRoom};

/// At each time in a step, what a store held as the mission began and what has come by then, less what has been sent,
/// is at most its size and what the plan has lost as the step ends. So no store is ever fuller than its size, but for
/// what the plan loses.
pub fn units_have_room()
    ensures { UnitsHaveRoom }
{}

/// The same in packets.
pub fn packets_have_room()
    ensures { PacketsHaveRoom }
{}

/// No timeline, in whatever steps, loses less than the bound of a cut, but for roundings.
pub fn no_timeline_loses_less()
    ensures { NoTimelineLosesLess }
{}
