//! A mission in exact numbers.
ghost use Rattle.std.specs.Prelude.{◌≡◌, ◌+◌, ◌<◌, length};
ghost use Rattle.mm_utc.specs.declared.moment.TheConstants.{MOMENTS};

use mm_mission::Mission;
use mm_utc::Moment;

// A mission in exact numbers, and in which row each of its passes stands.
#[derive(Drop)]
pub(crate) struct Flown {
    pub(crate) begin: Moment,
    pub(crate) mission: Mission,
    pub(crate) places: Vec<usize>,
    ghost placed: { length places.items ≡ length mission.passes },
    ghost in_years: { begin + mission.lasts < MOMENTS },
}
