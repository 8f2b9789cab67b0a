//! The room that texts need.
ghost use Rattle.mm_told.specs.Rooms.{PlanTextsFit};

/// As many bytes as any plan text of the first or second form has at most.
pub const PLAN_ROOM: usize = 204_800;

/// Each plan text that can be read, and says nothing of the first stores, fits into a buffer of `PLAN_ROOM` octets.
pub fn plan_texts_fit()
    ensures { PlanTextsFit }
{}
