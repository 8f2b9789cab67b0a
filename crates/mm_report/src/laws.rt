//! The numbers of this crate's constants.
ghost use Rattle.std.specs.Prelude.{◌≡◌, ◌^◌};
ghost use Rattle.mm_report.specs.declared.cause.TheConstants.{LATEST_START, MAX_SOURCES};

/// The latest moment before the first step, in ticks, and the most sources of a run.
pub fn constants_are()
    ensures start { LATEST_START ≡ 2 ^ 63 }
    ensures sources { MAX_SOURCES ≡ 8 }
{}
