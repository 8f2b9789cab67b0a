//! The last line of a run for causes that no files of the program meet, compared in the proof.
ghost use Rattle.std.specs.Prelude.{◌≡◌, ◌++◌, ◌∷◌, [], codes};
ghost use Rattle.mm_base.specs.Characters.{line_feed};
ghost use Rattle.mm_run.specs.Ending.{end_line};
ghost use Rattle.mm_report.specs.declared.cause.Cause.TheVariants.{PlanShape, NotReady, SizeDiffers, ClockTooLate, ChannelDiffers, NoMemory, LogMismatch};

/// The lines of these causes: a run is proved to print `end_line` of its cause. The store is C, whose identifier is seen as its field of
/// eight octets.
pub fn last_lines_of_runs()
    ensures plan_shape { end_line PlanShape ≡ codes "refused 38 PlanShape" ++ line_feed ∷ [] }
    ensures not_ready { end_line (NotReady (codes "C       ")) ≡ codes "refused 39 NotReady store C" ++ line_feed ∷ [] }
    ensures size_differs { end_line (SizeDiffers (codes "C       ")) ≡ codes "refused 40 SizeDiffers store C" ++ line_feed ∷ [] }
    ensures clock_too_late { end_line ClockTooLate ≡ codes "refused 42 ClockTooLate" ++ line_feed ∷ [] }
    ensures no_memory { end_line (NoMemory 3) ≡ codes "halted step 3 45 NoMemory" ++ line_feed ∷ [] }
    ensures log_mismatch { end_line (LogMismatch 3) ≡ codes "halted step 3 47 LogMismatch" ++ line_feed ∷ [] }
    ensures channel_differs { end_line (ChannelDiffers (codes "C       ")) ≡ codes "refused 53 ChannelDiffers store C" ++ line_feed ∷ [] }
{}
