//! The laws of cuts and verdicts, over their definitions alone.
ghost use Rattle.mm_cut.specs.Changes.{CutsCountAlike, OnlyCountedHelps};
ghost use Rattle.mm_cut.specs.Cuts.{CutsBoundLosses, FirstCutsBoundLosses, CutsAreFew};
ghost use Rattle.mm_cut.specs.Verdicts.{VerdictsExclude, SheetVerdictsExclude};

/// No plan that fits loses less than the bound of any cut.
pub fn cuts_bound_losses()
    ensures { CutsBoundLosses }
{}

/// No plan that fits loses less of the first stores than the bound of any cut whose stretches are theirs.
pub fn first_cuts_bound_losses()
    ensures { FirstCutsBoundLosses }
{}

/// Of one plan, cut, printed loss and printed bound no two verdicts hold.
pub fn verdicts_exclude()
    ensures { VerdictsExclude }
{}

/// Of one sheet no two verdicts hold.
pub fn sheet_verdicts_exclude()
    ensures { SheetVerdictsExclude }
{}

/// Two problems that agree in all that a cut counts give it the same bound.
pub fn cuts_count_alike()
    ensures { CutsCountAlike }
{}

/// Only what a cut counts can lower its bound: the arrivals of its stretches and their stores' sizes, the windows of the
/// steps that count by them, and in the steps that count by channels the limits of the channels concerned. No plan that
/// fits a problem which helps nowhere there loses less than the bound.
pub fn only_counted_helps()
    ensures { OnlyCountedHelps }
{}

/// A cut has no more stretches than there may be stores and steps, and no more counted steps than the problem has steps.
pub fn cuts_are_few()
    ensures { CutsAreFew }
{}
