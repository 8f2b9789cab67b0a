//! Laws on the least losses of problems, over their definitions alone.
ghost use Rattle.mm_sensitivity.specs.Worth.{WiderWindows};

/// If a window is e blocks larger, and at most the largest, it saves the lesser of e and what the largest window saves.
pub fn wider_windows()
    ensures { WiderWindows }
{
    mm_cut::cuts_bound_losses();
    mm_cut::only_counted_helps()
}
