//! What the words of a chart and the records of a table show, over their definitions alone.
ghost use Rattle.std.specs.Prelude.{◌≡◌, ◌++◌, codes};
ghost use Rattle.mm_chart.specs.Listed.{SumsAddUp, OnlyListedHelps};
ghost use Rattle.mm_chart.specs.Legend.{key, size_style, saved_style};
ghost use Rattle.mm_chart.specs.Table.{RecordsBalance};
ghost use Rattle.mm_chart.specs.declared.legend.TheConstants.{STAYS_KEY, LEAVES_KEY, WINDOW_KEY, USED_KEY, LOST_KEY};
ghost use Rattle.mm_chart.specs.declared.legend.TheConstants.{COUNTS_KEY, LAST_KEY, SENT_KEY, SIZE_KEY};
ghost use Rattle.mm_chart.specs.declared.legend.TheConstants.{SAVED_KEY};
ghost use Rattle.mm_chart.specs.declared.phrases.TheConstants.{AS_ENDS, AT_LEAST, BY_LIMITS, BY_WINDOWS, COME, FEWER};
ghost use Rattle.mm_chart.specs.declared.phrases.TheConstants.{FIRSTS, HELP, HIGHER, IN_ORDER, IN_STRETCHES, LARGER};
ghost use Rattle.mm_chart.specs.declared.phrases.TheConstants.{LOSE, MARKED, MARKED_LIMITS, MARKED_PASSES};
ghost use Rattle.mm_chart.specs.declared.phrases.TheConstants.{MARKED_WINDOWS, MARKED_WORTH, NONE_WIDER, NO_FEWER};
ghost use Rattle.mm_chart.specs.declared.phrases.TheConstants.{NO_HIGHER, NO_LIMITS, NO_OTHER, NO_WIDER, NO_WINDOWS};
ghost use Rattle.mm_chart.specs.declared.phrases.TheConstants.{ONE_HIGHER, ONE_WIDER, ONLY_SHOWN, PLAN_LOSES};
ghost use Rattle.mm_chart.specs.declared.phrases.TheConstants.{ONE_LARGER, SAVES, STAND, TEXT_SAYS, WHY, WIDER};
ghost use Rattle.mm_chart.specs.declared.series.Series.TheVariants as series;

/// The four numbers of the sum give the number that follows it: the loss that no plan goes below, or the cut's bound.
pub fn sums_add_up()
    ensures { SumsAddUp }
{}

/// Where the chart says that no plan loses fewer, only what its words list under 'What may help' can lower the loss:
/// whatever else changes, no plan that fits loses less.
pub fn only_listed_helps()
    ensures { OnlyListedHelps }
{
    mm_cut::only_counted_helps()
}

/// In each record of a table what stood in the store before the step and what arrives is what is lost, what is dumped
/// and what is held.
pub fn records_balance()
    ensures { RecordsBalance }
{}

/// What the headline says of a cut, and of a loss that the text says wrongly.
pub fn headline_words_are()
    ensures least { NO_FEWER.now ≡ codes " blocks are lost, and no plan loses fewer" }
    ensures in_order { IN_ORDER.now ≡ codes " blocks are lost, and no plan loses fewer in the setup's order" }
    ensures shown { ONLY_SHOWN.now ≡ codes " blocks are lost; this cut shows only that no plan loses fewer than " }
    ensures loses { PLAN_LOSES.now ≡ codes "The plan loses " }
    ensures says { TEXT_SAYS.now ≡ codes " blocks; its text says " }
{}

/// What the colours mean.
pub fn legend_words_are()
    ensures stays { STAYS_KEY.now
        ≡ key (series.Left 0) (codes "x='16' y='44'") (codes "x='32' y='54'") (codes "stays in the store") }
    ensures leaves { LEAVES_KEY.now
        ≡ key (series.LeftAndSent 0) (codes "x='170' y='44'") (codes "x='186' y='54'") (codes "leaves in this step") }
    ensures window { WINDOW_KEY.now
        ≡ key series.Window (codes "x='330' y='44'") (codes "x='346' y='54'") (codes "window") }
    ensures used { USED_KEY.now ≡ key series.Used (codes "x='420' y='44'") (codes "x='436' y='54'") (codes "used") }
    ensures lost { LOST_KEY.now ≡ key (series.Lost 0) (codes "x='510' y='44'") (codes "x='526' y='54'")
        (codes "lost in this step (one scale for all stores)") }
    ensures counts { COUNTS_KEY.now
        ≡ key series.WindowCounts (codes "x='16' y='62'") (codes "x='32' y='72'") (codes "counts in the cut") }
    ensures last { LAST_KEY.now ≡ key (series.Last 0) (codes "x='170' y='62'") (codes "x='186' y='72'")
        (codes "last step of a stretch: the size of the store counts") }
    ensures sent { SENT_KEY.now ≡ key (series.Sent 0) (codes "x='510' y='62'") (codes "x='526' y='72'")
        (codes "sent on a channel with a limit") }
    ensures size { SIZE_KEY.now ≡ size_style
        ++ key (series.Size 0) (codes "x='810' y='44'") (codes "x='826' y='54'")
        (codes "size of the store in this step") }
    ensures saved { SAVED_KEY.now ≡ saved_style
        ++ key series.Worth (codes "x='730' y='62'") (codes "x='746' y='72'")
        (codes "saved by a wider window or a higher limit (one scale)") }
{}

/// The words of the sum, around its numbers.
pub fn sum_words_are()
    ensures heading { WHY.now ≡ codes "Why no plan loses fewer than " }
    ensures stretches { IN_STRETCHES.now ≡ codes "In the shaded stretches " }
    ensures come { COME.now ≡ codes " blocks come, or stand there as step 1 begins." }
    ensures ends { AS_ENDS.now ≡ codes "As each stretch ends, at most " }
    ensures stand { STAND.now ≡ codes " of them stand in the stores: the sizes of the stores." }
    ensures windows { BY_WINDOWS.now ≡ codes " leave by the windows." }
    ensures no_windows { NO_WINDOWS.now ≡ codes "No open window counts." }
    ensures limits { BY_LIMITS.now ≡ codes " leave by the limits of the channels." }
    ensures no_limits { NO_LIMITS.now ≡ codes "No limit of a channel counts." }
    ensures follows { AT_LEAST.now ≡ codes ": at least that many blocks are lost, whatever is dumped." }
{}

/// The words of what may help.
pub fn helping_words_are()
    ensures heading { HELP.now
        ≡ codes "What may help: only these changes can lower the loss, and one of them alone may not be enough" }
    ensures windows { WIDER.now ≡ codes " and only there, a wider window." }
    ensures no_windows { NO_WIDER.now ≡ codes "No wider window." }
    ensures limits { HIGHER.now
        ≡ codes " and only there, a higher limit of a marked channel, or another channel for a shaded store." }
    ensures no_limits { NO_HIGHER.now ≡ codes "No higher limit, and no other channel for a store." }
    ensures stores { LARGER.now ≡ codes "Larger stores, and only these:" }
    ensures arrivals { FEWER.now
        ≡ codes "In the shaded stretches, and only there, fewer blocks that come, or stand there as step 1 begins." }
{}

/// What follows the number of steps that are too many to list.
pub fn marked_words_are()
    ensures windows { MARKED_WINDOWS.now ≡ codes " steps marked in the row of the windows," }
    ensures passes { MARKED_PASSES.now ≡ codes " steps marked in the row of the windows that have one," }
    ensures limits { MARKED_LIMITS.now ≡ codes " steps marked in the rows of the channels," }
    ensures worth { MARKED_WORTH.now ≡ codes " steps that have a bar above the windows" }
    ensures others { MARKED.now ≡ codes " steps," }
{}

/// The words of what one window, store or limit is worth.
pub fn worth_words_are()
    ensures most { SAVES.now ≡ codes "saves up to " }
    ensures heading { ONE_WIDER.now
        ≡ codes "What one wider window saves: a block for each block that it is wider, up to the number in brackets" }
    ensures stores { ONE_LARGER.now
        ≡ codes "What one larger store saves at most stands above its name: nothing where it saves none." }
    ensures limits { ONE_HIGHER.now
        ≡ codes "What one higher limit saves at most, for all steps or for one, stands above its channel's row: "
        ++ codes "nothing where it saves none." }
    ensures others { NO_OTHER.now ≡ codes " and in no other." }
    ensures none { NONE_WIDER.now ≡ codes "In no step: no wider window saves a block by itself." }
{}

/// The words of what the first stores lose.
pub fn firsts_words_are()
    ensures heading { FIRSTS.now
        ≡ codes "In the setup's order: what each store and those before it lose. No plan loses fewer of them." }
    ensures stores { LOSE.now ≡ codes "Up to each store:" }
{}
