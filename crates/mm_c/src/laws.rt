//! That texts are fixed: what is told of one task is one text, whoever asks.
ghost use Rattle.mm_c.specs.Laws.{OneLine, OneChart, OneTable, OneWorthTable};

use mm_cut::sheet_verdicts_exclude;
use mm_plan::laws::one_text_one_sheet;

/// The line of the verdict on three texts, their chart, the table of their plan and the table of what each number is
/// worth are fixed, byte for byte: two texts of which `rudlayog_check`, `rudlayog_chart`, `rudlayog_table` or
/// `rudlayog_sensitivity` may tell are one. So they are those that the program prints, which is proved by the same
/// definitions.
pub fn texts_are_fixed()
    ensures line { OneLine }
    ensures chart { OneChart }
    ensures table { OneTable }
    ensures worths { OneWorthTable }
{
    one_text_one_sheet();
    sheet_verdicts_exclude();
}
