//! The headline of a chart.
ghost use Rattle.std.specs.Prelude.{◌≡◌, ◌++◌, OnOk};
ghost use Rattle.mm_chart.specs.Svg.{printed};
ghost use Rattle.mm_chart.specs.Words.{headline};

use crate::layout::{HEADLINE_AT, MARGIN};
use crate::pen::Part::{Grouped, Said, Signed};
use crate::pen::{Style, label, push_label};
use crate::phrases::{IN_ORDER, NO_FEWER, ONLY_SHOWN, PLAN_LOSES, TEXT_SAYS};
use crate::picture::Picture;
use crate::rows::all_coming;
use mm_base::NoMemory;
use mm_cut::{Verdict, verdict_line};
use std::alloc::Global;

/// Writes the headline: what the verdict lets the chart say.
#[tactic(auto, unfolding(crate::specs::Words::headline_of))]
pub(crate) fn push_headline(
    alloc: Global,
    text: &mut Vec<u8>,
    picture: &Picture,
) -> Result<(), NoMemory>
    ensures { OnOk result (text.new.items ≡ text.old.items ++ printed (headline picture.now)) }
{
    let (of, all) = (Said(b" of "), Grouped(all_coming(picture)));
    let (x, y) = (MARGIN, HEADLINE_AT);
    match picture.verdict() {
        Verdict::Least(loss) =>
            label!(text; Headline x, y; Grouped(loss), of, all, Said(NO_FEWER))?,
        Verdict::LeastInOrder(loss) =>
            label!(text; Headline x, y; Grouped(loss), of, all, Said(IN_ORDER))?,
        Verdict::NotShown { loss, bound } => {
            label!(text; Doubtful x, y; Grouped(loss), of, all, Said(ONLY_SHOWN), Signed(bound))?;
        }
        Verdict::LossIs(loss) => {
            let said = Grouped(picture.said_loss());
            label!(text; Alarm x, y; Said(PLAN_LOSES), Grouped(loss), of, all, Said(TEXT_SAYS), said)?;
        }
        other => {
            let line = verdict_line(alloc, other)?;
            label!(text; Alarm x, y; Said(line.as_slice()))?;
        }
    }
    Ok(())
}
