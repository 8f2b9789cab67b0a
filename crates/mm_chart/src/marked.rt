//! The steps that a series marks, in words.
ghost use Rattle.std.specs.Prelude.{◌≡◌, ◌<◌, ◌≤◌, ◌++◌, OnOk, flat_map, map, decimal, ◌∷◌};
ghost use Rattle.mm_base.specs.declared.limits.TheConstants.{MAX_STEPS};
ghost use Rattle.mm_problem.specs.Dumping.{steps};
ghost use Rattle.mm_chart.specs.declared.series.TheConstants.{AMOUNT_PLACES};
ghost use Rattle.mm_chart.specs.Series.{IsSeries, amount_at};
ghost use Rattle.mm_chart.specs.declared.layout.TheConstants.{MARGIN};
ghost use Rattle.mm_chart.specs.declared.pen.Style.TheVariants as style;
ghost use Rattle.mm_chart.specs.Svg.{part_text, joined, label, printed};
ghost use Rattle.mm_chart.specs.Words.{goes_on, ranges_of, before_step, after_range, range_part};
ghost use Rattle.mm_chart.specs.Words.{marks, marked_where, step_word, most_amount, in_steps, steps_line};

use crate::column::Column;
use crate::layout::{MARGIN, word_line};
use crate::pen::Part::{self, Grouped, Number, Said};
use crate::pen::{Pushed, Style, label, parts, push_closed, push_label, push_opened, push_parts};
use crate::phrases::{
    MANY_RANGES, MARKED, MARKED_LIMITS, MARKED_PASSES, MARKED_WINDOWS, MARKED_WORTH,
};
use crate::picture::{Picture, one_if};
use crate::series::Series;

// Whether a step is in the range of the step before.
fn goes_on(column: &Column<'_>, step: u32) -> bool
    requires first { 1 ≤ step }
    requires place { step < AMOUNT_PLACES }
    ensures { result ≡ goes_on column.now.picture.now column.now.series step }
{
    let before = column.amount_at(step - 1);
    let here = column.amount_at(step);
    match column.series {
        Series::Worth => here > 0 && before == here,
        _ => before > 0 && here > 0,
    }
}

// How many steps a series marks, and how many ranges they make.
#[tactic(auto, using(crate::proofs::Ranges::sum_by_next))]
fn marks_of(column: &Column<'_>) -> (u64, u64)
    ensures steps { result.0 ≡ marks column.now.picture.now column.now.series }
    ensures ranges { result.1 ≡ ranges_of column.now.picture.now column.now.series }
{
    let mut steps: u64 = 0;
    let mut ranges: u64 = 0;
    for step in 1..column.picture.problem().steps() + 1 {
        let here = column.amount_at(step) > 0;
        let before = goes_on(column, step);
        steps += one_if(here);
        ranges += one_if(here && !before);
    }
    (steps, ranges)
}

// What stands before the first step of a range, or the last.
fn before_step(goes_on: bool) -> &'static [u8]
    ensures { result.now ≡ before_step goes_on }
{
    if goes_on { b"&#8211;" } else { b" " }
}

// The last step of a range, or the only one, and what follows it.
#[tactic(auto, using(std::proofs::Common::append_assoc))]
fn push_range_end(text: &mut Vec<u8>, column: &Column<'_>, before: bool, step: u32) -> Pushed
    requires { step < AMOUNT_PLACES }
    ensures { OnOk result (text.new.items ≡ text.old.items ++ joined (before_step before ∷ decimal step
        ∷ after_range column.now.series (amount_at column.now.picture.now column.now.series step))) }
{
    let front = before_step(before);
    let amount = column.amount_at(step);
    match column.series {
        Series::Worth =>
            parts!(text; Said(front), Number(step), Said(b" ("), Grouped(amount), Said(b"),")),
        _ => parts!(text; Said(front), Number(step), Said(b",")),
    }
}

// What a step adds to the ranges: its number where it is the first or the last of one, and what follows the last.
#[tactic(auto, unfolding(crate::specs::Words::range_part))]
fn push_range_part(text: &mut Vec<u8>, column: &Column<'_>, step: u32) -> Pushed
    requires first { 1 ≤ step }
    requires last { step ≤ MAX_STEPS }
    ensures { OnOk result (text.new.items ≡ text.old.items
        ++ range_part column.now.picture.now column.now.series step) }
{
    if column.amount_at(step) == 0 {
        return Ok(());
    }
    let before = goes_on(column, step);
    if !goes_on(column, step + 1) {
        return push_range_end(text, column, before, step);
    }
    if before {
        return Ok(());
    }
    parts!(text; Said(b" "), Number(step))
}

// Where such steps are marked.
fn marked_where(series: Series) -> &'static [u8]
    ensures { result.now ≡ marked_where series }
{
    match series {
        Series::WindowCounts => MARKED_WINDOWS,
        Series::CountedWindow => MARKED_PASSES,
        Series::LimitsCount => MARKED_LIMITS,
        Series::Worth => MARKED_WORTH,
        _ => MARKED,
    }
}

// Before one step or several.
fn step_word(steps: u64) -> &'static [u8]
    ensures { result.now ≡ step_word steps }
{
    if steps == 1 { b"In step" } else { b"In steps" }
}

// The largest number, where the steps have numbers.
#[tactic(auto, unfolding(crate::specs::Words::most_amount))]
fn push_most_amount(text: &mut Vec<u8>, column: &Column<'_>) -> Pushed
    ensures { OnOk result (text.new.items ≡ text.old.items ++ most_amount column.now.picture.now column.now.series) }
{
    match column.series {
        Series::Worth => parts!(text; Said(b" (at most "), Grouped(column.most()), Said(b"),")),
        _ => Ok(()),
    }
}

// The steps as ranges, or their number where they are many ranges.
#[tactic(auto, using(crate::proofs::Ranges::drawing), unfolding(crate::specs::Words::in_steps))]
fn push_in_steps(text: &mut Vec<u8>, column: &Column<'_>) -> Pushed
    ensures { OnOk result (text.new.items ≡ text.old.items ++ in_steps column.now.picture.now column.now.series) }
{
    let (steps, ranges) = marks_of(column);
    if ranges > MANY_RANGES {
        parts!(text; Said(b"In the "), Grouped(steps), Said(marked_where(column.series)))?;
        return push_most_amount(text, column);
    }
    parts!(text; Said(step_word(steps)))?;
    for step in 1..column.picture.problem().steps() + 1 {
        push_range_part(text, column, step)?;
    }
    Ok(())
}

// The steps of a series that has some, and then these words.
#[tactic(auto, using(std::proofs::Common::append_assoc), unfolding(crate::specs::Svg::label, crate::specs::Svg::joined))]
fn push_steps_words(text: &mut Vec<u8>, column: &Column<'_>, y: u32, words: &[Part<'_>]) -> Pushed
    ensures { OnOk result (text.new.items ≡ text.old.items ++ label style.Plain MARGIN y
        (in_steps column.now.picture.now column.now.series ∷ map part_text words.now)) }
{
    push_opened(text, Style::Plain, MARGIN, y)?;
    push_in_steps(text, column)?;
    push_parts(text, words)?;
    push_closed(text)
}

// A line on the steps of a series, or on that there are none.
#[tactic(auto, unfolding(crate::specs::Words::steps_line))]
pub(crate) fn push_steps_line(
    text: &mut Vec<u8>,
    picture: &Picture,
    series: Series,
    line: u32,
    words: &[Part<'_>],
    none: &[u8],
) -> Pushed
    requires series { IsSeries picture.now series }
    requires line { line ≤ 18 }
    ensures { OnOk result (text.new.items ≡ text.old.items
        ++ printed (steps_line picture.now series line (map part_text words.now) none.now)) }
{
    let y = word_line(picture.problem(), line);
    let column = Column::new(picture, series);
    if column.total() == 0 {
        return label!(text; Plain MARGIN, y; Said(none));
    }
    push_steps_words(text, &column, y, words)
}
