//! Parts of the text of a picture: Scalable Vector Graphics (SVG) 1.1.
ghost use Rattle.std.specs.Prelude.{◌≡◌, ◌+◌, ◌-◌, ◌*◌, ◌<◌, ◌≤◌, ◌++◌, OnOk, length, drop, flat_map, map, ◌^◌};
ghost use Rattle.mm_base.specs.declared.limits.TheConstants.{MAX_STEPS};
ghost use Rattle.mm_base.specs.Id.{id_text};
ghost use Rattle.mm_problem.specs.Dumping.{steps};
ghost use Rattle.mm_chart.specs.Series.{IsSeries, whole_of};
ghost use Rattle.mm_chart.specs.declared.series.TheConstants.{AMOUNT_PLACES};
ghost use Rattle.mm_chart.specs.Layout.{IsPlaced};
ghost use Rattle.mm_chart.specs.Svg.{said, separated, grouped, signed_grouped, style_name, opened, closed, escaped};
ghost use Rattle.mm_chart.specs.Svg.{part_text, joined, label, height_of, rise, bar_line, step_outline, series_name};
ghost use Rattle.mm_chart.specs.Svg.{path_begun, profile, printed, Frame, Guide};

use crate::column::Column;
use crate::layout::{base_of, edge_at, room_of, step_width};
use crate::pen::Part::{Number, Said};
use crate::picture::{Picture, scaled};
use crate::series::Series;
use itoa::Buffer;
use mm_base::StoreId;
use mm_base::numbers::{push_number, write_number};
use std::alloc::AllocError;

/// What a function answers that writes: an error only where memory is refused.
pub(crate) type Pushed = Result<(), AllocError>;

/// How words look.
#[derive(Clone, Copy)]
pub enum Style {
    Headline,
    /// A headline where less is shown.
    Doubtful,
    /// A headline that warns.
    Alarm,
    /// The name of a row.
    Name,
    /// What is said beside a name.
    Side,
    /// What is said at the right of a row.
    Total,
    /// What a store loses.
    Loss,
    Tick,
    Heading,
    Plain,
}

impl Style {
    fn name(self) -> &'static [u8]
        ensures { result.now ≡ style_name self }
    {
        match self {
            Style::Headline => b"h",
            Style::Doubtful => b"m",
            Style::Alarm => b"a",
            Style::Name => b"n",
            Style::Side => b"s",
            Style::Total => b"t",
            Style::Loss => b"r",
            Style::Tick => b"k",
            Style::Heading => b"b",
            Style::Plain => b"w",
        }
    }
}

// Writes fixed words.
#[tactic(auto, unfolding(crate::specs::Svg::said))]
pub(crate) fn push_said(text: &mut Vec<u8>, words: &[u8]) -> Pushed
    ensures { OnOk result (text.new.items ≡ text.old.items ++ said words.now) }
{
    text.extend_from_slice(words)
}

// Digits with a comma after each that has a whole number of thousands after it.
fn push_separated(text: &mut Vec<u8>, digits: &[u8]) -> Pushed
    ensures { OnOk result (text.new.items ≡ text.old.items ++ separated digits.now) }
{
    let mut rest = digits;
    while let [digit, after @ ..] = rest {
        text.push(*digit)?;
        if !after.is_empty() && after.len() % 3 == 0 {
            text.push(b',')?;
        }
        rest = after;
    }
    Ok(())
}

/// Writes a number with its thousands separated.
pub fn push_grouped(text: &mut Vec<u8>, number: u64) -> Pushed
    ensures { OnOk result (text.new.items ≡ text.old.items ++ grouped number) }
{
    let mut buffer = Buffer::new();
    push_separated(text, buffer.format(number).as_bytes())
}

/// Writes a number that may be below 0.
#[tactic(auto, using(std::proofs::Common::append_assoc))]
pub fn push_signed_grouped(text: &mut Vec<u8>, number: i64) -> Pushed
    ensures { OnOk result (text.new.items ≡ text.old.items ++ signed_grouped number) }
{
    if number < 0 {
        push_said(text, b"&#8722;")?;
    }
    push_grouped(text, number.unsigned_abs())
}

// Writes an identifier. None of its characters needs to be escaped.
#[tactic(auto, using(crate::proofs::Numbers::escaped_id))]
pub(crate) fn push_id(text: &mut Vec<u8>, id: &StoreId) -> Pushed
    ensures { OnOk result (text.new.items ≡ text.old.items ++ escaped (id_text id.now)) }
{
    // its field is that of an identifier
    let _field = id.field();
    text.extend_from_slice(id.text())
}

/// A part of a text.
#[derive(Clone, Copy)]
pub enum Part<'a> {
    Said(&'a [u8]),
    /// The identifier of a store.
    Name(&'a StoreId),
    Number(u32),
    /// A number with its thousands separated.
    Grouped(u64),
    /// A number that may be below 0, with its thousands separated.
    Signed(i64),
}

fn push_part(text: &mut Vec<u8>, part: &Part<'_>) -> Pushed
    ensures { OnOk result (text.new.items ≡ text.old.items ++ part_text part.now) }
{
    match *part {
        Said(words) => text.extend_from_slice(words),
        Part::Name(id) => push_id(text, id),
        Number(number) => push_number(text, u64::from(number)),
        Part::Grouped(number) => push_grouped(text, number),
        Part::Signed(number) => push_signed_grouped(text, number),
    }
}

/// Writes parts one after another.
#[tactic(auto, using(std::proofs::Common::append_assoc), unfolding(crate::specs::Svg::joined))]
pub fn push_parts(text: &mut Vec<u8>, parts: &[Part<'_>]) -> Pushed
    ensures { OnOk result (text.new.items ≡ text.old.items ++ joined (map part_text parts.now)) }
{
    let mut rest = parts;
    while let [part, after @ ..] = rest {
        push_part(text, part)?;
        rest = after;
    }
    Ok(())
}

/// Writes these parts one after another.
macro_rules! parts {
    ($text:expr; $($part:expr),+) => {
        push_parts($text, &[$($part),+])
    };
}

/// Writes words in a style at a place, part by part.
macro_rules! label {
    ($text:expr; $style:ident $x:expr, $y:expr; $($part:expr),+) => {
        push_label($text, Style::$style, $x, $y, &[$($part),+])
    };
}

pub(crate) use label;
pub(crate) use parts;

// Begins words at a place.
#[tactic(auto, using(std::proofs::Common::append_assoc), unfolding(crate::specs::Svg::opened))]
pub(crate) fn push_opened(text: &mut Vec<u8>, style: Style, x: u32, y: u32) -> Pushed
    ensures { OnOk result (text.new.items ≡ text.old.items ++ opened style x y) }
{
    push_said(text, b"<text class='")?;
    text.extend_from_slice(style.name())?;
    parts!(text; Said(b"' x='"), Number(x), Said(b"' y='"), Number(y), Said(b"'>"))
}

// Ends these words.
#[tactic(auto, unfolding(crate::specs::Svg::closed))]
pub(crate) fn push_closed(text: &mut Vec<u8>) -> Pushed
    ensures { OnOk result (text.new.items ≡ text.old.items ++ closed) }
{
    push_said(text, b"</text>\n")
}

/// A frame.
#[tactic(auto, unfolding(crate::specs::Svg::framed))]
pub(crate) fn push_frame(text: &mut Vec<u8>, x: u32, y: u32, width: u32, height: u32) -> Pushed
    ensures { OnOk result (text.new.items ≡ text.old.items ++ printed (Frame x y width height)) }
{
    parts!(text; Said(b"<rect class='o' x='"), Number(x), Said(b"' y='"), Number(y), Said(b"' width='"), Number(width),
        Said(b"' height='"), Number(height), Said(b"'/>\n"))
}

/// A line from a place down to another line.
#[tactic(auto, unfolding(crate::specs::Svg::guided))]
pub(crate) fn push_guide(text: &mut Vec<u8>, x: u32, y: u32, to: u32) -> Pushed
    ensures { OnOk result (text.new.items ≡ text.old.items ++ printed (Guide x y to)) }
{
    parts!(text; Said(b"<path class='i' d='M"), Number(x), Said(b" "), Number(y), Said(b"V"), Number(to),
        Said(b"'/>\n"))
}

/// Words at a place.
#[tactic(auto, using(std::proofs::Common::append_assoc), unfolding(crate::specs::Svg::label))]
pub(crate) fn push_label(
    text: &mut Vec<u8>,
    style: Style,
    x: u32,
    y: u32,
    parts: &[Part<'_>],
) -> Pushed
    ensures { OnOk result (text.new.items ≡ text.old.items ++ label style x y (map part_text parts.now)) }
{
    push_opened(text, style, x, y)?;
    push_parts(text, parts)?;
    push_closed(text)
}

// How high a step of a series is drawn.
fn height_of(column: &Column<'_>, whole: u64, step: u32) -> u32
    requires place { step < AMOUNT_PLACES }
    requires whole { whole ≤ 2 ^ 40 }
    ensures height { result ≡ height_of column.now.picture.now column.now.series whole step }
    ensures most { result ≤ 40 }
{
    scaled(room_of(column.series), whole, column.amount_at(step))
}

// The octets that a step of an outline takes at most.
const STEP_ROOM: usize = 48;

// A step of an outline: its edges, the line on which it stands, its height and the height before it.
#[derive(Clone, Copy)]
struct Bar {
    left: u32,
    right: u32,
    base: u32,
    before: u32,
    here: u32,
}

// Writes what leads up or down to the height of a step so that it ends at a place, and answers where it starts.
#[tactic(auto, using(std::proofs::Common::append_assoc), unfolding(crate::specs::Svg::said))]
fn write_rise(octets: &mut [u8], end: usize, bar: Bar) -> usize
    requires room { 33 ≤ end }
    requires within { end ≤ length octets.old }
    requires high { bar.here ≤ bar.base }
    ensures written { drop result octets.new ≡ rise bar.left bar.base bar.before bar.here ++ drop end octets.old }
    ensures most { result ≤ end }
{
    if bar.here == bar.before {
        return end;
    }
    let up = write_number(octets, end, b'V', bar.base - bar.here);
    if bar.before != 0 {
        return up;
    }
    let base = write_number(octets, up, b' ', bar.base);
    write_number(octets, base, b'M', bar.left)
}

// A step of a height after one of another, in one piece.
#[tactic(auto, using(crate::proofs::Ranges::placing), unfolding(crate::specs::Svg::said, crate::specs::Svg::bar_line))]
fn push_bar(text: &mut Vec<u8>, bar: Bar) -> Pushed
    requires { bar.here ≤ bar.base }
    ensures { OnOk result (text.new.items ≡ text.old.items
        ++ bar_line bar.left bar.right bar.base bar.before bar.here) }
{
    if bar.here == 0 {
        if bar.before == 0 {
            return Ok(());
        }
        push_said(text, b"V")?;
        return push_number(text, u64::from(bar.base));
    }
    let mut octets = [0; STEP_ROOM];
    let end = write_number(&mut octets, STEP_ROOM, b'H', bar.right);
    let first = write_rise(&mut octets, end, bar);
    text.extend_from_slice(&octets[first..])
}

fn series_name(series: Series) -> &'static [u8]
    ensures { result.now ≡ series_name series }
{
    match series {
        Series::WindowCounts | Series::ChannelCounts(_) | Series::Inner(_) => b"c",
        Series::Last(_) => b"e",
        Series::Window => b"p",
        Series::Used => b"u",
        Series::Sent(_) => b"v",
        Series::LeftAndSent(_) => b"g",
        Series::Left(_) => b"f",
        Series::Lost(_) => b"l",
        Series::Size(_) => b"z",
        Series::Worth | Series::Raised(_) => b"q",
        _ => b"o",
    }
}

// The outlines of all steps.
#[tactic(auto, using(crate::proofs::Ranges::drawing), unfolding(crate::specs::Svg::step_outline))]
fn push_steps(text: &mut Vec<u8>, column: &Column<'_>, whole: u64) -> Pushed
    requires placed { IsPlaced column.now.series }
    requires whole { whole ≤ 2 ^ 40 }
    ensures { OnOk result (text.new.items ≡ text.old.items
        ++ flat_map (step_outline column.now.picture.now column.now.series whole)
        (steps column.now.picture.now.problem)) }
{
    let problem = column.picture.problem();
    let base = base_of(problem, column.series);
    let width = step_width(problem);
    let mut before = height_of(column, whole, 0);
    for step in 1..problem.steps() + 1 {
        let here = height_of(column, whole, step);
        let bar = Bar {
            left: edge_at(width, step - 1),
            right: edge_at(width, step),
            base,
            before,
            here,
        };
        push_bar(text, bar)?;
        before = here;
    }
    Ok(())
}

// Begins the outline of a series.
#[tactic(auto, using(std::proofs::Common::append_assoc), unfolding(crate::specs::Svg::path_begun))]
fn push_path(text: &mut Vec<u8>, series: Series) -> Pushed
    ensures { OnOk result (text.new.items ≡ text.old.items ++ path_begun series) }
{
    push_said(text, b"<path class='")?;
    text.extend_from_slice(series_name(series))?;
    push_said(text, b"' d='")
}

/// Draws the series of a column over all steps, or nothing where it has none. The whole is drawn in full height.
#[tactic(auto, using(std::proofs::Common::append_assoc), unfolding(crate::specs::Svg::profile))]
pub fn push_column(text: &mut Vec<u8>, column: &Column<'_>, whole: u64) -> Pushed
    requires placed { IsPlaced column.now.series }
    requires whole { whole ≡ whole_of column.now.picture.now column.now.series }
    requires most { whole ≤ 2 ^ 40 }
    ensures { OnOk result (text.new.items ≡ text.old.items ++ profile column.now.picture.now column.now.series) }
{
    if column.total() == 0 {
        return Ok(());
    }
    let base = base_of(column.picture.problem(), column.series);
    push_path(text, column.series)?;
    push_steps(text, column, whole)?;
    parts!(text; Said(b"V"), Number(base), Said(b"'/>\n"))
}

/// Draws a series over all steps, or nothing where it has none.
pub fn push_profile(text: &mut Vec<u8>, picture: &Picture, series: Series, whole: u64) -> Pushed
    requires series { IsSeries picture.now series }
    requires placed { IsPlaced series }
    requires whole { whole ≡ whole_of picture.now series }
    requires most { whole ≤ 2 ^ 40 }
    ensures { OnOk result (text.new.items ≡ text.old.items ++ profile picture.now series) }
{
    push_column(text, &Column::new(picture, series), whole)
}
