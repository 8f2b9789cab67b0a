//! What a chart says in words: why no plan loses fewer, and what may help.
ghost use Rattle.std.specs.Prelude.{◌≡◌, ◌<◌, ◌≤◌, ◌^◌, ◌++◌, OnOk, length, map};
ghost use Rattle.mm_base.specs.declared.limits.TheConstants.{MAX_STORES};
ghost use Rattle.mm_chart.specs.Svg.{grouped, part_text, drawn, printed};
ghost use Rattle.mm_chart.specs.Words.{line_words, broken, why, stretched_at, stores_line, help, worth_words};
ghost use Rattle.mm_chart.specs.Words.{after_help, worth_room, firsts_room, first_at, firsts_list, firsts_line};
ghost use Rattle.mm_chart.specs.Words.{least_words, words, word_lines};

use crate::layout::{LINE_PITCH, MARGIN, is_limited, word_line};
use crate::marked::push_steps_line;
use crate::pen::Part::{self, Grouped, Name, Said, Signed};
use crate::pen::{Pushed, Style, parts, push_closed, push_label, push_opened, push_parts};
use crate::phrases::{
    AS_ENDS, AT_LEAST, BY_LIMITS, BY_WINDOWS, COME, FEW_LOSSES, FEW_NAMES, FEWER, FIRSTS, HELP,
    HIGHER, IN_STRETCHES, INDENT, LARGER, LOSE, NO_HIGHER, NO_LIMITS, NO_OTHER, NO_WIDER,
    NO_WINDOWS, NONE_WIDER, ONE_HIGHER, ONE_LARGER, ONE_WIDER, STAND, WHY, WIDER,
};
use crate::picture::Picture;
use crate::series::Series;
use mm_cut::Verdict;

// Words on a line below the rows.
fn push_line(
    text: &mut Vec<u8>,
    picture: &Picture,
    style: Style,
    line: u32,
    parts: &[Part<'_>],
) -> Pushed
    requires { line ≤ 25 }
    ensures { OnOk result (text.new.items ≡ text.old.items
        ++ printed (line_words picture.now style line (map part_text parts.now))) }
{
    let y = word_line(picture.problem(), line);
    push_label(text, style, MARGIN, y, parts)
}

// Writes words in a style on a line below the rows, part by part.
macro_rules! words {
    ($text:expr, $picture:expr; $style:ident $line:expr; $($part:expr),+) => {
        push_line($text, $picture, Style::$style, $line, &[$($part),+])
    };
}

// Writes a line on the steps of a series, or on that there are none.
macro_rules! steps {
    ($text:expr, $picture:expr; $series:ident $line:expr; $none:expr; $($part:expr),+) => {
        push_steps_line($text, $picture, Series::$series, $line, &[$($part),+], $none)
    };
}

// What comes, less what the stores hold, less what leaves.
#[tactic(auto, using(crate::proofs::Ranges::drawing), unfolding(crate::specs::Words::why))]
fn push_why(text: &mut Vec<u8>, picture: &Picture, bound: &Part<'_>) -> Pushed
    ensures { OnOk result (text.new.items ≡ text.old.items
        ++ drawn (why picture.now (part_text bound.now))) }
{
    let parts = picture.parts();
    let (coming, held) = (Grouped(parts.coming), Grouped(parts.held));
    let (windows, limits) = (Grouped(parts.windows), Grouped(parts.limits));
    let (at_most, minus) = (Said(b" at most "), Said(b" &#8722; "));
    words!(text, picture; Heading 0; Said(WHY), *bound)?;
    words!(text, picture; Plain 1; Said(IN_STRETCHES), coming, Said(COME))?;
    words!(text, picture; Plain 2; Said(AS_ENDS), held, Said(STAND))?;
    steps!(text, picture; CountedWindow 3; NO_WINDOWS; at_most, windows, Said(BY_WINDOWS))?;
    steps!(text, picture; LimitsCount 4; NO_LIMITS; at_most, limits, Said(BY_LIMITS))?;
    words!(text, picture; Plain 5; coming, minus, held, minus, windows, minus, limits, Said(b" = "), *bound,
        Said(AT_LEAST))
}

// A new line after each group of this many stores, where more follow.
#[tactic(auto, using(std::proofs::Common::append_assoc), unfolding(crate::specs::Words::broken))]
fn push_broken(text: &mut Vec<u8>, few: usize, y: u32, store: usize) -> Pushed
    requires few { 1 ≤ few }
    requires store { store < MAX_STORES }
    requires height { y < 2 ^ 20 }
    ensures { OnOk result (text.new.items ≡ text.old.items ++ broken few y store) }
{
    if store == 0 || store % few != 0 {
        return Ok(());
    }
    push_closed(text)?;
    let line = (store / few) as u32;
    push_opened(text, Style::Plain, INDENT, y + LINE_PITCH * line)
}

// The identifier of a store with a stretch, on a line of few stores.
#[tactic(auto, using(crate::proofs::Ranges::drawing), unfolding(crate::specs::Words::stretched_at))]
fn push_stretched_at(text: &mut Vec<u8>, picture: &Picture, y: u32, store: usize) -> Pushed
    requires store { store < length picture.now.problem.rows }
    requires few { store < MAX_STORES }
    requires height { y < 2 ^ 20 }
    ensures { OnOk result (text.new.items ≡ text.old.items ++ stretched_at picture.now y store) }
{
    push_broken(text, FEW_NAMES, y, store)?;
    if !picture.has_stretch(store) {
        return Ok(());
    }
    let id = picture.problem().id(store);
    parts!(text; Said(b" "), Name(&id))
}

// The stores that have a stretch.
#[tactic(auto, using(crate::proofs::Ranges::drawing), unfolding(crate::specs::Words::stores_line, crate::specs::Svg::label, crate::specs::Svg::joined))]
fn push_stores_line(text: &mut Vec<u8>, picture: &Picture, line: u32) -> Pushed
    requires { line ≤ 25 }
    ensures { OnOk result (text.new.items ≡ text.old.items ++ printed (stores_line picture.now line)) }
{
    let y = word_line(picture.problem(), line);
    push_opened(text, Style::Plain, MARGIN, y)?;
    parts!(text; Said(LARGER))?;
    for store in 0..picture.problem().stores() {
        push_stretched_at(text, picture, y, store)?;
    }
    push_closed(text)
}

// What the cut counts: nothing else can lower the loss.
#[tactic(auto, using(crate::proofs::Ranges::drawing), unfolding(crate::specs::Words::help))]
fn push_help(text: &mut Vec<u8>, picture: &Picture) -> Pushed
    ensures { OnOk result (text.new.items ≡ text.old.items ++ drawn (help picture.now)) }
{
    words!(text, picture; Heading 7; Said(HELP))?;
    steps!(text, picture; WindowCounts 8; NO_WIDER; Said(WIDER))?;
    steps!(text, picture; LimitsCount 9; NO_HIGHER; Said(HIGHER))?;
    words!(text, picture; Plain 10; Said(FEWER))?;
    push_stores_line(text, picture, 11)
}

// The first line after what may help, with an empty one before it.
fn after_help(picture: &Picture) -> u32
    ensures line { result ≡ after_help picture.now }
    ensures most { result ≤ 14 }
{
    12 + ((picture.problem().stores() + (FEW_NAMES - 1)) / FEW_NAMES) as u32
}

// Exactly the steps in which a wider window saves blocks by itself, where that is known.
#[tactic(auto, using(crate::proofs::Ranges::drawing), unfolding(crate::specs::Words::worth_words))]
fn push_worth_words(text: &mut Vec<u8>, picture: &Picture, line: u32) -> Pushed
    requires { line ≤ 14 }
    ensures { OnOk result (text.new.items ≡ text.old.items ++ drawn (worth_words picture.now line)) }
{
    if !picture.has_worth() {
        return Ok(());
    }
    words!(text, picture; Heading line; Said(ONE_WIDER))?;
    steps!(text, picture; Worth line + 1; NONE_WIDER; Said(NO_OTHER))?;
    words!(text, picture; Plain line + 2; Said(ONE_LARGER))?;
    if !is_limited(picture.problem()) {
        return Ok(());
    }
    words!(text, picture; Plain line + 3; Said(ONE_HIGHER))
}

// A store and what it and those before it lose, on a line of few stores.
#[tactic(auto, using(std::proofs::Common::append_assoc), unfolding(crate::specs::Words::first_at))]
fn push_first_at(text: &mut Vec<u8>, picture: &Picture, y: u32, store: usize) -> Pushed
    requires store { store < length picture.now.problem.rows }
    requires few { store < MAX_STORES }
    requires height { y < 2 ^ 20 }
    ensures { OnOk result (text.new.items ≡ text.old.items ++ first_at picture.now y store) }
{
    push_broken(text, FEW_LOSSES, y, store)?;
    let lost = Grouped(picture.first_loss(store + 1));
    let id = picture.problem().id(store);
    parts!(text; Said(b" "), Name(&id), Said(b" ("), lost, Said(b")"))
}

// What the first stores lose.
#[tactic(auto, using(crate::proofs::Ranges::drawing), unfolding(crate::specs::Words::firsts_list, crate::specs::Svg::label, crate::specs::Svg::joined))]
fn push_firsts_list(text: &mut Vec<u8>, picture: &Picture, line: u32) -> Pushed
    requires { line ≤ 25 }
    ensures { OnOk result (text.new.items ≡ text.old.items ++ printed (firsts_list picture.now line)) }
{
    let y = word_line(picture.problem(), line);
    push_opened(text, Style::Plain, MARGIN, y)?;
    parts!(text; Said(LOSE))?;
    for store in 0..picture.problem().stores() {
        push_first_at(text, picture, y, store)?;
    }
    push_closed(text)
}

// How many lines say what one change is worth, with an empty one after them.
fn worth_room(picture: &Picture) -> u32
    ensures room { result ≡ worth_room picture.now }
    ensures most { result ≤ 5 }
{
    if !picture.has_worth() {
        return 0;
    }
    if is_limited(picture.problem()) { 5 } else { 4 }
}

// The first line after them.
fn firsts_line(picture: &Picture) -> u32
    ensures line { result ≡ firsts_line picture.now }
    ensures most { result ≤ 19 }
{
    after_help(picture) + worth_room(picture)
}

// How many lines say what the first stores lose, with the one before them.
fn firsts_room(picture: &Picture) -> u32
    ensures room { result ≡ firsts_room picture.now }
    ensures most { result ≤ 6 }
{
    2 + ((picture.problem().stores() + (FEW_LOSSES - 1)) / FEW_LOSSES) as u32
}

// The sum and the help of a plan that loses least.
#[tactic(auto, using(crate::proofs::Ranges::drawing), unfolding(crate::specs::Words::least_words))]
fn push_least_words(text: &mut Vec<u8>, picture: &Picture, loss: u64) -> Pushed
    ensures { OnOk result (text.new.items ≡ text.old.items ++ drawn (least_words picture.now loss)) }
{
    push_why(text, picture, &Grouped(loss))?;
    push_help(text, picture)?;
    push_worth_words(text, picture, after_help(picture))
}

/// Writes why no plan loses fewer than the cut's bound, and what may help.
#[tactic(auto, using(crate::proofs::Ranges::drawing), unfolding(crate::specs::Words::words_of))]
pub(crate) fn push_words(text: &mut Vec<u8>, picture: &Picture) -> Pushed
    ensures { OnOk result (text.new.items ≡ text.old.items ++ drawn (words picture.now)) }
{
    match picture.verdict() {
        Verdict::Least(0) | Verdict::LeastInOrder(0) => Ok(()),
        Verdict::Least(loss) => push_least_words(text, picture, loss),
        Verdict::LeastInOrder(loss) => {
            let line = firsts_line(picture);
            push_least_words(text, picture, loss)?;
            words!(text, picture; Heading line; Said(FIRSTS))?;
            push_firsts_list(text, picture, line + 1)
        }
        Verdict::NotShown { bound, .. } => {
            push_why(text, picture, &Signed(bound))?;
            push_worth_words(text, picture, 7)
        }
        _ => Ok(()),
    }
}

/// How many lines the words have room for.
pub(crate) fn word_lines(picture: &Picture) -> u32
    ensures lines { result ≡ word_lines picture.now picture.now.verdict }
    ensures most { result ≤ 25 }
{
    match picture.verdict() {
        Verdict::Least(0) | Verdict::LeastInOrder(0) => 0,
        Verdict::LeastInOrder(_) => firsts_line(picture) + firsts_room(picture),
        Verdict::Least(_) => after_help(picture) + worth_room(picture),
        Verdict::NotShown { .. } => 6 + worth_room(picture),
        _ => 0,
    }
}
