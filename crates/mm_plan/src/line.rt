//! The lines of a plan text.
ghost use Rattle.std.specs.Prelude.{◌≡◌, [], map, IfOk};
ghost use Rattle.std.specs.Option.{option_map};
ghost use Rattle.mm_base.specs.declared.limits.TheConstants.{MAX_BLOCKS};
ghost use Rattle.mm_plan.specs.Reading.{number_of, each, stores_of, dump_of, stretch_of, count_of, end_of};
ghost use Rattle.mm_plan.specs.Reading.{only, word_line, line_of, IsRead};
ghost use Rattle.mm_plan.specs.Seen.{seen};

use crate::form::Form;
use crate::stretch::Stretch;
use crate::words::{MAX_WORDS, form_said, id_of, line_words, number_of, signed_of, u32_of};
use mm_base::{MAX_BLOCKS, MAX_STEPS, StoreId};
use std::alloc::{AllocError, Global};

// A line.
#[derive(Drop)]
pub(crate) enum Line {
    Title(Form),
    Stores(Vec<StoreId>),
    Dump { step: u32, amounts: Vec<u32> },
    Loss(u64),
    Cut(Stretch),
    Count(u32),
    Bound(i64),
    First(u32),
    End,
}

#[tactic(auto, unfolding(crate::specs::Reading::stores_of))]
fn stores_of(alloc: Global, words: &[&[u8]]) -> Result<Option<Line>, AllocError>
    ensures { IfOk result (λ line. option_map seen line ≡ stores_of (map (λ w. w.now) words.now)) }
{
    let mut ids = Vec::with_capacity(alloc, words.len())?;
    let mut rest = words;
    while let [word, after @ ..] = rest {
        let Some(id) = id_of(*word) else {
            return Ok(None);
        };
        ids.push(id)?;
        rest = after;
    }
    Ok(Some(Line::Stores(ids)))
}

fn amounts_of(alloc: Global, words: &[&[u8]]) -> Result<Option<Vec<u32>>, AllocError>
    ensures { IfOk result (λ amounts. option_map (λ v. v.items) amounts
        ≡ each (number_of MAX_BLOCKS) [] (map (λ w. w.now) words.now)) }
{
    let mut amounts = Vec::with_capacity(alloc, words.len())?;
    let mut rest = words;
    while let [word, after @ ..] = rest {
        let Some(amount) = u32_of(MAX_BLOCKS, *word) else {
            return Ok(None);
        };
        amounts.push(amount)?;
        rest = after;
    }
    Ok(Some(amounts))
}

#[tactic(auto, unfolding(crate::specs::Reading::dump_of))]
fn dump_of(alloc: Global, words: &[&[u8]]) -> Result<Option<Line>, AllocError>
    ensures { IfOk result (λ line. option_map seen line ≡ dump_of (map (λ w. w.now) words.now)) }
{
    let [word, row @ ..] = words else {
        return Ok(None);
    };
    let Some(step) = u32_of(MAX_STEPS, *word) else {
        return Ok(None);
    };
    Ok(amounts_of(alloc, row)?.map(|amounts| Line::Dump { step, amounts }))
}

#[tactic(auto, unfolding(crate::specs::Reading::stretch_of))]
fn stretch_of(words: &[&[u8]]) -> Option<Line>
    ensures { option_map seen result ≡ stretch_of (map (λ w. w.now) words.now) }
{
    let [store, first, last] = words else {
        return None;
    };
    Some(Line::Cut(Stretch {
        store: id_of(*store)?,
        first: u32_of(u32::MAX, *first)?,
        last: u32_of(u32::MAX, *last)?,
    }))
}

#[tactic(auto, unfolding(crate::specs::Reading::count_of))]
fn count_of(words: &[&[u8]]) -> Option<Line>
    ensures { option_map seen result ≡ count_of (map (λ w. w.now) words.now) }
{
    let [step, word] = words else {
        return None;
    };
    let step = u32_of(u32::MAX, *step)?;
    (*word == b"channels".as_slice()).then_some(Line::Count(step))
}

#[tactic(auto, unfolding(crate::specs::Reading::end_of))]
fn end_of(words: &[&[u8]]) -> Option<Line>
    ensures { option_map seen result ≡ end_of (map (λ w. w.now) words.now) }
{
    match words {
        [] => Some(Line::End),
        _ => None,
    }
}

// The line of a keyword and a word.
#[tactic(auto, unfolding(crate::specs::Reading::word_line))]
fn word_line(keyword: &[u8], words: &[&[u8]]) -> Option<Line>
    ensures { option_map seen result ≡ only (word_line keyword.now) (map (λ w. w.now) words.now) }
{
    let [word] = words else {
        return None;
    };
    let word = *word;
    Some(if keyword == b"mmplan".as_slice() {
        Line::Title(form_said(word)?)
    } else if keyword == b"loss".as_slice() {
        Line::Loss(number_of(u64::MAX, word)?)
    } else if keyword == b"bound".as_slice() {
        Line::Bound(signed_of(word)?)
    } else if keyword == b"first".as_slice() {
        Line::First(u32_of(u32::MAX, word)?)
    } else {
        return None;
    })
}

#[tactic(auto, unfolding(crate::specs::Reading::line_of))]
fn line_of(alloc: Global, words: &[&[u8]]) -> Result<Option<Line>, AllocError>
    ensures { IfOk result (λ line. option_map seen line ≡ line_of (map (λ w. w.now) words.now)) }
{
    let [keyword, rest @ ..] = words else {
        return Ok(None);
    };
    let keyword = *keyword;
    if keyword == b"stores".as_slice() {
        return stores_of(alloc, rest);
    }
    if keyword == b"dump".as_slice() {
        return dump_of(alloc, rest);
    }
    if keyword == b"stretch".as_slice() {
        return Ok(stretch_of(rest));
    }
    if keyword == b"count".as_slice() {
        return Ok(count_of(rest));
    }
    if keyword == b"end".as_slice() {
        return Ok(end_of(rest));
    }
    Ok(word_line(keyword, rest))
}

// The line with this text, or none where it is no line's.
pub(crate) fn read_line(alloc: Global, text: &[u8]) -> Result<Option<Line>, AllocError>
    ensures { IfOk result (λ line. IsRead text.now (option_map seen line)) }
{
    let words = line_words(alloc, text)?;
    if words.len() > MAX_WORDS {
        return Ok(None);
    }
    line_of(alloc, words.as_slice())
}
