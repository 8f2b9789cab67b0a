//! The words of a line, and what they are read as.
ghost use Rattle.std.specs.Prelude.{◌≡◌, ◌≤◌, [], map, IfOk, IfSome, OnOk};
ghost use Rattle.mm_plan.specs.Reading.{line_words, number_of, id_of, signed_of, form_said};

use crate::form::Form;
use mm_base::StoreId;
use mm_base::numbers::Numeral;
use std::alloc::{AllocError, Global};

// The most words of a line.
pub(crate) const MAX_WORDS: usize = 18;

// The words of a line are separated by one space. Of a line of more than 18 words the first 19 are kept.
fn add_words<'a>(words: &mut Vec<&'a [u8]>, text: &'a [u8]) -> Result<(), AllocError>
    requires { words.old.items ≡ [] }
    ensures { OnOk result (map (λ w. w.now) words.new.items ≡ line_words text.now) }
{
    words.extend(text.split(|octet| *octet == b' ').take(MAX_WORDS + 1))
}

// The words of a line, in room that is asked for once.
pub(crate) fn line_words<'a>(alloc: Global, text: &'a [u8]) -> Result<Vec<&'a [u8]>, AllocError>
    ensures { IfOk result (λ v. map (λ w. w.now) v.items ≡ line_words text.now) }
{
    let mut words = Vec::with_capacity(alloc, MAX_WORDS + 1)?;
    add_words(&mut words, text)?;
    Ok(words)
}

#[tactic(auto, unfolding(crate::specs::Reading::number_of))]
pub(crate) fn number_of(most: u64, word: &[u8]) -> Option<u64>
    ensures number { result ≡ number_of most word.now }
    ensures most { IfSome result (λ n. n ≤ most) }
{
    match Numeral::read(word, most) {
        Numeral::Number(number) => Some(number),
        _ => None,
    }
}

pub(crate) fn u32_of(most: u32, word: &[u8]) -> Option<u32>
    ensures { result ≡ number_of most word.now }
{
    Some(number_of(u64::from(most), word)? as u32)
}

#[tactic(auto, using(mm_base::proofs::IdFields::is_id_text_decides), unfolding(crate::specs::Reading::id_of))]
pub(crate) fn id_of(word: &[u8]) -> Option<StoreId>
    ensures { result ≡ id_of word.now }
{
    StoreId::of_text(word).ok()
}

#[tactic(auto, unfolding(crate::specs::Reading::signed_of))]
pub(crate) fn signed_of(word: &[u8]) -> Option<i64>
    ensures { result ≡ signed_of word.now }
{
    match word {
        [b'-', digits @ ..] => match number_of(1 << 63, digits)? {
            0 => None,
            number => Some(-1 - (number - 1) as i64),
        },
        digits => Some(number_of(i64::MAX as u64, digits)? as i64),
    }
}

pub(crate) fn form_said(word: &[u8]) -> Option<Form>
    ensures { result ≡ form_said word.now }
{
    match word {
        b"1" => Some(Form::First),
        b"2" => Some(Form::Second),
        b"3" => Some(Form::Third),
        _ => None,
    }
}
