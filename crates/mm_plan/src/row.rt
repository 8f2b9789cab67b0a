//! The line of a step's amounts, read where it stands.
ghost use Rattle.std.specs.Prelude.{◌≡◌, ◌≤◌, ◌*◌, ◌<◌, ◌++◌, ◌∷◌, All, IfSome, IsTrue, codes, decimal, length, map};
ghost use Rattle.std.specs.Prelude.{take};
ghost use Rattle.mm_base.specs.declared.limits.TheConstants.{MAX_STORES, MAX_BLOCKS};
ghost use Rattle.mm_base.specs.Characters.{space};
ghost use Rattle.mm_plan.specs.Printing.{spaced};
ghost use Rattle.mm_plan.specs.Sheet.{dump_line, line_text};

use mm_base::{MAX_BLOCKS, MAX_STORES};

// A number at the front of a text, and what follows it.
#[derive(Clone, Copy)]
struct Front<'a> {
    number: u32,
    rest: &'a [u8],
}

// The number that a text begins with: 0, or all its first digits.
fn leading_number(text: &[u8]) -> Option<Front<'_>>
    ensures { IfSome result (λ f. text.now ≡ decimal f.number ++ f.rest.now) }
{
    let [first, after @ ..] = text else {
        return None;
    };
    if !first.is_ascii_digit() {
        return None;
    }
    let mut number = u32::from(*first - b'0');
    let mut rest = after;
    if number == 0 {
        return Some(Front { number, rest });
    }
    while let [digit, after @ ..] = rest {
        if !digit.is_ascii_digit() {
            return Some(Front { number, rest });
        }
        if number > MAX_BLOCKS {
            return None;
        }
        number = number * 10 + u32::from(*digit - b'0');
        rest = after;
    }
    Some(Front { number, rest })
}

// The amount that a text begins with, after a space.
fn spaced_number(text: &[u8]) -> Option<Front<'_>>
    ensures text { IfSome result (λ f. text.now ≡ space ∷ decimal f.number ++ f.rest.now) }
    ensures most { IfSome result (λ f. f.number ≤ MAX_BLOCKS) }
{
    let [b' ', after @ ..] = text else {
        return None;
    };
    match leading_number(after) {
        Some(front) if front.number <= MAX_BLOCKS => Some(front),
        _ => None,
    }
}

// Whether a text is that many amounts, each after a space. If so, they are written to the first places.
fn read_row(text: &[u8], stores: usize, amounts: &mut [u32; MAX_STORES]) -> bool
    requires { stores ≤ MAX_STORES }
    ensures text { IsTrue result → text.now ≡ spaced (map decimal (take stores amounts.new)) }
    ensures most { IsTrue result → All (λ n. n ≤ MAX_BLOCKS) (take stores amounts.new) }
{
    let mut rest = text;
    for place in 0..stores {
        let Some(front) = spaced_number(rest) else {
            return false;
        };
        amounts[place] = front.number;
        rest = front.rest;
    }
    rest.is_empty()
}

// What follows the keyword of a dump line.
fn after_keyword(text: &[u8]) -> Option<&[u8]>
    ensures { IfSome result (λ rest. text.now ≡ codes "dump" ++ rest.now) }
{
    match text {
        [b'd', b'u', b'm', b'p', rest @ ..] => Some(rest),
        _ => None,
    }
}

// Whether a text is the dump line of a step with that many amounts. If so, they are written to the first places.
pub(crate) fn is_dump(
    text: &[u8],
    step: u32,
    stores: usize,
    amounts: &mut [u32; MAX_STORES],
) -> bool
    requires { stores ≤ MAX_STORES }
    ensures text { IsTrue result → text.now ≡ line_text (dump_line step (take stores amounts.new)) }
    ensures most { IsTrue result → All (λ n. n ≤ MAX_BLOCKS) (take stores amounts.new) }
{
    let Some(after) = after_keyword(text) else {
        return false;
    };
    match spaced_number(after) {
        Some(front) => front.number == step && read_row(front.rest, stores, amounts),
        None => false,
    }
}
