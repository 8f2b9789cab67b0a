//! The lines of a plan text, as they are printed.
#![tactic(auto, using(std::proofs::Common::append_assoc), unfolding(crate::specs::Printing::ended, crate::specs::Sheet::line_text))]

ghost use Rattle.std.specs.Prelude.{◌≡◌, ◌-◌, ◌*◌, ◌+◌, ◌<◌, ◌≤◌, ◌++◌, ◌∷◌, [], length, map, drop, decimal, codes};
ghost use Rattle.std.specs.Prelude.{unwrap_or, position, bytes_eq, IfOk, OnOk};
ghost use Rattle.std.specs.Option.{option_map};
ghost use Rattle.std.specs.Fmt.{signed_decimal};
ghost use Rattle.mm_base.specs.Characters.{line_feed, space};
ghost use Rattle.mm_base.specs.declared.limits.TheConstants.{MAX_STORES};
ghost use Rattle.mm_base.specs.Id.{id_text};
ghost use Rattle.mm_plan.specs.Sheet.{title_line, stores_line, dump_line, loss_line, stretch_line, count_line};
ghost use Rattle.mm_plan.specs.Sheet.{bound_line, end_line, first_line, certificate_lines, first_lines, dump_lines};
ghost use Rattle.mm_plan.specs.Printing.{stretch_key, AreOrdered, AreRising, ended, all_ended, spaced};
ghost use Rattle.mm_plan.specs.Printing.{plan_lines};

use crate::certificate::Certificate;
use crate::form::Form;
use crate::plan::Plan;
use crate::stretch::Stretch;
use mm_base::numbers::{push_number, write_number};
use mm_base::{MAX_STORES, StoreId};
use std::alloc::{AllocError, Global};

/// Whether memory was found for what was to be pushed.
pub(crate) type Pushed = Result<(), AllocError>;

fn push_word(text: &mut Vec<u8>, word: &[u8]) -> Pushed
    ensures { OnOk result (text.new.items ≡ text.old.items ++ space ∷ word.now) }
{
    text.push(b' ')?;
    text.extend_from_slice(word)?;
    Ok(())
}

// The most octets of a space and a number of 32 bits.
const NUMBER_ROOM: usize = 11;

// A number with the space before it, in one piece.
fn push_number_word(text: &mut Vec<u8>, number: u32) -> Pushed
    ensures { OnOk result (text.new.items ≡ text.old.items ++ space ∷ decimal number) }
{
    let mut word = [b' '; NUMBER_ROOM];
    let first = write_number(&mut word, NUMBER_ROOM, b' ', number);
    text.extend_from_slice(&word[first..])
}

fn push_title(text: &mut Vec<u8>, form: Form) -> Pushed
    ensures { OnOk result (text.new.items ≡ text.old.items ++ ended (title_line form)) }
{
    match form {
        Form::First => text.extend_from_slice(b"mmplan 1\n")?,
        Form::Second => text.extend_from_slice(b"mmplan 2\n")?,
        Form::Third => text.extend_from_slice(b"mmplan 3\n")?,
    }
    Ok(())
}

fn push_ids(text: &mut Vec<u8>, ids: &[StoreId]) -> Pushed
    ensures { OnOk result (text.new.items ≡ text.old.items ++ spaced (map id_text ids.now)) }
{
    let mut rest = ids;
    while let [id, after @ ..] = rest {
        push_word(text, id.text())?;
        rest = after;
    }
    Ok(())
}

fn push_stores(text: &mut Vec<u8>, ids: &[StoreId]) -> Pushed
    ensures { OnOk result (text.new.items ≡ text.old.items ++ ended (stores_line ids.now)) }
{
    text.extend_from_slice(b"stores")?;
    push_ids(text, ids)?;
    text.push(b'\n')?;
    Ok(())
}

// Writes amounts, each after a space, so that they end at a place. Returns where they start.
fn write_amounts(octets: &mut [u8], end: usize, amounts: &[u32]) -> usize
    requires room { 11 * length amounts.now ≤ end }
    requires within { end ≤ length octets.old }
    ensures written { drop result octets.new ≡ spaced (map decimal amounts.now) ++ drop end octets.old }
    ensures least { end ≤ result + 11 * length amounts.now }
    ensures most { result ≤ end }
{
    let mut first = end;
    let mut left = amounts.len();
    while left > 0 {
        left -= 1;
        first = write_number(octets, first, b' ', amounts[left]);
    }
    first
}

// The most octets of a step, the amounts of all stores and a line feed.
const DUMP_ROOM: usize = 11 * (MAX_STORES + 1) + 1;

// The words of a dump line after its keyword, written from the last to the first, and its line feed.
fn push_row(text: &mut Vec<u8>, step: u32, amounts: &[u32]) -> Pushed
    requires { length amounts.now ≤ MAX_STORES }
    ensures { OnOk result (text.new.items ≡ text.old.items
        ++ space ∷ decimal step ++ spaced (map decimal amounts.now) ++ line_feed ∷ []) }
{
    let mut octets = [b'\n'; DUMP_ROOM];
    let end = write_amounts(&mut octets, DUMP_ROOM - 1, amounts);
    let first = write_number(&mut octets, end, b' ', step);
    text.extend_from_slice(&octets[first..])
}

fn push_dump(text: &mut Vec<u8>, step: u32, amounts: &[u32]) -> Pushed
    requires { length amounts.now ≤ MAX_STORES }
    ensures { OnOk result (text.new.items ≡ text.old.items ++ ended (dump_line step amounts.now)) }
{
    text.extend_from_slice(b"dump")?;
    push_row(text, step, amounts)
}

// A line for each step, with the amounts of that many stores.
fn push_dumps(text: &mut Vec<u8>, stores: usize, steps: u32, amounts: &[u32]) -> Pushed
    requires size { length amounts.now ≡ steps * stores }
    requires few { stores ≤ MAX_STORES }
    ensures { OnOk result (text.new.items ≡ text.old.items ++ all_ended (dump_lines stores 1 steps amounts.now)) }
{
    let mut rest = amounts;
    for step in 0..steps {
        let (row, after) = rest.split_at(stores);
        push_dump(text, step + 1, row)?;
        rest = after;
    }
    Ok(())
}

// The line of a keyword, which ends in a space, and a number.
fn push_numbered(text: &mut Vec<u8>, keyword: &[u8], number: u64) -> Pushed
    ensures { OnOk result (text.new.items ≡ text.old.items ++ keyword.now ++ decimal number ++ line_feed ∷ []) }
{
    text.extend_from_slice(keyword)?;
    push_number(text, number)?;
    text.push(b'\n')?;
    Ok(())
}

fn push_stretch(text: &mut Vec<u8>, stretch: Stretch) -> Pushed
    ensures { OnOk result (text.new.items ≡ text.old.items ++ ended (stretch_line stretch)) }
{
    text.extend_from_slice(b"stretch")?;
    push_word(text, stretch.store.text())?;
    push_number_word(text, stretch.first)?;
    push_number_word(text, stretch.last)?;
    text.push(b'\n')?;
    Ok(())
}

fn push_cut(text: &mut Vec<u8>, cut: &[Stretch]) -> Pushed
    ensures { OnOk result (text.new.items ≡ text.old.items ++ all_ended (map stretch_line cut.now)) }
{
    let mut rest = cut;
    while let [stretch, after @ ..] = rest {
        push_stretch(text, *stretch)?;
        rest = after;
    }
    Ok(())
}

fn push_count(text: &mut Vec<u8>, step: u32) -> Pushed
    ensures { OnOk result (text.new.items ≡ text.old.items ++ ended (count_line step)) }
{
    text.extend_from_slice(b"count")?;
    push_number_word(text, step)?;
    text.extend_from_slice(b" channels\n")?;
    Ok(())
}

fn push_counts(text: &mut Vec<u8>, steps: &[u32]) -> Pushed
    ensures { OnOk result (text.new.items ≡ text.old.items ++ all_ended (map count_line steps.now)) }
{
    let mut rest = steps;
    while let [step, after @ ..] = rest {
        push_count(text, *step)?;
        rest = after;
    }
    Ok(())
}

fn push_bound(text: &mut Vec<u8>, bound: i64) -> Pushed
    ensures { OnOk result (text.new.items ≡ text.old.items ++ ended (bound_line bound)) }
{
    text.extend_from_slice(b"bound ")?;
    if bound < 0 {
        text.push(b'-')?;
    }
    push_number(text, bound.unsigned_abs())?;
    text.push(b'\n')?;
    Ok(())
}

pub(crate) fn push_end(text: &mut Vec<u8>) -> Pushed
    ensures { OnOk result (text.new.items ≡ text.old.items ++ ended end_line) }
{
    text.extend_from_slice(b"end\n")?;
    Ok(())
}

// The lines up to the dumps.
pub(crate) fn push_front(text: &mut Vec<u8>, form: Form, ids: &[StoreId], plan: &Plan) -> Pushed
    ensures { OnOk result (text.new.items ≡ text.old.items
        ++ (ended (title_line form) ++ ended (stores_line ids.now) ++ all_ended (plan_lines plan.now))) }
{
    push_title(text, form)?;
    push_stores(text, ids)?;
    push_dumps(text, plan.stores, plan.steps, plan.amounts.as_slice())?;
    Ok(())
}

// The lines of a certificate.
pub(crate) fn push_certificate(
    text: &mut Vec<u8>,
    loss: u64,
    cut: &[Stretch],
    by_channels: &[u32],
    bound: i64,
) -> Pushed
    ensures { OnOk result (text.new.items ≡ text.old.items
        ++ (ended (loss_line loss) ++ all_ended (map stretch_line cut.now)
        ++ all_ended (map count_line by_channels.now) ++ ended (bound_line bound))) }
{
    push_numbered(text, b"loss ", loss)?;
    push_cut(text, cut)?;
    push_counts(text, by_channels)?;
    push_bound(text, bound)?;
    Ok(())
}

// The line before a certificate, and its lines.
fn push_part(text: &mut Vec<u8>, number: u64, part: &Certificate) -> Pushed
    ensures { OnOk result (text.new.items ≡ text.old.items
        ++ (ended (first_line number) ++ all_ended (certificate_lines part.now))) }
{
    push_numbered(text, b"first ", number)?;
    push_certificate(
        text,
        part.loss(),
        part.cut(),
        part.by_channels(),
        part.bound(),
    )?;
    Ok(())
}

// The lines of the certificates of the first store, of the first two and so on.
fn push_each(text: &mut Vec<u8>, firsts: &[Certificate]) -> Pushed
    ensures { OnOk result (text.new.items ≡ text.old.items ++ all_ended (first_lines 1 firsts.now)) }
{
    let mut number = 0;
    let mut rest = firsts;
    while let [part, after @ ..] = rest {
        number += 1;
        push_part(text, number, part)?;
        rest = after;
    }
    Ok(())
}

// The same, where there are some.
pub(crate) fn push_firsts(text: &mut Vec<u8>, firsts: Option<&[Certificate]>) -> Pushed
    ensures { OnOk result (text.new.items ≡ text.old.items
        ++ all_ended (first_lines 1 (unwrap_or (option_map (λ cs. cs.now) firsts.entry) []))) }
{
    if let Some(firsts) = firsts {
        push_each(text, firsts)?;
    }
    Ok(())
}

fn place_in(ids: &[StoreId], id: StoreId) -> Option<usize>
    ensures { result ≡ position (λ i. bytes_eq i id) ids.now }
{
    ids.iter().position(|other| *other == id)
}

fn stretch_key(ids: &[StoreId], stretch: &Stretch) -> (usize, u32, u32)
    ensures { result ≡ stretch_key ids.now stretch.now }
{
    let place = place_in(ids, stretch.store).unwrap_or(ids.len());
    (place, stretch.first, stretch.last)
}

// The stretches in store order, then by first and by last step.
pub(crate) fn ordered(
    alloc: Global,
    ids: &[StoreId],
    cut: &[Stretch],
) -> Result<Vec<Stretch>, AllocError>
    ensures { IfOk result (λ v. AreOrdered ids.now cut.now v.items) }
{
    let mut stretches = Vec::from_slice(alloc, cut)?;
    stretches.sort_unstable_by_key(|stretch| stretch_key(ids, stretch));
    Ok(stretches)
}

// The numbers in rising order.
pub(crate) fn rising(alloc: Global, steps: &[u32]) -> Result<Vec<u32>, AllocError>
    ensures { IfOk result (λ v. AreRising steps.now v.items) }
{
    let mut numbers = Vec::from_slice(alloc, steps)?;
    numbers.sort_unstable();
    Ok(numbers)
}
