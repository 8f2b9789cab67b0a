//! The lines of a report.
#![tactic(auto, using(std::proofs::Common::append_assoc))]

ghost use Rattle.std.specs.Prelude.{◌≡◌, ◌++◌, ◌∷◌, [], codes, decimal, length, OnOk};
ghost use Rattle.mm_base.specs.Characters.{space};
ghost use Rattle.mm_base.specs.Id.{id_text};
ghost use Rattle.mm_report.specs.Text.{named_text, number_text, numbers_text, sums_of, total_line, line_of, row_text, steps_text};

use crate::counts::{StepCounts, Totals};
use crate::report::Report;
use itoa::Buffer;
use mm_base::StoreId;
use std::alloc::AllocError;

// What the lines of steps and stores tell: the numbers, or where the forecast was not met.
#[derive(Clone, Copy)]
pub(crate) enum Listing {
    Numbers,
    Differences,
}

// ` N`
fn push_decimal(text: &mut Vec<u8>, number: u128) -> Result<(), AllocError>
    ensures { OnOk result (text.new.items ≡ text.old.items ++ space ∷ decimal number) }
{
    text.push(b' ')?;
    let mut buffer = Buffer::new();
    text.extend_from_slice(buffer.format(number).as_bytes())
}

// ` WORD N`
fn push_number(text: &mut Vec<u8>, word: &[u8], number: u128) -> Result<(), AllocError>
    ensures { OnOk result (text.new.items ≡ text.old.items ++ number_text word.now number) }
{
    text.push(b' ')?;
    text.extend_from_slice(word)?;
    push_decimal(text, number)
}

// `WORD T ID`
fn push_named(text: &mut Vec<u8>, word: &[u8], step: u32, id: StoreId) -> Result<(), AllocError>
    ensures { OnOk result (text.new.items ≡ text.old.items ++ named_text word.now step id) }
{
    text.extend_from_slice(word)?;
    push_decimal(text, u128::from(step))?;
    text.push(b' ')?;
    text.extend_from_slice(id.text())
}

// What arrived, was lost, was dumped and is held, up to the end of the line.
fn push_numbers(text: &mut Vec<u8>, totals: Totals) -> Result<(), AllocError>
    ensures { OnOk result (text.new.items ≡ text.old.items ++ numbers_text totals) }
{
    push_number(text, b"arrived", totals.arrived)?;
    push_number(text, b"lost", totals.lost)?;
    push_number(text, b"dumped", totals.dumped)?;
    push_number(text, b"held", totals.held)?;
    text.push(b'\n')?;
    Ok(())
}

// The numbers of a step and a store.
fn sums_of(counts: StepCounts) -> Totals
    ensures { result ≡ sums_of counts }
{
    Totals {
        arrived: u128::from(counts.arrived),
        lost: u128::from(counts.lost),
        dumped: u128::from(counts.dumped),
        held: u128::from(counts.held),
    }
}

// The line of a step and a store in this listing, if there is one.
fn push_line(
    text: &mut Vec<u8>,
    listing: Listing,
    step: u32,
    id: StoreId,
    counts: StepCounts,
) -> Result<(), AllocError>
    ensures { OnOk result (text.new.items ≡ text.old.items ++ line_of listing step id counts) }
{
    match listing {
        Listing::Numbers => {
            push_named(text, b"step", step, id)?;
            push_numbers(text, sums_of(counts))
        }
        Listing::Differences if counts.forecast == counts.arrived => Ok(()),
        Listing::Differences => {
            push_named(text, b"differs step", step, id)?;
            push_number(text, b"forecast", u128::from(counts.forecast))?;
            push_number(text, b"came", u128::from(counts.arrived))?;
            text.push(b'\n')?;
            Ok(())
        }
    }
}

fn push_row(
    text: &mut Vec<u8>,
    listing: Listing,
    step: u32,
    ids: &[StoreId],
    row: &[StepCounts],
) -> Result<(), AllocError>
    ensures { OnOk result (text.new.items ≡ text.old.items ++ row_text listing step ids.now row.now) }
{
    let mut rest_ids = ids;
    let mut rest = row;
    while let [id, more_ids @ ..] = rest_ids {
        let [counts, more @ ..] = rest else {
            return Ok(());
        };
        push_line(text, listing, step, *id, *counts)?;
        rest_ids = more_ids;
        rest = more;
    }
    Ok(())
}

/// The lines of all steps and stores in this listing.
pub(crate) fn push_steps(
    text: &mut Vec<u8>,
    listing: Listing,
    report: &Report,
) -> Result<(), AllocError>
    ensures { OnOk result (text.new.items ≡ text.old.items
        ++ steps_text listing report.now.ids 1 report.now.steps) }
{
    for step in 0..report.steps() {
        push_row(text, listing, step + 1, report.ids(), report.row(step + 1))?;
    }
    Ok(())
}

/// The last line.
pub(crate) fn push_total(text: &mut Vec<u8>, totals: Totals) -> Result<(), AllocError>
    ensures { OnOk result (text.new.items ≡ text.old.items ++ total_line totals) }
{
    text.extend_from_slice(b"total")?;
    push_numbers(text, totals)
}
