//! Texts that are taken line by line.
ghost use Rattle.std.specs.Prelude.{ℕ, List, OnOk};
ghost use Rattle.mm_base.specs.Lines.{text_lines};
ghost use Rattle.mm_ask.specs.Lines.{Passes, PassesEach};

use mm_base::NoMemory;
use mm_base::lines::split_line;
use std::alloc::Global;

/// What takes the lines of a text, one by one.
pub(crate) trait TakeLine {
    // What a line that is not empty leaves.
    ghost leaves: { ℕ → List ℕ → Self → Self → Type 0 };

    // Takes a line that is not empty and has this number.
    fn take(&mut self, alloc: Global, line: u64, octets: &[u8]) -> Result<(), NoMemory>
        ensures { OnOk result (Self.leaves line octets.now self.old self.new) };
}

// Takes a line, which has this number; an empty one is passed over.
fn pass<T: TakeLine>(alloc: Global, taker: &mut T, line: u64, octets: &[u8]) -> Result<(), NoMemory>
    ensures { OnOk result (Passes T.leaves line octets.now taker.old taker.new) }
{
    if octets.is_empty() {
        Ok(())
    } else {
        taker.take(alloc, line, octets)
    }
}

/// Takes each line, in order; their numbers count from 1.
pub(crate) fn take_lines<T: TakeLine>(
    alloc: Global,
    taker: &mut T,
    text: &[u8],
) -> Result<(), NoMemory>
    ensures { OnOk result (PassesEach T.leaves 1 (text_lines text.now) taker.old taker.new) }
{
    let mut rest = text;
    let mut line: u64 = 1;
    while let Some((octets, after)) = split_line(rest) {
        pass(alloc, taker, line, octets)?;
        rest = after;
        line += 1;
    }
    pass(alloc, taker, line, rest)
}
