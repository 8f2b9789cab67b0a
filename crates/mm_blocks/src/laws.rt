//! Laws of the check and of blocks. Each function is a law, which its contract states.
ghost use Rattle.std.specs.Prelude.{◌≡◌, true};
ghost use Rattle.mm_blocks.specs.Block.{is_sound};
ghost use Rattle.mm_blocks.specs.Laws.{BurstsAreFound, ChangesOfTextAreFound, ChangesOfRowAreFound};
ghost use Rattle.mm_blocks.specs.declared.block.Block.{Block};

/// Texts of one length that differ within 32 bits in a row, and in no other, have different checks.
pub fn bursts_are_found()
    ensures law { BurstsAreFound }
{}

/// A block whose time and packet change within 32 bits in a row, and which does not change otherwise, gives no packet.
pub fn changes_of_text_are_found()
    ensures law { ChangesOfTextAreFound }
{}

/// A block whose check, length or complement of the length changes, and which does not change otherwise, gives no packet.
pub fn changes_of_row_are_found()
    ensures law { (old : Block) → is_sound old ≡ true → ChangesOfRowAreFound old }
{}
