//! What a plan text says, and what the limits of this crate are, as numbers.
ghost use Rattle.std.specs.Prelude.{◌≡◌};
ghost use Rattle.mm_plan.specs.Sheet.{OneTextOneSheet};
ghost use Rattle.mm_plan.specs.declared.stretch.TheConstants.{MAX_STRETCHES, MAX_COUNTS};

/// A plan text is the text of one sheet.
pub fn one_text_one_sheet()
    ensures { OneTextOneSheet }
{}

/// The limits of a plan text.
pub fn constants_are()
    ensures stretches { MAX_STRETCHES ≡ 4096 }
    ensures counts { MAX_COUNTS ≡ 256 }
{}
