//! The number of this crate's constant.
ghost use Rattle.std.specs.Prelude.{◌≡◌, ◌^◌};
ghost use Rattle.mm_files.specs.declared.files.TheConstants.{MAX_READS};

/// The most reads of one file, and the most bytes that it may have.
pub fn constants_are()
    ensures reads { MAX_READS ≡ 2 ^ 30 }
{}
