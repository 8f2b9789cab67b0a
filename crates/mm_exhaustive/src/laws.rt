//! The limits, as numbers.
ghost use Rattle.std.specs.Prelude.{◌≡◌};
ghost use Rattle.mm_exhaustive.specs.declared.cuts.TheConstants.{MAX_TRIED};

/// The limits of the slow programs, as numbers.
pub fn constants_are()
    ensures tried { MAX_TRIED ≡ 10 }
{}
