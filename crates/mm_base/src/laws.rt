//! What the definitions of this crate mean. Each function is a law, which its contract states.
ghost use Rattle.std.specs.Prelude.{◌≡◌};
ghost use Rattle.mm_base.specs.Laws.{ReadsNumbers};
ghost use Rattle.mm_base.specs.declared.limits.TheConstants.{MAX_STORES, MAX_STEPS, MAX_BLOCKS, MAX_CHANNEL, CHANNELS};
ghost use Rattle.mm_base.specs.declared.limits.TheConstants.{MAX_APID, MAX_ROUTES};

/// A text is read as a number up to a bound if and only if the number is within the bound and is printed as that text.
pub fn numbers()
    ensures { ReadsNumbers }
{}

/// The numbers of the constants.
pub fn constants_are()
    ensures stores { MAX_STORES ≡ 16 }
    ensures steps { MAX_STEPS ≡ 256 }
    ensures blocks { MAX_BLOCKS ≡ 1000000 }
    ensures channel { MAX_CHANNEL ≡ 7 }
    ensures channels { CHANNELS ≡ 8 }
    ensures apid { MAX_APID ≡ 2046 }
    ensures routes { MAX_ROUTES ≡ 256 }
{}
