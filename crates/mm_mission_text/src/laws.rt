//! What the definitions of this crate mean. Each function is a law, which its contract states.
ghost use Rattle.std.specs.Prelude.{◌≡◌, ◌-◌, ◌^◌};
ghost use Rattle.mm_mission_text.specs.declared.cell.TheConstants.{MOST_OCTETS, OCTETS, MOST_BLOCK, MOST_UNIT};

/// The numbers of the constants.
pub fn constants_are()
    ensures most { MOST_OCTETS ≡ 1024 }
    ensures octets { OCTETS ≡ 1024 }
    ensures block { MOST_BLOCK ≡ 2 ^ 20 }
    ensures unit { MOST_UNIT ≡ 2 ^ 32 - 1 }
{}
