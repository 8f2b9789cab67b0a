//! Laws on exact numbers. The contract of each function is a law.
ghost use Rattle.std.specs.Prelude.{◌≡◌, ◌^◌};
ghost use Rattle.mm_mission_exact.specs.Laws.{RatesAreExact, BitsAreExact, BlocksAreExact};
ghost use Rattle.mm_mission_exact.specs.declared.rate.TheConstants.{SECOND};

/// A rate that is found is the fraction exactly, in lowest terms.
pub fn rates_are_exact()
    ensures { RatesAreExact }
{}

/// The octets of a rate by its microseconds are the bits a second by 8,000,000.
pub fn bits_are_exact()
    ensures { BitsAreExact }
{}

/// Packets a second are the octets of that many packets.
pub fn blocks_are_exact()
    ensures { BlocksAreExact }
{}

/// The number of the constant.
pub fn constants_are()
    ensures { SECOND ≡ 10 ^ 6 }
{}
