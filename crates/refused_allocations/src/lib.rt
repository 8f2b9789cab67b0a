//! Calls of which an allocation may be refused, in parts: each part says what its calls answered, and whether they may
//! answer so.
#![tactic(auto)]

// Telemetry with three octets of data: the source of each packet, its step, and its sequence count as two hexadecimal
// digits.
macro_rules! packets {
    ($($source:literal $step:literal $count:literal),+) => {
        concat!($($source, " ", $step, " 0864C0", $count, "0011200319000000000000000000000000010203\n"),+)
    };
}

pub mod calls;
mod data;
pub mod dumps;
mod met;
mod parts;
mod records;
mod runs;
pub mod seats;
pub mod shared;
mod traces;

pub use met::Met;
pub use parts::part_named;
