//! Why a mission has no exact numbers.

use std::alloc::{AllocError, AllocFailed};
use thiserror::Error;

/// A number that is out of range.
#[derive(Clone, Copy, Debug, PartialEq, Eq, Error)]
pub enum Number {
    #[error("the size of the store")]
    Size,
    #[error("what is held by the store")]
    Holds,
    #[error("the packets of a unit of the store")]
    Unit,
    #[error("the rate of the pass")]
    Link,
    #[error("the rate of channel {0} in the pass")]
    Channel(u8),
    #[error("the rate of the observation")]
    Arrival,
    /// The time in which the octets of this observation and of earlier ones of its store are whole.
    #[error("the common time of its store's observations, up to the one")]
    Micros,
    /// The octets in that time.
    #[error("the octets in the common time of its store's observations, of the one")]
    Octets,
}

/// Why a mission has no exact numbers: its first fault, in this order of tables, then row by row, and in a row in this
/// order. Rows count from 1.
#[derive(Clone, Copy, Debug, PartialEq, Eq, Error)]
pub enum Fault {
    #[error("an allocation was refused")]
    NoMemory,
    #[error("no begin or no end, no pass and no observation")]
    NoTime,
    #[error("the mission does not end after it begins")]
    NotLater,
    #[error("not from 1 to 16 stores")]
    StoreCount,
    #[error("the store in row {row} has the identifier of an earlier one")]
    StoreTwice { row: usize },
    /// No octets, more than a block has, or more than 1,024.
    #[error("a packet of the store in row {row} does not fit a block")]
    BadPacket { row: usize },
    #[error("the store in row {row} has no room for a packet")]
    NoRoom { row: usize },
    #[error("the store in row {row} holds more than it has room for")]
    TooFull { row: usize },
    #[error("the station in row {row} has the name of an earlier one")]
    StationTwice { row: usize },
    #[error("the pass in row {row} is over no station of the table")]
    NoStation { row: usize },
    #[error("the pass in row {row} and its station have no rate")]
    NoRate { row: usize },
    /// Over one station, or where nothing is said of passes that overlap.
    #[error("the pass in row {row} overlaps an earlier one")]
    Overlap { row: usize },
    #[error("the observation in row {row} is of no store")]
    NoStore { row: usize },
    #[error("out of range: {number} in row {row}")]
    OutOfRange { number: Number, row: usize },
}

impl<T: Drop> From<AllocFailed<T>> for Fault {
    ghost use Rattle.std.specs.Prelude.{◌≡◌};
    ghost use Rattle.mm_mission_exact.specs.declared.fault.Fault.TheVariants.{NoMemory};

    ghost from_gives = { λ _ e. e ≡ NoMemory };

    fn from(_error: AllocFailed<T>) -> Fault {
        Fault::NoMemory
    }
}

impl From<AllocError> for Fault {
    ghost use Rattle.std.specs.Prelude.{◌≡◌};
    ghost use Rattle.mm_mission_exact.specs.declared.fault.Fault.TheVariants.{NoMemory};

    ghost from_gives = { λ _ e. e ≡ NoMemory };

    fn from(_error: AllocError) -> Fault {
        Fault::NoMemory
    }
}
