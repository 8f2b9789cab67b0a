//! Why the text of a table is refused.
use crate::column::Column;
use mm_base::NoMemory;
use mm_utc::{AmountFault, MomentFault};
use std::alloc::{AllocError, AllocFailed};
use thiserror::Error;

/// Why what is written in a cell is refused.
#[derive(Clone, Copy, Debug, PartialEq, Eq, Error)]
pub enum Why {
    #[error("nothing is written")]
    Missing,
    #[error("not a text in UTF-8")]
    NotText,
    #[error("not an identifier of 1 to 8 of the characters A-Z, 0-9, _ and -")]
    NotId,
    #[error("neither bounded nor circular")]
    NotKind,
    #[error("not a channel from 0 to 7")]
    NotChannel,
    #[error("not a number of octets from 1 to 1,024")]
    NotOctets,
    #[error("{0}")]
    Moment(MomentFault),
    #[error("{0}")]
    Amount(AmountFault),
    /// The end of a span.
    #[error("not after the begin")]
    NotLater,
    /// A volume.
    #[error("a volume beside a rate")]
    BesideRate,
    #[error("not a number of octets from 1 to 1,048,576")]
    NotBlock,
    #[error("neither both nor better")]
    NotOverlap,
    #[error("not a whole number up to 4,294,967,295")]
    NotNumber,
    /// A value in TOML, as the next ones.
    #[error("not a text in quotes")]
    Unquoted,
    #[error("a decimal, which is not exact: write it in quotes, as \"2.4 kbit/s\"")]
    Decimal,
    #[error("neither a text nor a whole number nor a moment")]
    NotCell,
    #[error("not the rates of channels, as {{ 1 = \"56 kbit/s\" }}")]
    NotChannels,
    #[error("the channel has a rate in channels too")]
    Twice,
}

/// Why a table is refused: its first fault. Rows and places count from 1, and the header is no row.
#[derive(Clone, Copy, Debug, PartialEq, Eq, Error)]
pub enum Fault {
    #[error("an allocation was refused")]
    NoMemory,
    #[error("no header")]
    NoHeader,
    #[error("no such column: the name in place {place} of the header")]
    UnknownColumn {
        place: usize,
    },
    #[error("a column twice: the name in place {place} of the header")]
    RepeatedColumn {
        place: usize,
    },
    #[error("the header has no column {column}")]
    NoColumn {
        column: Column,
    },
    #[error("row {row} is not as long as the header")]
    RowLength {
        row: usize,
    },
    #[error("row {row}, column {column}: {why}")]
    Cell {
        row: usize,
        column: Column,
        why: Why,
    },
}

impl From<NoMemory> for Fault {
    ghost use Rattle.std.specs.Prelude.{◌≡◌};
    ghost use Rattle.mm_mission_text.specs.declared.fault.Fault.TheVariants.{NoMemory};

    ghost from_gives = { λ _ e. e ≡ NoMemory };

    fn from(_error: NoMemory) -> Fault {
        Fault::NoMemory
    }
}

impl From<AllocError> for Fault {
    ghost use Rattle.std.specs.Prelude.{◌≡◌};
    ghost use Rattle.mm_mission_text.specs.declared.fault.Fault.TheVariants.{NoMemory};

    ghost from_gives = { λ _ e. e ≡ NoMemory };

    fn from(_error: AllocError) -> Fault {
        Fault::NoMemory
    }
}

impl<T: Drop> From<AllocFailed<T>> for Fault {
    ghost use Rattle.std.specs.Prelude.{◌≡◌};
    ghost use Rattle.mm_mission_text.specs.declared.fault.Fault.TheVariants.{NoMemory};

    ghost from_gives = { λ _ e. e ≡ NoMemory };

    fn from(_error: AllocFailed<T>) -> Fault {
        Fault::NoMemory
    }
}
