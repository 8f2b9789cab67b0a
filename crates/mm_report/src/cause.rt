//! Why a run did not begin, or was halted.
ghost use Rattle.std.specs.Prelude.{◌≡◌};

use mm_base::{Refusal, Refused, StoreId};
use std::error::Error;
use std::fmt;

/// The latest moment before the first step, and the latest last storage time of a store, with which a run may begin, in ticks.
pub const LATEST_START: u64 = 0x8000_0000_0000_0000;

/// The most sources of a run.
pub const MAX_SOURCES: usize = 8;

/// Why a run did not begin, or was halted. It is shown as its number and its name.
#[derive(Clone, Copy, Debug, PartialEq, Eq)]
pub enum Cause {
    /// No run can carry out the problem's steps: its arrivals come during dumps, or it has sizes by step.
    NotFlyable,
    /// The plan is for another number of stores or of steps than the problem has.
    PlanShape,
    /// A store of the problem is missing, its storage is off or a retrieval is on, or the store is none of the problem's.
    NotReady { store: StoreId },
    /// A store has another size than the problem says.
    SizeDiffers { store: StoreId },
    /// A store does not hold its start volume.
    OpeningDiffers { store: StoreId },
    /// A store has another virtual channel than the problem says, and a channel of the problem has a limit.
    ChannelDiffers { store: StoreId },
    /// The moment before the first step, or the last storage time of a store, is later than `LATEST_START`.
    ClockTooLate,
    /// The plan passes the window of this step, or the limit of a channel in it.
    PlanDoesNotFit { step: u32 },
    /// There is no source or no link, or there are too many.
    Counts,
    /// An allocation was refused in this step; before the first step in step 0.
    NoMemory { step: u32 },
    /// A link did not take a packet in this step.
    LinkFailed { step: u32 },
    /// In this step a store refused a packet. Within the limits of a run no store does (`far` of `carry_out` and `fly` in `mm_exec`).
    LogMismatch { step: u32 },
}

impl fmt::Display for Cause {
    fn fmt<W: fmt::Write>(&self, f: &mut fmt::Formatter<W>) -> fmt::Result {
        write!(f, "{}", self.refusal())
    }
}

impl Error for Cause {}

impl Refused for Cause {
    fn refusal(self) -> Refusal {
        match self {
            Cause::NotFlyable => Refusal::NotFlyable,
            Cause::PlanShape => Refusal::PlanShape,
            Cause::NotReady { .. } => Refusal::NotReady,
            Cause::SizeDiffers { .. } => Refusal::SizeDiffers,
            Cause::OpeningDiffers { .. } => Refusal::OpeningDiffers,
            Cause::ChannelDiffers { .. } => Refusal::ChannelDiffers,
            Cause::ClockTooLate => Refusal::ClockTooLate,
            Cause::PlanDoesNotFit { .. } => Refusal::PlanDoesNotFit,
            Cause::Counts => Refusal::Counts,
            Cause::NoMemory { .. } => Refusal::NoMemoryInStep,
            Cause::LinkFailed { .. } => Refusal::LinkFailed,
            Cause::LogMismatch { .. } => Refusal::LogMismatch,
        }
    }

    ghost use Rattle.mm_report.specs.Cause.{refusal_of};

    ghost refusal_of = { refusal_of };
}
