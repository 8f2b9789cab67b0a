//! Instructions, whose fields were tested.
ghost use Rattle.std.specs.Prelude.{◌≡◌, ◌≤◌, IfOk};
ghost use Rattle.mm_base.specs.declared.limits.TheConstants.{MAX_BLOCKS};
ghost use Rattle.mm_memory.specs.Instruction.{size_tested};

use crate::fault::Fault;
use mm_base::{Kind, MAX_BLOCKS, StoreId};
use mm_st15::Row;
use std::marker::Model;

// One instruction: the store that it names, and what is asked of it.
#[derive(Clone, Copy)]
pub(crate) struct Instruction {
    pub(crate) id: StoreId,
    pub(crate) action: Action,
}

// What an instruction asks.
#[derive(Clone, Copy)]
pub(crate) enum Action {
    // Create the store.
    Create(StoreConfig),
    // Delete it.
    Delete,
    // Change its storage control by a report type.
    Route(RouteChange, Row),
    // Report on it.
    Report,
    // Change it.
    Change(StoreChange),
}

// Whether a report type is added to the storage control, or deleted.
#[derive(Clone, Copy)]
pub(crate) enum RouteChange {
    Add,
    Delete,
}

// A store to be created.
#[derive(Clone, Copy)]
pub(crate) struct StoreConfig {
    pub(crate) size: Blocks,
    pub(crate) kind: Kind,
    pub(crate) channel: u8,
}

// A change of one store.
#[derive(Clone, Copy)]
pub(crate) enum StoreChange {
    // Switch storage on, or off.
    Enable,
    Disable,
    // Begin a retrieval from a first to a last storage time, or end it.
    Begin(u64, u64),
    Abort,
    // Delete content up to a storage time.
    DeleteContent(u64),
    // Set the size, the kind or the virtual channel.
    Resize(Blocks),
    SetKind(Kind),
    SetChannel(u8),
}

// The size of a store in blocks, which is in its range. Contracts see it as a number.
#[derive(Clone, Copy)]
pub(crate) struct Blocks(u32);

impl Model for Blocks {
    ghost use Rattle.std.specs.Prelude.{ℕ, ◌≤◌};
    ghost use Rattle.mm_base.specs.declared.limits.TheConstants.{MAX_BLOCKS};

    ghost Value = { ℕ };

    ghost view = { λ a. a.0 };

    ghost invariant = { λ a. (1 ≤ a.0) × (a.0 ≤ MAX_BLOCKS) };

    ghost inverse = { λ n. record { 0 = n } };
}

impl Blocks {
    // The size, where it is in its range.
    pub(crate) fn of(size: u32) -> Result<Blocks, Fault>
        ensures { result ≡ size_tested size }
    {
        if size == 0 || size > MAX_BLOCKS {
            Err(Fault::BadSize)
        } else {
            Ok(Blocks(size))
        }
    }

    pub(crate) fn count(self) -> u32
        ensures value { result ≡ self }
        ensures at_least { 1 ≤ result }
        ensures at_most { result ≤ MAX_BLOCKS }
    {
        self.0
    }
}
