//! Values in cells.
ghost use Rattle.std.specs.Prelude.{◌≡◌, ℕ, List, Result, IfOk};
ghost use Rattle.mm_mission_text.specs.Cells.{text_of, id_of, moment_of, rate_of, volume_of, kind_of, channel_of};
ghost use Rattle.mm_mission_text.specs.Cells.{octets_of, block_of, unit_of, overlap_of};
ghost use Rattle.mm_mission_text.specs.declared.fault.Why.{Why};

use crate::fault::Why;
use crate::text::Text;
use crate::whole::Overlap;
use mm_base::numbers::Numeral;
use mm_base::{Kind, MAX_CHANNEL, NoMemory, StoreId};
use mm_utc::{Moment, Rate, Volume};
use std::alloc::Global;
use std::marker::Model;

/// The most octets of a packet.
pub const MOST_OCTETS: u16 = 1024;

/// The octets of a packet, and of a block, if nothing else is written.
pub const OCTETS: u16 = 1024;

/// The most octets of a block.
pub const MOST_BLOCK: u32 = 1_048_576;

/// The most packets that are counted as one.
pub const MOST_UNIT: u32 = 4_294_967_295;

// A value that is written in a cell.
pub(crate) trait Cell: Drop {
    ghost reads: { List ℕ → Result Self Why };

    // The value that a text writes, or why it writes none.
    fn of_cell(alloc: Global, text: &[u8]) -> Result<Result<Self, Why>, NoMemory>
        ensures { IfOk result (λ found. found ≡ reads text.now) };
}

impl Cell for Text {
    ghost reads = { text_of };

    #[tactic(auto, using(mm_problem::proofs::TomlViews::is_utf8_decides))]
    fn of_cell(alloc: Global, text: &[u8]) -> Result<Result<Text, Why>, NoMemory> {
        match std::str::from_utf8(text) {
            Ok(text) => Ok(Ok(Text::new(alloc, text)?)),
            Err(_) => Ok(Err(Why::NotText)),
        }
    }
}

impl Cell for StoreId {
    ghost reads = { id_of };

    fn of_cell(_alloc: Global, text: &[u8]) -> Result<Result<StoreId, Why>, NoMemory> {
        match StoreId::of_text(text) {
            Ok(id) => Ok(Ok(id)),
            Err(_) => Ok(Err(Why::NotId)),
        }
    }
}

impl Cell for Moment {
    ghost reads = { moment_of };

    fn of_cell(_alloc: Global, text: &[u8]) -> Result<Result<Moment, Why>, NoMemory> {
        match Moment::parse(text) {
            Ok(moment) => Ok(Ok(moment)),
            Err(fault) => Ok(Err(Why::Moment(fault))),
        }
    }
}

impl Cell for Rate {
    ghost reads = { rate_of };

    fn of_cell(_alloc: Global, text: &[u8]) -> Result<Result<Rate, Why>, NoMemory> {
        match Rate::parse(text) {
            Ok(rate) => Ok(Ok(rate)),
            Err(fault) => Ok(Err(Why::Amount(fault))),
        }
    }
}

impl Cell for Volume {
    ghost reads = { volume_of };

    fn of_cell(_alloc: Global, text: &[u8]) -> Result<Result<Volume, Why>, NoMemory> {
        match Volume::parse(text) {
            Ok(volume) => Ok(Ok(volume)),
            Err(fault) => Ok(Err(Why::Amount(fault))),
        }
    }
}

impl Cell for Kind {
    ghost reads = { kind_of };

    fn of_cell(_alloc: Global, text: &[u8]) -> Result<Result<Kind, Why>, NoMemory> {
        if text == Kind::Bounded.word().as_bytes() {
            Ok(Ok(Kind::Bounded))
        } else if text == Kind::Circular.word().as_bytes() {
            Ok(Ok(Kind::Circular))
        } else {
            Ok(Err(Why::NotKind))
        }
    }
}

// A channel.
impl Cell for u8 {
    ghost reads = { channel_of };

    fn of_cell(_alloc: Global, text: &[u8]) -> Result<Result<u8, Why>, NoMemory> {
        match Numeral::read(text, u64::from(MAX_CHANNEL)) {
            Numeral::Number(channel) => Ok(Ok(channel as u8)),
            _ => Ok(Err(Why::NotChannel)),
        }
    }
}

// The octets of a packet.
impl Cell for u16 {
    ghost reads = { octets_of };

    fn of_cell(_alloc: Global, text: &[u8]) -> Result<Result<u16, Why>, NoMemory> {
        match Numeral::read(text, u64::from(MOST_OCTETS)) {
            Numeral::Number(octets) if octets > 0 => Ok(Ok(octets as u16)),
            _ => Ok(Err(Why::NotOctets)),
        }
    }
}

// The octets of a block.
#[derive(Drop)]
pub(crate) struct Block(pub(crate) u32);

impl Model for Block {
    ghost use Rattle.std.specs.Prelude.{ℕ};

    ghost Value = { ℕ };

    ghost view = { λ block. block.0 };
}

impl Cell for Block {
    ghost reads = { block_of };

    fn of_cell(_alloc: Global, text: &[u8]) -> Result<Result<Block, Why>, NoMemory> {
        match Numeral::read(text, u64::from(MOST_BLOCK)) {
            Numeral::Number(octets) if octets > 0 => Ok(Ok(Block(octets as u32))),
            _ => Ok(Err(Why::NotBlock)),
        }
    }
}

// How many packets are counted as one.
impl Cell for u32 {
    ghost reads = { unit_of };

    fn of_cell(_alloc: Global, text: &[u8]) -> Result<Result<u32, Why>, NoMemory> {
        match Numeral::read(text, u64::from(MOST_UNIT)) {
            Numeral::Number(packets) => Ok(Ok(packets as u32)),
            _ => Ok(Err(Why::NotNumber)),
        }
    }
}

impl Cell for Overlap {
    ghost reads = { overlap_of };

    fn of_cell(_alloc: Global, text: &[u8]) -> Result<Result<Overlap, Why>, NoMemory> {
        if text == "both".as_bytes() {
            Ok(Ok(Overlap::Both))
        } else if text == "better".as_bytes() {
            Ok(Ok(Overlap::Better))
        } else {
            Ok(Err(Why::NotOverlap))
        }
    }
}
