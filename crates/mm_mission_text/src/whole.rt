//! What a mission says of itself as a whole.
ghost use Rattle.std.specs.Prelude.{◌≡◌, unwrap_or};
ghost use Rattle.mm_base.specs.Reading.{Gives};
ghost use Rattle.mm_mission_text.specs.Missions.{whole_in};
ghost use Rattle.mm_mission_text.specs.Rows.{seen};
ghost use Rattle.mm_mission_text.specs.declared.cell.TheConstants.{OCTETS};
ghost use Rattle.mm_mission_text.specs.declared.fault.Fault.TheVariants.{NoMemory};

use crate::cell::{Block, OCTETS};
use crate::column::Column;
use crate::fault::Fault;
use crate::row::Row;
use crate::text::Text;
use mm_utc::Moment;
use std::alloc::Global;

/// What holds where passes overlap.
#[derive(Clone, Copy, Debug, PartialEq, Eq)]
pub enum Overlap {
    /// Each pass has a transmitter of its own.
    Both,
    /// One transmitter serves the pass that can send most.
    Better,
}

/// A mission but for its tables.
#[derive(Debug, Drop)]
pub struct Whole {
    pub name: Option<Text>,
    /// If it is not said, the mission begins with its first pass or observation, and ends with the last one.
    pub begin: Option<Moment>,
    pub end: Option<Moment>,
    /// The octets of a packet of the stores that have none of their own, from 1 to 1,024.
    pub packet: u16,
    /// The octets of a block of memory, from 1 to 1,048,576. A packet takes a block.
    pub block: u32,
    pub overlap: Option<Overlap>,
    /// How many of the longest packets a plan counts as one; 0 where that is chosen.
    pub unit: u32,
}

// The octets of a block, or those that it has if nothing is written.
fn octets_of(block: Option<Block>) -> u32
    ensures { result ≡ unwrap_or block OCTETS }
{
    match block {
        Some(Block(octets)) => octets,
        None => u32::from(OCTETS),
    }
}

impl Whole {
    // What is read of the mission as a whole.
    #[tactic(auto, unfolding(crate::specs::Missions::whole_in))]
    pub(crate) fn in_row(alloc: Global, row: &Row<'_>) -> Result<Whole, Fault>
        ensures { Gives NoMemory (λ whole. whole) result (whole_in (seen row.now)) }
    {
        let name = row.optional(alloc, Column::Name)?;
        let begin = row.optional(alloc, Column::Begin)?;
        let end = row.optional(alloc, Column::End)?;
        let packet: Option<u16> = row.optional(alloc, Column::Packet)?;
        let block = row.optional(alloc, Column::Block)?;
        let overlap = row.optional(alloc, Column::Overlap)?;
        let unit: Option<u32> = row.optional(alloc, Column::Unit)?;
        Ok(Whole {
            name,
            begin,
            end,
            packet: packet.unwrap_or(OCTETS),
            block: octets_of(block),
            overlap,
            unit: unit.unwrap_or(0),
        })
    }
}
