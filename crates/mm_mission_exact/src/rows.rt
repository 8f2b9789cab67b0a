//! What a mission's texts say.

use mm_mission_text::{Observation, PacketStore, Pass, Station, Whole};

/// A mission as its texts say it.
#[derive(Clone, Copy)]
pub struct Rows<'a> {
    pub whole: &'a Whole,
    pub stores: &'a [PacketStore],
    pub stations: &'a [Station],
    pub passes: &'a [Pass],
    pub observations: &'a [Observation],
}
