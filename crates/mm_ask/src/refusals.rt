//! The refusals in a text, for callers that report more than its lines say.

use crate::answering::Outcome;
use mm_base::{Refusal, Refused};
use mm_memory::Answer;
use std::alloc::{AllocError, Global};

/// How many places are kept of each refusal.
pub const MOST_KEPT: u64 = 10;

/// The place of what is refused.
#[derive(Debug, Drop)]
pub enum Place {
    /// A line, by its number.
    Line(u64),
    /// An instruction of the request in a line; both count from 1.
    Instruction { line: u64, number: u64 },
    /// As it stands in an answer that `read` prints unchanged.
    Said(Vec<u8>),
}

/// A place, and the number of its refusal.
#[derive(Debug, Drop)]
pub struct RefusedPlace {
    pub place: Place,
    pub number: u8,
}

/// What is refused of a text: of each refusal the first places, in the order of the lines, and how often it comes, by
/// its number.
#[derive(Debug, Drop)]
pub struct Refusals {
    pub first: Vec<RefusedPlace>,
    pub counts: [u64; 256],
}

impl Refusals {
    pub(crate) fn new(alloc: Global) -> Refusals {
        Refusals {
            first: Vec::new(alloc),
            counts: [0; 256],
        }
    }

    // Counts a refusal of this number, and says whether its place is kept.
    fn count(&mut self, number: u8) -> bool {
        let count = &mut self.counts[usize::from(number)];
        *count = count.saturating_add(1);
        *count <= MOST_KEPT
    }

    /// Adds what is refused at a place.
    pub(crate) fn add(&mut self, place: Place, refusal: Refusal) -> Result<(), AllocError> {
        let number = refusal.number();
        if self.count(number) {
            self.first.push(RefusedPlace { place, number })?;
        }
        Ok(())
    }

    /// Adds what is refused of a request in a line.
    pub(crate) fn add_answers(&mut self, line: u64, answers: &[Answer]) -> Result<(), AllocError> {
        let mut number: u64 = 0;
        for answer in answers {
            number = number.saturating_add(1);
            if let Answer::Refused(fault) = answer {
                self.add(Place::Instruction { line, number }, fault.refusal())?;
            }
        }
        Ok(())
    }

    /// Adds the refusal that an answer printed unchanged reports, if it reports one.
    pub(crate) fn add_said(
        &mut self,
        alloc: Global,
        said: Option<(&[u8], u8)>,
    ) -> Result<(), AllocError> {
        let Some((place, number)) = said else {
            return Ok(());
        };
        if self.count(number) {
            let place = Place::Said(Vec::from_slice(alloc, place)?);
            self.first.push(RefusedPlace { place, number })?;
        }
        Ok(())
    }
}

/// The answer to a file of requests, or what one of packets reads as.
#[derive(Debug, Drop)]
pub struct Replies {
    pub outcome: Outcome,
    pub text: Vec<u8>,
    pub refused: Refusals,
}
