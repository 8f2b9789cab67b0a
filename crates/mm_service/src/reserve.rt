//! Memory that is kept for requests.

use mm_base::NoMemory;
use std::alloc::Global;

// What a request of 255 instructions takes while it is applied, in octets: its data, what counts their owners, its
// instructions, these with their fields, and the answers.
const SIZES: [usize; 5] = [6_144, 32, 6_144, 12_240, 768];

// Memory for a request that comes when there is no other. It is given back to the allocator before such a request is
// applied, and taken again after it.
#[derive(Drop)]
pub(crate) struct Reserve {
    blocks: Vec<Vec<u8>>,
}

impl Reserve {
    // Memory for a request.
    pub(crate) fn new(alloc: Global) -> Result<Reserve, NoMemory> {
        let blocks = Vec::with_capacity(alloc, SIZES.len())?;
        let mut reserve = Reserve { blocks };
        reserve.fill(alloc)?;
        Ok(reserve)
    }

    // Takes what is lacking.
    pub(crate) fn fill(&mut self, alloc: Global) -> Result<(), NoMemory> {
        for size in SIZES.iter().skip(self.blocks.len()) {
            self.blocks.push(Vec::with_capacity(alloc, *size)?)?;
        }
        Ok(())
    }

    // Gives it back to the allocator.
    pub(crate) fn release(&mut self) {
        self.blocks.clear();
    }
}
