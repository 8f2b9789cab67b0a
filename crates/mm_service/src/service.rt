//! The service: a memory, the numbers of its reports, those that wait, how many may wait, and what is kept for packets
//! and requests that come when there is no memory.
ghost use Rattle.std.specs.Prelude.{◌≡◌};
ghost use Rattle.mm_base.specs.Reading.{Gives};
ghost use Rattle.mm_problem.specs.declared.fault.Fault.TheVariants.{NoMemory};

use crate::reserve::Reserve;
use crate::waiting::Waiting;
use mm_ask::Counters;
use mm_memory::{Memory, Spare};
use mm_problem::{Fault, Setup};
use std::alloc::Global;
use std::collections::VecDeque;
use std::marker::Model;

/// A mass memory with its storage service: the memory, how many reports there were, the reports that wait to be given,
/// how many may wait, where that is bounded, and how many packets were refused out of memory. Memory is kept for one
/// packet and one request.
#[derive(Drop)]
pub struct Service {
    pub(crate) memory: Memory,
    pub(crate) counters: Counters,
    pub(crate) waiting: VecDeque<Waiting>,
    pub(crate) bound: Option<usize>,
    pub(crate) refused: u64,
    pub(crate) spare: Spare,
    pub(crate) reserve: Reserve,
}

impl Model for Service {
    ghost use Rattle.mm_service.specs.Serving.{Serving};

    ghost Value = { Serving };

    ghost view = { λ s. record {
      memory = s.memory;
      counts = s.counters;
      waiting = s.waiting.items;
      bound = s.bound;
      refused = s.refused;
    } };
}

impl Service {
    ghost use Rattle.std.specs.Prelude.{IfOk};
    ghost use Rattle.mm_memory.specs.Holdings.{memory_of};
    ghost use Rattle.mm_service.specs.Serving.{opened, opened_of};

    /// The service of a setup's memory, as `Memory::of_setup` of `mm_memory` makes it: no report was made, none waits,
    /// no bound is set on how many may wait, and no packet was refused out of memory.
    pub fn open(alloc: Global, setup: &[u8]) -> Result<Service, Fault>
        ensures opened { Gives NoMemory (λ service. service) result (opened_of setup.now) }
    {
        let setup = Setup::read(alloc, setup)?;
        match Service::of_setup(alloc, &setup) {
            Ok(service) => Ok(service),
            Err(_) => Err(Fault::NoMemory),
        }
    }

    // The service of the memory of a setup that was read.
    fn of_setup(alloc: Global, setup: &Setup) -> Result<Service, mm_base::NoMemory>
        ensures opened { IfOk result (λ service. service ≡ opened (memory_of setup.now)) }
    {
        let mut spare = Spare::none();
        spare.fill(alloc)?;
        Ok(Service {
            memory: Memory::of_setup(alloc, setup)?,
            counters: Counters::new(),
            waiting: VecDeque::new(alloc),
            bound: None,
            refused: 0,
            spare,
            reserve: Reserve::new(alloc)?,
        })
    }
}
