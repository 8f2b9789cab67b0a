//! A mass memory of which one store is switched off.
ghost use Rattle.std.specs.Prelude.{◌≡◌, IfOk, MatchOption};
ghost use Rattle.mm_desk.specs.declared.event.Event.TheVariants.{Disable};
ghost use Rattle.mm_desk.specs.Machine.{step};
ghost use Rattle.mm_memory.specs.Holdings.{memory_of, state_of};
ghost use Rattle.mm_memory.specs.Lending.{with_state};

use mm_base::StoreId;
use mm_memory::{Memory, NoMemory};
use mm_problem::Setup;
use std::alloc::Global;

/// The memory of a setup, with storage into the store of this identifier switched off, where there is one.
pub fn with_one_off(alloc: Global, setup: &Setup, id: &StoreId) -> Result<Memory, NoMemory>
    ensures off { MatchOption (state_of id.now (memory_of setup.now))
        (IfOk result (λ memory. memory ≡ memory_of setup.now))
        (λ state. IfOk result (λ memory.
        memory ≡ with_state id.now (memory_of setup.now) (step state Disable).1)) }
{
    let mut memory = Memory::of_setup(alloc, setup)?;
    if let Some(state) = memory.state_mut(id) {
        state.disable();
    }
    Ok(memory)
}
