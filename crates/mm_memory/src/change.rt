//! Changing one store.
ghost use Rattle.std.specs.Prelude.{◌≡◌};
ghost use Rattle.mm_memory.specs.Acting.{act, TakesMemory};
ghost use Rattle.mm_memory.specs.Applying.{ComesUnlessNoMemory};

use crate::fault::Fault;
use crate::instruction::StoreChange;
use mm_desk::Held;

// Changes a store, which keeps its identifier.
pub(crate) fn change_store(held: &mut Held, change: &StoreChange) -> Result<(), Fault>
    ensures done { ComesUnlessNoMemory (TakesMemory change.now held.old) (act change.now held.old)
        held.old (result, held.new) }
    ensures same_id { held.new.id ≡ held.old.id }
{
    match change {
        StoreChange::Enable => {
            held.state.enable();
            Ok(())
        }
        StoreChange::Disable => {
            held.state.disable();
            Ok(())
        }
        StoreChange::Begin(from, to) => Ok(held.state.begin(*from, *to)?),
        StoreChange::Abort => Ok(held.state.abort()?),
        StoreChange::DeleteContent(limit) => {
            let _count = held.state.delete(*limit)?;
            Ok(())
        }
        StoreChange::Resize(size) => Ok(held.state.resize(size.count())?),
        StoreChange::SetKind(kind) => Ok(held.state.change_kind(*kind)?),
        StoreChange::SetChannel(channel) => {
            held.state.at_rest()?;
            held.channel = *channel;
            Ok(())
        }
    }
}
