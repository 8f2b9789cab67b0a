//! A store with room for two packets, into which three are put.
ghost use Rattle.std.specs.Prelude.{◌≡◌, IfOk};
ghost use Rattle.mm_base.specs.declared.kind.Kind.TheVariants.{Circular, Bounded};
ghost use Rattle.mm_store.specs.declared.put.Put.TheVariants.{KeptOver, Lost};

use mm_base::Kind;
use mm_packet::{BlockPacket, NoMemory};
use mm_store::{AnyStore, PacketStore, Put};
use std::alloc::Global;

/// What a store with room for two packets answers to the third, put at the time 7.
pub fn third_of_two(
    alloc: Global,
    kind: Kind,
    first: BlockPacket,
    second: BlockPacket,
    third: BlockPacket,
) -> Result<Put, NoMemory>
    ensures bounded { kind ≡ Bounded → IfOk result (λ answer. answer ≡ Lost third) }
    ensures circular { kind ≡ Circular → IfOk result (λ answer. answer ≡ KeptOver 7 first) }
{
    let mut store = AnyStore::new(alloc, kind, 2)?;
    store.put(5, first);
    store.put(6, second);
    Ok(store.put(7, third))
}
