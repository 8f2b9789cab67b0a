//! A request to the storage service, as a telecommand and read again.
ghost use Rattle.std.specs.Prelude.{◌≡◌, [], ◌∷◌, IfOk, IfErr};
ghost use Rattle.mm_st15.specs.declared.request.Request.TheVariants.{EnableStorage};

use mm_st15::{Entries, Fault, Request, Target};
use std::alloc::Global;

/// The request to enable storage into a store, written as a telecommand of APID 100 and read from it.
pub fn enable_again(alloc: Global, id: [u8; 8]) -> Result<Request, Fault>
    ensures same { IfOk result (λ read. read ≡ EnableStorage (record { id = id } ∷ [])) }
    ensures memory { IfErr result (λ fault. fault ≡ Fault.NoMemory) }
{
    let request = Request::EnableStorage(Entries::new(Vec::from_slice(alloc, &[Target { id }])?));
    let Ok(packet) = request.write(alloc, 100, 0, 0, 0) else {
        return Err(Fault::NoMemory);
    };
    let read = Request::read(alloc, &packet)?;
    Ok(read)
}
