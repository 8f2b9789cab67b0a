//! Why a step of recorders is ended.
ghost use Rattle.std.specs.Prelude.{◌≡◌};
ghost use Rattle.mm_record.specs.Causes.{cause_in};

use mm_desk::Fault;
use mm_report::Cause;

/// Why a step of recorders is ended, if recorders stopped early: a refused offer comes before out of memory.
pub fn cause_in(step: u32, why: Option<Fault>) -> Option<Cause>
    ensures cause { result ≡ cause_in step why }
{
    match why {
        None => None,
        Some(Fault::NoMemory) => Some(Cause::NoMemory { step }),
        Some(_) => Some(Cause::LogMismatch { step }),
    }
}
