//! The trait that the faults of all crates meet: each fault is one of the refusals.
ghost use Rattle.std.specs.Prelude.{◌≡◌};
ghost use Rattle.mm_base.specs.Refusals.{number_of, name_of};
ghost use Rattle.mm_base.specs.declared.refusal.Refusal.{Refusal};

use crate::refusal::Refusal;

/// A fault that is one of the refusals, with its number and its name.
pub trait Refused {
    /// Which refusal the fault is.
    ghost refusal_of: { Self → Refusal };

    fn refusal(self) -> Refusal
        ensures refusal { result ≡ refusal_of self };

    /// The refusal's number.
    final fn number(self) -> u8
    where
        Self: Sized,
        ensures number { result ≡ number_of (refusal_of self) }
    {
        self.refusal().number()
    }

    /// The refusal's name.
    final fn name(self) -> &'static str
    where
        Self: Sized,
        ensures name { result.now ≡ name_of (refusal_of self) }
    {
        self.refusal().name()
    }
}

/// The refusal of each case of a fault. A case listed first, or after `with` if it has fields, is the refusal of the
/// same name. After `but`, `A as B` says that the case `A` is the refusal `B`. A case after `below` holds a fault of a
/// lower crate, and is that fault's refusal.
#[macro_export]
macro_rules! refusals {
    ($fault:expr; $($same:ident),* $(; with $($field:ident),*)? $(; but $($case:ident as $other:ident),*)? $(;
        below $($lower:ident),*)?) => {
        match $fault {
            $(Self::$same => Refusal::$same,)*
            $($(Self::$field { .. } => Refusal::$field,)*)?
            $($(Self::$case => Refusal::$other,)*)?
            $($(Self::$lower(fault) => fault.refusal(),)*)?
        }
    };
}

/// Turns a fault of a lower crate into a fault of this crate: `NoMemory` stays `NoMemory`, and the named case holds any
/// other fault.
#[macro_export]
macro_rules! passed_on {
    ($fault:expr; $lower:ident as $case:ident) => {
        match $fault {
            $lower::Fault::NoMemory => Self::NoMemory,
            fault => Self::$case(fault),
        }
    };
}
