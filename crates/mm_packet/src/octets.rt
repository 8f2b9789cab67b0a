//! A list of octets that its copies share.
ghost use Rattle.std.specs.Prelude.{◌≡◌, IfOk, IfErr, IfSome};

use std::alloc::{AllocError, AllocFailed, Global};
use std::marker::Model;
use std::sync::Arc;

/// A list of octets, which contracts see as that list. Copies share the octets.
#[derive(Debug, Drop)]
pub struct Octets {
    bytes: Arc<Vec<u8>, Global>,
}

impl Model for Octets {
    ghost use Rattle.std.specs.Prelude.{ℕ, List};
    ghost use Rattle.std.specs.Arc.{arc_value};

    ghost Value = { List ℕ };

    ghost view = { λ o. (arc_value o.bytes).items };
}

impl Octets {
    /// The octets of a list, which comes back where there is no memory to share it.
    pub fn new(bytes: Vec<u8>) -> Result<Octets, AllocFailed<Vec<u8>>>
        ensures octets { IfOk result (λ octets. octets ≡ bytes.items) }
        ensures back { IfErr result (λ failed. failed.value ≡ bytes) }
    {
        let alloc = *bytes.allocator();
        let bytes = Arc::new(alloc, bytes)?;
        Ok(Octets { bytes })
    }

    // The octets of a slice.
    pub(crate) fn of(alloc: Global, octets: &[u8]) -> Result<Octets, AllocError>
        ensures octets { IfOk result (λ list. list ≡ octets.now) }
    {
        let bytes = Vec::from_slice(alloc, octets)?;
        let list = Octets::new(bytes)?;
        Ok(list)
    }

    // The octets of a slice, in memory for at least `room` octets.
    pub(crate) fn with_room(alloc: Global, octets: &[u8], room: usize) -> Result<Octets, AllocError>
        ensures octets { IfOk result (λ list. list ≡ octets.now) }
    {
        let mut bytes = Vec::with_capacity(alloc, room)?;
        bytes.extend_from_slice(octets)?;
        let list = Octets::new(bytes)?;
        Ok(list)
    }

    // How many packets share them, this one included.
    pub(crate) fn owners(&self) -> usize {
        Arc::strong_count(&self.bytes)
    }

    // The octets of a slice in the memory of these. `None` if these are shared. No memory is taken if they have room
    // for them.
    pub(crate) fn refilled(mut self, octets: &[u8]) -> Option<Octets>
        ensures octets { IfSome result (λ list. list ≡ octets.now) }
    {
        let bytes = Arc::get_mut(&mut self.bytes)?;
        bytes.clear();
        bytes.extend_from_slice(octets).ok()?;
        Some(self)
    }

    #[must_use]
    pub fn as_slice(&self) -> &[u8]
        ensures octets { result.now ≡ self.now }
    {
        self.bytes.as_slice()
    }

    // The same octets once more. Memory is taken only where they have 2^63 owners.
    pub(crate) fn copy(&self, alloc: Global) -> Result<Octets, AllocError>
        ensures octets { IfOk result (λ copy. copy ≡ self.now) }
    {
        match Arc::try_clone(&self.bytes) {
            Ok(bytes) => Ok(Octets { bytes }),
            Err(_) => Octets::of(alloc, self.as_slice()),
        }
    }
}
