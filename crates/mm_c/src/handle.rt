//! The handle of a memory: C holds a pointer to its service, which owns it.
ghost use Rattle.std.specs.Prelude.{◌≡◌, ◌↔◌, IsTrue, IsSome, Some, None, Option, is_some};
ghost use Rattle.std.specs.declared.alloc.Global.{Global};
ghost use denote.RawPtr.{null_ptr};
ghost use Rattle.mm_service.specs.Serving.{Serving};

use crate::parts::Parts;
use mm_service::Service;
use std::alloc::Global;
use std::marker::Model;

/// The pointer of a handle. Where it is open it owns a service; where it is closed it owns nothing.
#[repr(C)]
pub struct Loose {
    at: *mut u8,
    ghost heap: { Global },
    ghost service: { Option Serving },
}

impl Model for Loose {
    ghost use Rattle.std.specs.contracts.impls.GlobalAllocator.TheImpl.{ghosts};
    ghost use Rattle.mm_c.specs.Owning.{loose_owns};

    ghost also_owns = { λ l. loose_owns (ghosts.dealloc_token l.heap) l.at l.service };
}

impl Loose {
    // Takes over what the parts of a box own.
    fn put(&mut self, parts: Parts<Service, Global>)
        requires closed { self.old.service ≡ None }
        ensures open { self.new.service ≡ Some parts.value }
    {
        let Parts { at, alloc: _ } = parts;
        self.at = at as *mut u8;
    }

    // Gives the parts of a box what it owned.
    fn take(&mut self, alloc: Global) -> Parts<Service, Global>
        requires open { IsSome self.old.service }
        ensures { (self.old.service ≡ Some result.value) × (self.new.service ≡ None) }
    {
        Parts {
            at: self.at as *mut Service,
            alloc,
        }
    }
}

impl Loose {
    // Makes the pointer of a closed handle null.
    fn clear(&mut self)
        requires closed { self.old.service ≡ None }
        ensures { (self.new.service ≡ None) × (self.new.at ≡ null_ptr) }
    {
        self.at = std::ptr::null_mut();
    }
}

/// The handle of a memory, as C has it: all 0 where it is closed.
#[repr(C)]
pub struct MemoryHandle {
    pub(crate) loose: Loose,
    pub(crate) is_open: bool,
    ghost agrees: { IsTrue is_open ↔ IsTrue (is_some loose.service) },
}

impl MemoryHandle {
    // Takes out what an open handle holds, which is closed then.
    pub(crate) fn take(&mut self, alloc: Global) -> Box<Service>
        requires open { IsTrue self.old.is_open }
        ensures service { self.old.loose.service ≡ Some result.value }
        ensures closed { self.new.loose.service ≡ None }
    {
        self.is_open = false;
        self.loose.take(alloc).into_box()
    }

    // Frees what an open handle holds, which is closed then, and all 0.
    pub(crate) fn close(&mut self, alloc: Global)
        requires open { IsTrue self.old.is_open }
        ensures closed { self.new.loose.service ≡ None }
        ensures cleared { self.new.loose.at ≡ null_ptr }
    {
        let _service = self.take(alloc);
        self.loose.clear();
    }

    // Puts a service into a closed handle, which is open then.
    pub(crate) fn put(&mut self, service: Box<Service>)
        requires closed { self.old.loose.service ≡ None }
        ensures open { self.new.loose.service ≡ Some service.value }
    {
        self.is_open = true;
        self.loose.put(Parts::of(service));
    }
}
