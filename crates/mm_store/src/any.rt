//! Packet stores of either kind.
ghost use Rattle.std.specs.Prelude.{◌≡◌, ◌<◌, ◌≤◌, ◌↔◌, length, Err, IfOk, IsOk, OnOk, OnErr};
ghost use Rattle.mm_store.specs.Content.{empty_store, first_in, shown};
ghost use Rattle.mm_store.specs.declared.fault.Fault.TheVariants.{HoldsMore};

use crate::fault::Fault;
use crate::put::Put;
use crate::ring::RingStore;
use crate::store::PacketStore;
use crate::table::BlockStore;
use mm_base::{Kind, MAX_BLOCKS, NoMemory};
use mm_packet::BlockPacket;
use std::alloc::Global;
use std::marker::Model;

/// A packet store of either kind (ECSS-E-ST-70-41C, 6.15), which may be resized and change its kind.
#[derive(Drop)]
pub struct AnyStore {
    form: Form,
}

#[derive(Drop)]
enum Form {
    Ring(RingStore),
    Blocks(BlockStore),
}

// What a call gives for the store of either form.
macro_rules! of_store {
    ($form:expr; $store:ident => $call:expr) => {
        match $form {
            Form::Ring($store) => $call,
            Form::Blocks($store) => $call,
        }
    };
}

impl Model for AnyStore {
    ghost use Rattle.mm_store.specs.Content.{Store};

    ghost Value = { Store };

    ghost use Rattle.mm_store.specs.Any.{store_of, IsOfItsKind};

    ghost view = { λ a. store_of a.form };

    ghost invariant = { λ a. IsOfItsKind a.form };
}

impl AnyStore {
    /// An empty store of this kind and size, in blocks. All its memory is taken here.
    pub fn new(alloc: Global, kind: Kind, size: u32) -> Result<AnyStore, NoMemory>
        requires lowest { 1 ≤ size }
        requires highest { size ≤ MAX_BLOCKS }
        ensures empty { IfOk result (λ store. store ≡ empty_store kind size) }
    {
        let form = match kind {
            Kind::Circular => Form::Ring(RingStore::new(alloc, size)?),
            Kind::Bounded => Form::Blocks(BlockStore::new(alloc, size)?),
        };
        Ok(AnyStore { form })
    }

    /// Sets the size, in blocks, and keeps all else. `HoldsMore` where the store holds more packets than that.
    pub fn resize(&mut self, size: u32) -> Result<(), Fault>
        requires lowest { 1 ≤ size }
        requires highest { size ≤ MAX_BLOCKS }
        ensures ok { OnOk result (self.new ≡ record self.old { size = size }) }
        ensures holds_more { (result ≡ Err HoldsMore) ↔ (size < length self.old.content) }
        ensures err { OnErr result (self.new ≡ self.old) }
    {
        of_store!(&mut self.form; store => store.resize(size))
    }

    /// Sets the kind, and keeps all else. A store that has the kind takes no memory.
    pub fn change_kind(&mut self, kind: Kind) -> Result<(), NoMemory>
        ensures ok { OnOk result (self.new ≡ record self.old { kind = kind }) }
        ensures same_kind { kind ≡ self.old.kind → IsOk result }
        ensures err { OnErr result (self.new ≡ self.old) }
    {
        if kind == self.kind() {
            return Ok(());
        }
        self.form = match &mut self.form {
            Form::Ring(ring) => Form::Blocks(BlockStore::taking(ring)?),
            Form::Blocks(blocks) => Form::Ring(RingStore::taking(blocks)?),
        };
        Ok(())
    }

    /// The packet that `first_in` finds. Where it stands at `place`, counted from the oldest packet, it is found at once, and `place`
    /// is then the place after it. Another `place` costs a search, and changes no answer.
    #[inline(always)]
    pub fn first_near(
        &self,
        from: u64,
        to: u64,
        after: u64,
        place: &mut usize,
    ) -> Option<(u64, &BlockPacket)>
        ensures found { shown result ≡ first_in from to after self.now.content }
    {
        of_store!(&self.form; store => store.first_near(from, to, after, place))
    }
}

impl PacketStore for AnyStore {
    ghost store = { λ s. s };

    #[inline(always)]
    fn put(&mut self, now: u64, packet: BlockPacket) -> Put {
        of_store!(&mut self.form; store => store.put(now, packet))
    }

    fn first_in(&self, from: u64, to: u64, after: u64) -> Option<(u64, &BlockPacket)> {
        of_store!(&self.form; store => store.first_in(from, to, after))
    }

    fn delete_up_to(&mut self, limit: u64) -> u32 {
        of_store!(&mut self.form; store => store.delete_up_to(limit))
    }

    fn len(&self) -> u32 {
        of_store!(&self.form; store => store.len())
    }

    fn oldest(&self) -> u64 {
        of_store!(&self.form; store => store.oldest())
    }

    fn newest(&self) -> u64 {
        of_store!(&self.form; store => store.newest())
    }

    fn kind(&self) -> Kind {
        of_store!(&self.form; store => store.kind())
    }

    fn size(&self) -> u32 {
        of_store!(&self.form; store => store.size())
    }

    fn last_time(&self) -> u64 {
        of_store!(&self.form; store => store.last_time())
    }
}
