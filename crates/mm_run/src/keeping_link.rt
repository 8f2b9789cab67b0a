//! Links of a text that keep what is sent over them.
ghost use Rattle.std.specs.Prelude.{◌≡◌, [], map};
ghost use Rattle.mm_dump.specs.Sending.{sent_of};

use crate::link::ScriptedLink;
use mm_base::StoreId;
use mm_dump::{Link, SendFailed, TakenPacket};
use mm_packet::BlockPacket;
use mm_store::Stored;
use std::alloc::Global;
use std::marker::Model;

/// A link that fails at the sends of a text's lines, and keeps a copy of each packet that is sent over it: for tests.
/// Where memory for a copy is refused, the send fails too.
#[derive(Drop)]
pub struct KeepingLink {
    alloc: Global,
    link: ScriptedLink,
    kept: Vec<TakenPacket>,
}

impl Model for KeepingLink {
    ghost use Rattle.std.specs.Prelude.{map};
    ghost use Rattle.mm_dump.specs.Sending.{sent_of};
    ghost use Rattle.mm_run.specs.LinkView.{LinkView};

    ghost Value = { LinkView };

    ghost view = { λ k. record k.link { sent = map sent_of k.kept.items } };
}

impl KeepingLink {
    /// The link of a text, which keeps what is sent over it from now on.
    pub fn new(alloc: Global, link: ScriptedLink) -> KeepingLink
        ensures new { result ≡ record link { sent = [] } }
    {
        KeepingLink {
            alloc,
            link,
            kept: Vec::new(alloc),
        }
    }

    /// What was sent over the link, in order: each packet with its store and its storage time.
    #[must_use]
    pub fn sent(&self) -> &[TakenPacket]
        ensures sent { map sent_of result.now ≡ self.now.sent }
    {
        self.kept.as_slice()
    }
}

impl Link for KeepingLink {
    ghost sent = { λ link. link.sent };

    ghost failed = { λ link. link.failed };

    fn send(&mut self, store: &StoreId, time: u64, packet: &BlockPacket) -> Result<(), SendFailed> {
        let copy = match packet.copy(self.alloc) {
            Ok(copy) if self.kept.reserve(1).is_ok() => copy,
            _ => return Err(self.link.refuse(store)),
        };
        self.link.send(store, time, packet)?;
        self.kept.push_reserved(TakenPacket {
            store: *store,
            stored: Stored { time, packet: copy },
        });
        Ok(())
    }

    fn failures(&self) -> u64 {
        self.link.failures()
    }
}
