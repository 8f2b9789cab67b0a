//! Links to the ground.
ghost use Rattle.std.specs.Prelude.{◌≡◌, ℕ, ◌↔◌, ◌+◌, ◌-◌, ◌<◌, ◌^◌, List, [], ◌∷◌, ◌++◌, OnOk, OnErr, All, IsTrue};
ghost use Rattle.mm_dump.specs.Sending.{Sent, sent_at};

use mm_base::{Refusal, Refused, StoreId};
use mm_packet::BlockPacket;
use thiserror::Error;

/// A link to the ground, over which a dump sends packets: a mission implements it for its radio.
///
/// Contracts see a link as the list of what was ever sent over it and as the number of sends that failed. A link need
/// not keep the packets for that: what its contract speaks of may be a `Snapshot`, which has no bytes.
///
/// # Examples
///
/// A link that takes this many packets and keeps each with its store; every later send fails:
///
/// ```text
/// impl Link for Downlink {
///     ghost sent = { λ link. map (λ x. record { store = x.0; stored = x.1 }) link.taken.items };
///
///     ghost failed = { λ link. link.failed };
///
///     fn send(&mut self, store: &StoreId, time: u64, packet: &BlockPacket) -> Result<(), SendFailed> {
///         if self.taken.len() < self.most {
///             if let Ok(packet) = packet.copy(self.alloc) {
///                 if self.taken.push((*store, Stored { time, packet })).is_ok() {
///                     return Ok(());
///                 }
///             }
///         }
///         self.failed += 1;
///         Err(SendFailed)
///     }
///
///     fn failures(&self) -> u64 {
///         self.failed
///     }
/// }
/// ```
pub trait Link {
    ghost sent: { Self → List Sent };

    ghost failed: { Self → ℕ };

    /// Sends one packet of a store, whole. `time` is its storage time in ticks of the memory's clock. `Ok` says that
    /// the link took the packet, which may then be deleted from its store; `Err` that it sent nothing, and the packet
    /// stays stored.
    fn send(&mut self, store: &StoreId, time: u64, packet: &BlockPacket) -> Result<(), SendFailed>
        requires room { failed self.old < 2 ^ 64 - 1 }
        ensures ok { OnOk result (sent self.new ≡ sent self.old ++ sent_at store.now time packet.now ∷ []) }
        ensures no_failure { OnOk result (failed self.new ≡ failed self.old) }
        ensures err { OnErr result (sent self.new ≡ sent self.old) }
        ensures failure { OnErr result (failed self.new ≡ failed self.old + 1) };

    /// How many sends have failed since the link was made.
    fn failures(&self) -> u64
        ensures failures { result ≡ failed self.now };
}

/// Whether one more failure of each link can still be counted, which `Link::send` and a dump require.
pub fn may_fail<L: Link>(links: &[L]) -> bool
    ensures may { IsTrue result ↔ All (λ l. L.failed l < 2 ^ 64 - 1) links.now }
{
    links.iter().all(|link| link.failures() < u64::MAX)
}

/// A link did not take a packet.
#[derive(Clone, Copy, Debug, PartialEq, Eq, Error)]
#[error("{}", self.refusal())]
pub struct SendFailed;

impl Refused for SendFailed {
    ghost use Rattle.mm_base.specs.declared.refusal.Refusal.TheVariants as refusal;

    ghost refusal_of = { λ _. refusal.LinkFailed };

    fn refusal(self) -> Refusal {
        Refusal::LinkFailed
    }
}
