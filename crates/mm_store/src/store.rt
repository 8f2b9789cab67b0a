//! The trait that all packet stores meet.
ghost use Rattle.std.specs.Prelude.{◌≡◌, ◌↔◌, [], length, IsTrue};
ghost use Rattle.mm_store.specs.Content.{Store, IsStore, put, first_in, shown, count_up_to, delete_up_to, oldest, newest};

use crate::put::Put;
use mm_base::Kind;
use mm_packet::BlockPacket;

/// A packet store (ECSS-E-ST-70-41C, 6.15): a list of packets with their storage times, in blocks of one packet.
///
/// Contracts see its kind, its size, the last storage time that it gave and the list. No call takes memory.
pub trait PacketStore {
    /// What the store is seen as, however it is kept.
    ghost store: { Self → Store };

    /// Puts a packet at this time, in ticks. A kept packet gets the later of `now` and the tick after the last time.
    fn put(&mut self, now: u64, packet: BlockPacket) -> Put
        ensures answer { result ≡ (put (store self.old) now packet).0 }
        ensures after { store self.new ≡ (put (store self.old) now packet).1 }
        ensures sound { IsStore (store self.new) };

    /// The oldest packet from `from` to `to`, both included, that is newer than `after`; 0 is before all packets.
    #[must_use]
    fn first_in(&self, from: u64, to: u64, after: u64) -> Option<(u64, &BlockPacket)>
        ensures found { shown result ≡ first_in from to after (store self.now).content };

    /// Removes the packets with times of at most `limit`, and returns their number.
    fn delete_up_to(&mut self, limit: u64) -> u32
        ensures count { result ≡ count_up_to limit (store self.old).content }
        ensures after { store self.new ≡ delete_up_to (store self.old) limit }
        ensures sound { IsStore (store self.new) };

    /// How many packets the store holds.
    #[must_use]
    fn len(&self) -> u32
        ensures len { result ≡ length (store self.now).content }
        ensures sound { IsStore (store self.now) };

    /// Whether the store holds no packet.
    #[must_use]
    fn is_empty(&self) -> bool
        ensures empty { IsTrue result ↔ ((store self.now).content ≡ []) }
    {
        self.len() == 0
    }

    /// The oldest storage time held, in ticks, 0 where there is none.
    #[must_use]
    fn oldest(&self) -> u64
        ensures time { result ≡ oldest (store self.now).content };

    /// The newest storage time held, in ticks, 0 where there is none.
    #[must_use]
    fn newest(&self) -> u64
        ensures time { result ≡ newest (store self.now).content };

    /// Whether a full store overwrites its oldest packet or keeps what it holds.
    #[must_use]
    fn kind(&self) -> Kind
        ensures kind { result ≡ (store self.now).kind };

    /// The store's size in blocks, which is the most packets that it holds.
    #[must_use]
    fn size(&self) -> u32
        ensures size { result ≡ (store self.now).size };

    /// The last storage time that the store gave, in ticks, 0 where it gave none.
    #[must_use]
    fn last_time(&self) -> u64
        ensures last { result ≡ (store self.now).last };
}
