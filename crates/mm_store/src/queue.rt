//! Queues of packets, and the reading and deleting of packets that every queue serves alike.
ghost use Rattle.std.specs.Prelude.{◌≡◌, ◌+◌, ◌-◌, ◌<◌, ◌≤◌, ◌↔◌, max, [], ◌∷◌, ◌++◌, length, take, drop, slice_get, All, IsTrue, IfOk, OnOk, OnErr};
ghost use Rattle.circular_buffer.specs.Buffer.{Buffer, buffer};
ghost use Rattle.mm_base.specs.declared.kind.Kind.{Kind};
ghost use Rattle.mm_store.specs.declared.stored.Stored.{Stored};
ghost use Rattle.mm_store.specs.Content.{IsRising, first_in, shown, kept_after, count_up_to, oldest, newest};
ghost use Rattle.mm_store.specs.Queue.{begins_by, IsPlaceAfter};

use crate::stored::Stored;
use mm_base::Kind;
use mm_packet::BlockPacket;
use std::alloc::{AllocError, Global};

/// A queue of packets with their times, with room for a fixed number of them. All its memory is taken when it is made.
pub trait PacketQueue: Drop + Sized {
    ghost held: { Self → Buffer Stored };

    ghost kind: { Kind };

    /// The kind of the stores over such queues.
    fn kind() -> Kind
        ensures kind { result ≡ kind };

    /// An empty queue with room for this many packets.
    fn with_room(alloc: Global, room: u32) -> Result<Self, AllocError>
        ensures empty { IfOk result (λ queue. held queue ≡ buffer [] room) };

    fn allocator(&self) -> Global;

    fn len(&self) -> usize
        ensures len { result ≡ length (held self.now).items };

    fn capacity(&self) -> usize
        ensures capacity { result ≡ (held self.now).capacity };

    /// The packet at this place, counted from the oldest.
    fn at(&self, place: usize) -> &Stored
        requires { place < length (held self.now).items }
        ensures at { slice_get (held self.now).items place ≡ Some result.now };

    fn append(&mut self, newest: Stored)
        requires { length (held self.old).items < (held self.old).capacity }
        ensures appended { held self.new ≡ buffer ((held self.old).items ++ newest ∷ []) (held self.old).capacity };

    fn take_oldest(&mut self) -> Stored
        requires { 0 < length (held self.old).items }
        ensures oldest { (held self.old).items ≡ result ∷ (held self.new).items }
        ensures capacity { (held self.new).capacity ≡ (held self.old).capacity };

    /// Appends the packet, and takes the oldest for it.
    fn replace_oldest(&mut self, newest: Stored) -> Stored
        requires some { 0 < length (held self.old).items }
        requires full { length (held self.old).items ≡ (held self.old).capacity }
        ensures replaced { (held self.old).items ++ newest ∷ [] ≡ result ∷ (held self.new).items }
        ensures capacity { (held self.new).capacity ≡ (held self.old).capacity }
    {
        let oldest = self.take_oldest();
        self.append(newest);
        oldest
    }
}

// Whether there is an oldest packet, with a time of at most `limit`.
fn begins_by<Q: PacketQueue>(queue: &Q, limit: u64) -> bool
    ensures { result ≡ begins_by limit (Q.held queue.now).items }
{
    queue.len() > 0 && queue.at(0).time <= limit
}

// Removes the packets with times of at most `limit`, and returns their number.
pub(crate) fn delete_up_to<Q: PacketQueue>(queue: &mut Q, limit: u64) -> usize
    requires { IsRising (Q.held queue.old).items }
    ensures kept { Q.held queue.new ≡ buffer (kept_after limit (Q.held queue.old).items) (Q.held queue.old).capacity }
    ensures count { result ≡ count_up_to limit (Q.held queue.old).items }
{
    let held = queue.len();
    while begins_by(queue, limit) {
        let _removed = queue.take_oldest();
    }
    held - queue.len()
}

// Whether all packets before this place have times of at most `passed`.
fn are_early_before<Q: PacketQueue>(queue: &Q, passed: u64, place: usize) -> bool
    requires rising { IsRising (Q.held queue.now).items }
    requires within { place ≤ length (Q.held queue.now).items }
    ensures { IsTrue result ↔ All (λ p. p.time ≤ passed) (take place (Q.held queue.now).items) }
{
    place == 0 || queue.at(place - 1).time <= passed
}

// Whether all packets from this place on have times later than `passed`.
fn are_late_from<Q: PacketQueue>(queue: &Q, passed: u64, place: usize) -> bool
    requires rising { IsRising (Q.held queue.now).items }
    requires within { place ≤ length (Q.held queue.now).items }
    ensures { IsTrue result ↔ All (λ p. passed < p.time) (drop place (Q.held queue.now).items) }
{
    place == queue.len() || passed < queue.at(place).time
}

// Whether the oldest packet with a time later than `passed` stands at this place; the number of packets where there is none.
fn is_place_after<Q: PacketQueue>(queue: &Q, passed: u64, place: usize) -> bool
    requires { IsRising (Q.held queue.now).items }
    ensures { IsTrue result ↔ IsPlaceAfter passed place (Q.held queue.now).items }
{
    place <= queue.len()
        && are_early_before(queue, passed, place)
        && are_late_from(queue, passed, place)
}

// Whether the oldest packet with a time later than `passed` stands at this place. Where its time is the next tick, no packet before it
// is looked at.
#[inline(always)]
fn is_next_at<Q: PacketQueue>(queue: &Q, passed: u64, place: usize) -> bool
    requires rising { IsRising (Q.held queue.now).items }
    requires within { place < length (Q.held queue.now).items }
    ensures { IsTrue result → IsPlaceAfter passed place (Q.held queue.now).items }
{
    let time = queue.at(place).time;
    if time <= passed {
        return false;
    }
    time - passed == 1 || are_early_before(queue, passed, place)
}

// The place of the oldest packet with a time later than `passed`, where each tick from the oldest packet on has one.
fn place_by_ticks<Q: PacketQueue>(queue: &Q, passed: u64) -> usize {
    passed.saturating_add(1).saturating_sub(oldest(queue)) as usize
}

// The place of the oldest packet with a time later than `passed`, or the number of packets: a search by halves.
fn search_place<Q: PacketQueue>(queue: &Q, passed: u64) -> usize
    requires { IsRising (Q.held queue.now).items }
    ensures { IsPlaceAfter passed result (Q.held queue.now).items }
{
    let mut low = 0;
    let mut high = queue.len();
    while low < high {
        let middle = low + (high - low) / 2;
        if queue.at(middle).time <= passed {
            low = middle + 1;
        } else {
            high = middle;
        }
    }
    low
}

// The place of the oldest packet with a time later than `passed`, or the number of packets. Where packets follow one another tick by
// tick it is found at once.
#[inline(never)]
fn first_place<Q: PacketQueue>(queue: &Q, passed: u64) -> usize
    requires { IsRising (Q.held queue.now).items }
    ensures { IsPlaceAfter passed result (Q.held queue.now).items }
{
    let guess = place_by_ticks(queue, passed);
    if is_place_after(queue, passed, guess) {
        return guess;
    }
    search_place(queue, passed)
}

// The last time that is too early for a look-up from `from` on and after `after`.
#[inline(always)]
fn last_passed(from: u64, after: u64) -> u64
    ensures { result ≡ max (from - 1) after }
{
    from.saturating_sub(1).max(after)
}

// The oldest packet from `from` to `to` that is newer than `after`, with its time. `next` becomes the place after it.
#[inline(always)]
fn search_in<'a, Q: PacketQueue>(
    queue: &'a Q,
    from: u64,
    to: u64,
    after: u64,
    next: &mut usize,
) -> Option<(u64, &'a BlockPacket)>
    requires { IsRising (Q.held queue.now).items }
    ensures { shown result ≡ first_in from to after (Q.held queue.now).items }
{
    let passed = last_passed(from, after);
    let place = first_place(queue, passed);
    if place == queue.len() {
        return None;
    }
    let stored = queue.at(place);
    if stored.time > to {
        return None;
    }
    *next = place + 1;
    Some((stored.time, &stored.packet))
}

// The oldest packet from `from` to `to` that is newer than `after`, with its time.
pub(crate) fn first_in<Q: PacketQueue>(
    queue: &Q,
    from: u64,
    to: u64,
    after: u64,
) -> Option<(u64, &BlockPacket)>
    requires { IsRising (Q.held queue.now).items }
    ensures { shown result ≡ first_in from to after (Q.held queue.now).items }
{
    let mut next = 0;
    search_in(queue, from, to, after, &mut next)
}

// The oldest packet from `from` to `to` that is newer than `after`, with its time. Where it stands at `place` it is found at once.
// `place` becomes the place after it.
#[inline(always)]
pub(crate) fn first_near<'a, Q: PacketQueue>(
    queue: &'a Q,
    from: u64,
    to: u64,
    after: u64,
    place: &mut usize,
) -> Option<(u64, &'a BlockPacket)>
    requires { IsRising (Q.held queue.now).items }
    ensures { shown result ≡ first_in from to after (Q.held queue.now).items }
{
    let passed = last_passed(from, after);
    let near = *place;
    if near >= queue.len() || !is_next_at(queue, passed, near) {
        return search_in(queue, from, to, after, place);
    }
    let stored = queue.at(near);
    if stored.time > to {
        return None;
    }
    *place = near + 1;
    Some((stored.time, &stored.packet))
}

// The oldest time held, 0 where there is none.
pub(crate) fn oldest<Q: PacketQueue>(queue: &Q) -> u64
    ensures { result ≡ oldest (Q.held queue.now).items }
{
    if queue.len() == 0 {
        return 0;
    }
    queue.at(0).time
}

// The newest time held, 0 where there is none.
pub(crate) fn newest<Q: PacketQueue>(queue: &Q) -> u64
    ensures { result ≡ newest (Q.held queue.now).items }
{
    let held = queue.len();
    if held == 0 {
        return 0;
    }
    queue.at(held - 1).time
}

// Moves all packets of one queue to the end of another, in their order.
fn move_all<F: PacketQueue, T: PacketQueue>(from: &mut F, to: &mut T)
    requires { length (T.held to.old).items + length (F.held from.old).items ≤ (T.held to.old).capacity }
    ensures moved { T.held to.new ≡ buffer ((T.held to.old).items ++ (F.held from.old).items) (T.held to.old).capacity }
    ensures emptied { F.held from.new ≡ buffer [] (F.held from.old).capacity }
{
    while from.len() > 0 {
        to.append(from.take_oldest());
    }
}

// A queue with room for this many packets, with all that the other holds, which is empty then.
pub(crate) fn moved<F: PacketQueue, T: PacketQueue>(
    from: &mut F,
    room: u32,
) -> Result<T, AllocError>
    requires { length (F.held from.old).items ≤ room }
    ensures moved { IfOk result (λ to. T.held to ≡ buffer (F.held from.old).items room) }
    ensures emptied { OnOk result (F.held from.new ≡ buffer [] (F.held from.old).capacity) }
    ensures err { OnErr result (from.new ≡ from.old) }
{
    let mut to = T::with_room(from.allocator(), room)?;
    move_all(from, &mut to);
    Ok(to)
}
