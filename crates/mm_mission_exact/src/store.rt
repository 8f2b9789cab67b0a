//! Packet stores, in packets.
ghost use Rattle.std.specs.Prelude.{◌≡◌, ◌+◌, ◌*◌, ◌≤◌, ◌^◌, ◌<◌, [], IfOk};
ghost use Rattle.mm_base.specs.Reading.{Gives};
ghost use Rattle.mm_mission_exact.specs.Each.{each_in};
ghost use Rattle.mm_mission_exact.specs.Stores.{packet_of, is_on, longest, longest_on, size_of, held_of, about};
ghost use Rattle.mm_mission_exact.specs.Stores.{unit_of};
ghost use Rattle.mm_mission_exact.specs.Stores.{store_in, has_store, next_store, and_store, stores_in};
ghost use Rattle.mm_mission_exact.specs.declared.fault.Fault.TheVariants.{NoMemory};

use crate::fault::{Fault, Number};
use crate::rate::{places_down, places_up};
use crate::rows::Rows;
use mm_base::{MAX_BLOCKS, MAX_STORES, StoreId};
use mm_mission::{MAX_PACKET, MAX_UNIT, Store};
use mm_mission_text::{PacketStore, Whole};
use std::alloc::Global;

// The octets of a store's packets.
fn packet_of(whole: &Whole, store: &PacketStore) -> u16
    ensures { result ≡ packet_of whole.now store.now }
{
    store.packet.unwrap_or(whole.packet)
}

// Whether a store is sent on a channel, or on the link at all.
fn is_on(channel: Option<u8>, store: &PacketStore) -> bool
    ensures { result ≡ is_on channel store.now }
{
    match channel {
        Some(channel) => store.channel == channel,
        None => true,
    }
}

// The octets of the longest packet on a channel, or of all; 0 where there is none.
fn longest(rows: &Rows<'_>, channel: Option<u8>) -> u16
    ensures { result ≡ longest rows.now channel }
{
    let mut longest = 0;
    for store in rows.stores {
        if is_on(channel, store) {
            longest = packet_of(rows.whole, store).max(longest);
        }
    }
    longest
}

// The octets of the longest packet on a channel, or of all where it has no store.
pub(crate) fn longest_on(rows: &Rows<'_>, channel: Option<u8>) -> u16
    ensures { result ≡ longest_on rows.now channel }
{
    match longest(rows, channel) {
        0 => longest(rows, None),
        octets => octets,
    }
}

// The packets that a store has room for.
#[tactic(auto, unfolding(crate::specs::Stores::size_of))]
fn size_of(whole: &Whole, row: usize, store: &PacketStore) -> Result<u128, Fault>
    ensures size { result ≡ size_of whole.now row store.now }
{
    let number = Number::Size;
    let size = places_down(whole.block, store.size).ok_or(Fault::OutOfRange { number, row })?;
    if 1 <= size {
        Ok(size)
    } else {
        Err(Fault::NoRoom { row })
    }
}

// The packets that it holds as the mission begins.
#[tactic(auto, unfolding(crate::specs::Stores::held_of))]
fn held_of(packet: u16, size: u128, row: usize, store: &PacketStore) -> Result<u128, Fault>
    ensures held { result ≡ held_of packet size row store.now }
    ensures most { IfOk result (λ held. held ≤ size) }
{
    let number = Number::Holds;
    let held = places_up(u32::from(packet), store.holds).ok_or(Fault::OutOfRange { number, row })?;
    if held <= size {
        Ok(held)
    } else {
        Err(Fault::TooFull { row })
    }
}

// The packets that have about so many octets.
fn about(octets: u128, packet: u16, size: u128) -> u128
    requires some { 1 ≤ packet }
    requires few { octets < 2 ^ 80 }
    ensures { result ≡ about octets packet size }
{
    let packet = u128::from(packet);
    ((2 * octets + packet) / (2 * packet)).min(size).max(1)
}

// A store's unit.
#[tactic(auto, unfolding(crate::specs::Stores::unit_of))]
fn unit_of(octets: u128, packet: u16, size: u128, row: usize) -> Result<u128, Fault>
    requires some { 1 ≤ packet }
    requires few { octets < 2 ^ 80 }
    ensures unit { result ≡ unit_of octets packet size row }
    ensures most { IfOk result (λ unit. unit ≤ MAX_UNIT) }
    ensures size { IfOk result (λ unit. size < 2 ^ 41) }
{
    let unit = about(octets, packet, size);
    if unit > u128::from(MAX_UNIT) {
        let number = Number::Unit;
        return Err(Fault::OutOfRange { number, row });
    }
    if size >= (u128::from(MAX_BLOCKS) + 1) * unit {
        let number = Number::Size;
        return Err(Fault::OutOfRange { number, row });
    }
    Ok(unit)
}

// The store in a row, in packets, where a unit has about so many octets.
#[tactic(auto, unfolding(crate::specs::Stores::store_in))]
fn store_in(whole: &Whole, octets: u128, row: usize, store: &PacketStore) -> Result<Store, Fault>
    requires { octets < 2 ^ 80 }
    ensures { result ≡ store_in whole.now octets row store.now }
{
    let packet = packet_of(whole, store);
    let most = u64::from(whole.block).min(MAX_PACKET);
    if packet < 1 || u64::from(packet) > most {
        return Err(Fault::BadPacket { row });
    }
    let size = size_of(whole, row, store)?;
    let held = held_of(packet, size, row, store)?;
    let unit = unit_of(octets, packet, size, row)?;
    Ok(Store {
        id: store.id,
        kind: store.kind,
        packet: u64::from(packet),
        unit: unit as u64,
        micros: 1,
        size: size as u64,
        start: held as u64,
        channel: store.channel,
    })
}

fn has_store(stores: &[Store], id: StoreId) -> bool
    ensures { result ≡ has_store stores.now id }
{
    stores.iter().any(|store| store.id == id)
}

// The store in a row that follows others.
#[tactic(auto, unfolding(crate::specs::Stores::next_store))]
fn next_store(
    whole: &Whole,
    octets: u128,
    row: usize,
    stores: &[Store],
    store: &PacketStore,
) -> Result<Store, Fault>
    requires { octets < 2 ^ 80 }
    ensures { result ≡ next_store whole.now octets row stores.now store.now }
{
    if has_store(stores, store.id) {
        return Err(Fault::StoreTwice { row });
    }
    store_in(whole, octets, row, store)
}

// Adds the store in a row.
fn add_store(
    stores: &mut Vec<Store>,
    whole: &Whole,
    octets: u128,
    place: usize,
    row: &PacketStore,
) -> Result<(), Fault>
    requires octets { octets < 2 ^ 80 }
    requires place { place < 2 ^ 63 }
    ensures { Gives NoMemory (λ _. stores.new.items) result
        (and_store whole.now octets place stores.old.items row.now) }
{
    let store = next_store(whole, octets, place + 1, stores.as_slice(), row)?;
    stores.push(store)?;
    Ok(())
}

// The stores, where a unit has about so many octets.
fn each_store(
    alloc: Global,
    whole: &Whole,
    octets: u128,
    rows: &[PacketStore],
) -> Result<Vec<Store>, Fault>
    requires { octets < 2 ^ 80 }
    ensures { Gives NoMemory (λ stores. stores.items) result
        (each_in (and_store whole.now octets) 0 [] rows.now) }
{
    let mut stores = Vec::new(alloc);
    for (place, row) in rows.iter().enumerate() {
        add_store(&mut stores, whole, octets, place, row)?;
    }
    Ok(stores)
}

// The stores, where so many of the longest packets are a unit.
#[tactic(auto, unfolding(crate::specs::Stores::stores_in))]
pub(crate) fn stores_in(alloc: Global, rows: &Rows<'_>, unit: u64) -> Result<Vec<Store>, Fault>
    ensures { Gives NoMemory (λ stores. stores.items) result (stores_in rows.now unit) }
{
    if rows.stores.is_empty() || rows.stores.len() > MAX_STORES {
        return Err(Fault::StoreCount);
    }
    let octets = u128::from(unit) * u128::from(longest(rows, None));
    each_store(alloc, rows.whole, octets, rows.stores)
}
