//! The columns of a forecast with limits of channels and with sizes of stores.
ghost use Rattle.std.specs.Prelude.{◌≡◌, ◌+◌, ◌-◌, ◌≤◌, nat_lt, bytes_eq, position, [], length, drop, vec_len, IfOk};
ghost use Rattle.std.specs.List.{list_all};
ghost use Rattle.csv.specs.Records.{fields_of};
ghost use Rattle.mm_base.specs.Reading.{Gives};
ghost use Rattle.mm_base.specs.declared.limits.TheConstants.{MAX_STORES, CHANNELS};
ghost use Rattle.mm_base.specs.Id.{id_text};
ghost use Rattle.mm_problem.specs.Forecast.{names_limit, channel_in, next_channel, channels_in, sized_text, store_in};
ghost use Rattle.mm_problem.specs.Forecast.{next_sized, places_in, cells_from, limit_count, limited_in, sized_in};
ghost use Rattle.mm_problem.specs.Forecast.{columns_in};
ghost use Rattle.mm_problem.specs.StepLists.{columns_of};
ghost use Rattle.mm_problem.specs.declared.fault.Fault.TheVariants.{NoMemory};

use crate::fault::Fault;
use crate::reading::test;
use crate::steps::{begins_with_stores, cell_of};
use csv::ByteRecord;
use mm_base::numbers::Numeral;
use mm_base::{CHANNELS, MAX_CHANNEL, StoreRow};
use std::alloc::Global;

// The columns of a header: the channels that have limits, and the stores that have sizes.
#[derive(Debug, Drop)]
pub(crate) struct HeaderColumns {
    // in rising order
    pub(crate) limited: Vec<u8>,
    // in rising order
    pub(crate) sized: Vec<u8>,
}

// Whether a column's name begins as those of columns of limits.
fn names_limit(name: &[u8]) -> bool
    ensures { result ≡ names_limit name.now }
{
    let (word, _number) = name.split_at(name.len().min(6));
    word == b"limit:".as_slice()
}

// The channel of a column of limits, from the column's name.
#[tactic(auto, unfolding(crate::specs::Forecast::channel_in))]
fn channel_in(name: &[u8]) -> Result<u8, Fault>
    ensures { Gives NoMemory (λ c. c) result (channel_in name.now) }
{
    let (word, number) = name.split_at(name.len().min(6));
    test(word == b"limit:".as_slice(), Fault::Header)?;
    match Numeral::read(number, u64::from(MAX_CHANNEL)) {
        Numeral::Number(channel) => Ok(channel as u8),
        _ => Err(Fault::Header),
    }
}

// Whether all these channels are below a given one.
pub(crate) fn are_below(channels: &[u8], channel: u8) -> bool
    ensures { result ≡ list_all (λ c. nat_lt c channel) channels.now }
{
    channels.iter().all(|below| *below < channel)
}

// The channel of the next column of limits, which is above these channels.
#[tactic(auto, unfolding(crate::specs::Forecast::next_channel))]
fn next_channel(earlier: &[u8], name: &[u8]) -> Result<u8, Fault>
    ensures { Gives NoMemory (λ c. c) result (next_channel earlier.now name.now) }
{
    let channel = channel_in(name)?;
    test(are_below(earlier, channel), Fault::Header)?;
    Ok(channel)
}

// The place of the store whose identifier has this text.
fn place_of(stores: &[StoreRow], text: &[u8]) -> Option<usize>
    ensures { result ≡ position (λ r. bytes_eq (id_text r.id) text.now) stores.now }
{
    stores.iter().position(|row| row.id.text() == text)
}

// The text after `size:` in the name of a column of sizes.
#[tactic(auto, unfolding(crate::specs::Forecast::sized_text))]
fn sized_text(name: &[u8]) -> Result<&[u8], Fault>
    ensures { Gives NoMemory (λ text. text.now) result (sized_text name.now) }
{
    let (word, text) = name.split_at(name.len().min(5));
    test(word == b"size:".as_slice(), Fault::Header)?;
    Ok(text)
}

// The store of a column of sizes, from the column's name.
#[tactic(auto, unfolding(crate::specs::Forecast::store_in))]
fn store_in(stores: &[StoreRow], name: &[u8]) -> Result<u8, Fault>
    requires { length stores.now ≤ MAX_STORES }
    ensures { Gives NoMemory (λ s. s) result (store_in stores.now name.now) }
{
    let text = sized_text(name)?;
    match place_of(stores, text) {
        Some(place) => Ok(place as u8),
        None => Err(Fault::Header),
    }
}

// The store of the next column of sizes, which is above these stores.
#[tactic(auto, unfolding(crate::specs::Forecast::next_sized))]
fn next_sized(stores: &[StoreRow], earlier: &[u8], name: &[u8]) -> Result<u8, Fault>
    requires { length stores.now ≤ MAX_STORES }
    ensures { Gives NoMemory (λ s. s) result (next_sized stores.now earlier.now name.now) }
{
    let store = store_in(stores, name)?;
    test(are_below(earlier, store), Fault::Header)?;
    Ok(store)
}

// The place after the columns of limits that stand one after the other from a place on.
fn limits_end(row: &ByteRecord, first: usize) -> usize
    requires { first ≤ length (fields_of row.now) }
    ensures end { result ≡ first + limit_count (drop first (fields_of row.now)) }
    ensures within { result ≤ length (fields_of row.now) }
{
    for i in first..row.len() {
        if !names_limit(cell_of(row, i)) {
            return i;
        }
    }
    row.len()
}

// The channels of the columns from a place to another one, in rising order.
fn channels_in(alloc: Global, row: &ByteRecord, first: usize, end: usize) -> Result<Vec<u8>, Fault>
    requires first { first ≤ end }
    requires end { end ≤ length (fields_of row.now) }
    ensures channels { Gives NoMemory (λ v. v.items) result
        (channels_in [] (cells_from (fields_of row.now) first (end - first))) }
    ensures each { IfOk result (λ v. first + vec_len v ≡ end) }
{
    let mut channels = Vec::new(alloc);
    for i in first..end {
        let channel = next_channel(channels.as_slice(), cell_of(row, i))?;
        channels.push(channel)?;
    }
    Ok(channels)
}

// The stores of the columns from a place on, in rising order.
fn places_in(
    alloc: Global,
    stores: &[StoreRow],
    row: &ByteRecord,
    first: usize,
) -> Result<Vec<u8>, Fault>
    requires stores { length stores.now ≤ MAX_STORES }
    requires first { first ≤ length (fields_of row.now) }
    ensures places { Gives NoMemory (λ v. v.items) result
        (places_in stores.now [] (drop first (fields_of row.now))) }
    ensures each { IfOk result (λ v. first + vec_len v ≡ length (fields_of row.now)) }
{
    let mut places = Vec::new(alloc);
    for i in first..row.len() {
        let place = next_sized(stores, places.as_slice(), cell_of(row, i))?;
        places.push(place)?;
    }
    Ok(places)
}

// The channels of the columns of limits from a place to another one, of which there are few enough.
#[tactic(auto, unfolding(crate::specs::Forecast::limited_in))]
fn limited_in(alloc: Global, row: &ByteRecord, first: usize, end: usize) -> Result<Vec<u8>, Fault>
    requires first { first ≤ end }
    requires end { end ≤ length (fields_of row.now) }
    ensures limited { Gives NoMemory (λ v. v.items) result
        (limited_in (cells_from (fields_of row.now) first (end - first))) }
    ensures few { IfOk result (λ v. vec_len v ≤ CHANNELS) }
{
    let count = end - first;
    test(count <= CHANNELS, Fault::Header)?;
    channels_in(alloc, row, first, end)
}

// The stores of the columns of sizes from a place on, of which there are few enough.
#[tactic(auto, unfolding(crate::specs::Forecast::sized_in))]
fn sized_in(
    alloc: Global,
    stores: &[StoreRow],
    row: &ByteRecord,
    first: usize,
) -> Result<Vec<u8>, Fault>
    requires stores { length stores.now ≤ MAX_STORES }
    requires first { first ≤ length (fields_of row.now) }
    ensures sized { Gives NoMemory (λ v. v.items) result
        (sized_in stores.now (drop first (fields_of row.now))) }
    ensures few { IfOk result (λ v. vec_len v ≤ MAX_STORES) }
{
    let count = row.len() - first;
    test(count <= stores.len(), Fault::Header)?;
    places_in(alloc, stores, row, first)
}

// The columns of limits and of sizes in a header, which names these stores first.
#[tactic(auto, unfolding(crate::specs::Forecast::columns_in, crate::specs::Forecast::columns_named))]
pub(crate) fn columns_in(
    alloc: Global,
    stores: &[StoreRow],
    header: &ByteRecord,
) -> Result<HeaderColumns, Fault>
    requires { length stores.now ≤ MAX_STORES }
    ensures columns { Gives NoMemory columns_of result (columns_in stores.now (fields_of header.now)) }
    ensures few_limits { IfOk result (λ c. vec_len c.limited ≤ CHANNELS) }
    ensures few_sizes { IfOk result (λ c. vec_len c.sized ≤ MAX_STORES) }
{
    test(begins_with_stores(stores, header), Fault::Header)?;
    let first = 2 + stores.len();
    let end = limits_end(header, first);
    let limited = limited_in(alloc, header, first, end)?;
    let sized = sized_in(alloc, stores, header, end)?;
    Ok(HeaderColumns { limited, sized })
}
