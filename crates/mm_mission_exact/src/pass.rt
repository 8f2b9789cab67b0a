//! Passes, in the order of their begins.
ghost use Rattle.std.specs.Prelude.{◌≡◌, ◌+◌, ◌<◌, ◌≤◌, ◌++◌, ◌∷◌, [], length, take, bytes_eq, ◌==◌, ◌||◌, OnOk};
ghost use Rattle.std.specs.Prelude.{IfSome, position};
ghost use Rattle.std.specs.Option.{option_copied};
ghost use Rattle.std.specs.List.{list_any};
ghost use Rattle.mm_base.specs.Reading.{Gives, test};
ghost use Rattle.mm_mission_exact.specs.Each.{each_in};
ghost use Rattle.mm_mission_exact.specs.Passes.{station_named, new_station, stations_differ, exact_rate, link_rate};
ghost use Rattle.mm_mission_exact.specs.Passes.{said_rate};
ghost use Rattle.mm_mission_exact.specs.Passes.{if_said, channel_rate, channel_rates, clash, apart, pass_in};
ghost use Rattle.mm_mission_exact.specs.Passes.{comes_before, place_for, inserted, and_placed, if_part, and_pass};
ghost use Rattle.mm_mission_exact.specs.Passes.{passes_in};
ghost use Rattle.mm_mission_exact.specs.declared.fault.Fault.TheVariants.{NoMemory, NoStation};

use crate::fault::{Fault, Number};
use crate::rate::rate_of;
use crate::rows::Rows;
use crate::store::longest_on;
use crate::window::{Window, pass_window};
use mm_base::CHANNELS;
use mm_mission::{Pass, Rate, Span};
use mm_mission_text::Station;
use std::alloc::{AllocError, Global};

// A pass, and the place of its row.
#[derive(Clone, Copy)]
pub(crate) struct Placed {
    pub place: usize,
    pub pass: Pass,
}

// The station with this name.
fn station_named<'a>(stations: &'a [Station], name: &str) -> Option<&'a Station>
    ensures { option_copied result ≡ station_named stations.now name.now }
{
    stations
        .iter()
        .find(|station| station.name.as_str() == name)
}

fn has_station(stations: &[Station], name: &str) -> bool
    ensures { result ≡ list_any (λ s. bytes_eq s.name name.now) stations.now }
{
    stations.iter().any(|station| station.name.as_str() == name)
}

// Tests that no station before this one has its name.
fn test_new(stations: &[Station], place: usize, station: &Station) -> Result<(), Fault>
    requires { place < length stations.now }
    ensures { result ≡ new_station stations.now place tt station.now }
{
    if has_station(&stations[..place], station.name.as_str()) {
        Err(Fault::StationTwice { row: place + 1 })
    } else {
        Ok(())
    }
}

// Tests that no two stations have one name.
fn test_stations(stations: &[Station]) -> Result<(), Fault>
    ensures { result ≡ stations_differ stations.now }
{
    for (place, station) in stations.iter().enumerate() {
        test_new(stations, place, station)?;
    }
    Ok(())
}

// Tests that the station of a pass is one of these, if there are any.
fn test_known(rows: &Rows<'_>, row: usize, found: bool) -> Result<(), Fault>
    ensures { result ≡ test (length rows.now.stations.now == 0 || found) (NoStation row) }
{
    if rows.stations.is_empty() || found {
        Ok(())
    } else {
        Err(Fault::NoStation { row })
    }
}

// A rate exactly.
fn exact_rate(
    rows: &Rows<'_>,
    channel: Option<u8>,
    number: Number,
    row: usize,
    rate: mm_utc::Rate,
) -> Result<Rate, Fault>
    ensures { result ≡ exact_rate rows.now channel number row rate }
{
    rate_of(u64::from(longest_on(rows, channel)), rate).ok_or(Fault::OutOfRange { number, row })
}

// The rate of the link.
#[tactic(auto, unfolding(crate::specs::Passes::link_rate))]
fn link_rate(
    rows: &Rows<'_>,
    row: usize,
    pass: &mm_mission_text::Pass,
    station: Option<&Station>,
) -> Result<Rate, Fault>
    ensures { result ≡ link_rate rows.now row pass.now (option_copied station.entry) }
{
    let of_station = match station {
        Some(station) => station.rate,
        None => None,
    };
    let own = pass.rate;
    let rate = own.or(of_station).ok_or(Fault::NoRate { row })?;
    exact_rate(rows, None, Number::Link, row, rate)
}

// The own rate of a channel, as it was said.
fn said_rate(
    pass: &mm_mission_text::Pass,
    station: Option<&Station>,
    channel: u8,
) -> Option<mm_utc::Rate>
    ensures { result ≡ said_rate pass.now (option_copied station.entry) channel }
{
    let place = usize::from(channel);
    let of_station = match station {
        Some(station) => station.channels.get(place).copied().unwrap_or(None),
        None => None,
    };
    let own = pass.channels.get(place).copied().unwrap_or(None);
    own.or(of_station)
}

// The own rate of a channel, exactly.
fn channel_rate(
    rows: &Rows<'_>,
    row: usize,
    pass: &mm_mission_text::Pass,
    station: Option<&Station>,
    channel: u8,
) -> Result<Option<Rate>, Fault>
    ensures { result ≡ channel_rate rows.now row pass.now (option_copied station.entry) channel }
{
    match said_rate(pass, station, channel) {
        Some(rate) => {
            let rate = exact_rate(rows, Some(channel), Number::Channel(channel), row, rate)?;
            Ok(Some(rate))
        }
        None => Ok(None),
    }
}

// The rates of all channels.
#[tactic(auto, unfolding(crate::specs::Passes::channel_rates))]
fn channel_rates(
    rows: &Rows<'_>,
    row: usize,
    pass: &mm_mission_text::Pass,
    station: Option<&Station>,
) -> Result<[Option<Rate>; CHANNELS], Fault>
    ensures { result ≡ channel_rates rows.now row pass.now (option_copied station.entry) }
{
    let rate0 = channel_rate(rows, row, pass, station, 0)?;
    let rate1 = channel_rate(rows, row, pass, station, 1)?;
    let rate2 = channel_rate(rows, row, pass, station, 2)?;
    let rate3 = channel_rate(rows, row, pass, station, 3)?;
    let rate4 = channel_rate(rows, row, pass, station, 4)?;
    let rate5 = channel_rate(rows, row, pass, station, 5)?;
    let rate6 = channel_rate(rows, row, pass, station, 6)?;
    let rate7 = channel_rate(rows, row, pass, station, 7)?;
    Ok([rate0, rate1, rate2, rate3, rate4, rate5, rate6, rate7])
}

// Whether two passes may not be together.
#[tactic(auto, unfolding(crate::specs::Passes::clash))]
fn clash(
    rows: &Rows<'_>,
    mission: &Window,
    pass: &mm_mission_text::Pass,
    other: &mm_mission_text::Pass,
) -> bool
    ensures { result ≡ clash rows.now mission.now pass.now other.now }
{
    mission.meet(pass_window(pass), pass_window(other))
        && (rows.whole.overlap.is_none() || pass.station.as_str() == other.station.as_str())
}

// Whether a pass clashes with one of these.
fn has_clash(
    rows: &Rows<'_>,
    mission: &Window,
    pass: &mm_mission_text::Pass,
    others: &[mm_mission_text::Pass],
) -> bool
    ensures { result ≡ list_any (clash rows.now mission.now pass.now) others.now }
{
    for other in others {
        if clash(rows, mission, pass, other) {
            return true;
        }
    }
    false
}

// Tests that no pass in the rows before this one may not be with it.
fn test_apart(
    rows: &Rows<'_>,
    mission: &Window,
    place: usize,
    pass: &mm_mission_text::Pass,
) -> Result<(), Fault>
    requires { place < length rows.now.passes.now }
    ensures { result ≡ apart rows.now mission.now place pass.now }
{
    if has_clash(rows, mission, pass, &rows.passes[..place]) {
        Err(Fault::Overlap { row: place + 1 })
    } else {
        Ok(())
    }
}

// The pass in a row, with the part of it that lies in the mission.
#[tactic(auto, unfolding(crate::specs::Passes::pass_in))]
fn pass_in(
    rows: &Rows<'_>,
    mission: &Window,
    place: usize,
    pass: &mm_mission_text::Pass,
    span: Span,
) -> Result<Pass, Fault>
    requires { place < length rows.now.passes.now }
    ensures { result ≡ pass_in rows.now mission.now place pass.now span }
{
    let row = place + 1;
    let station = station_named(rows.stations, pass.station.as_str());
    test_known(rows, row, station.is_some())?;
    let rate = link_rate(rows, row, pass, station)?;
    let channels = channel_rates(rows, row, pass, station)?;
    test_apart(rows, mission, place, pass)?;
    Ok(Pass {
        span,
        rate,
        channels,
    })
}

// Whether a pass begins before another, or with it and ends before it.
#[tactic(auto, unfolding(crate::specs::Passes::comes_before))]
fn comes_before(one: &Span, other: &Span) -> bool
    ensures { result ≡ comes_before one.now other.now }
{
    one.begin < other.begin || (one.begin == other.begin && one.end < other.end)
}

// The place of the first pass that one with this span comes before.
fn first_later(span: &Span, passes: &[Placed]) -> Option<usize>
    ensures place { result ≡ position (λ q. comes_before span.now q.pass.span) passes.now }
    ensures there { IfSome result (λ place. place < length passes.now) }
{
    passes
        .iter()
        .position(|other| comes_before(span, &other.pass.span))
}

// The same, or the end.
#[tactic(auto, unfolding(crate::specs::Passes::place_for))]
fn place_for(span: &Span, passes: &[Placed]) -> usize
    ensures place { result ≡ place_for span.now passes.now }
    ensures within { result ≤ length passes.now }
{
    match first_later(span, passes) {
        Some(place) => place,
        None => passes.len(),
    }
}

// Puts a pass there.
fn insert(passes: &mut Vec<Placed>, placed: Placed) -> Result<(), AllocError>
    ensures { OnOk result (passes.new.items ≡ inserted placed passes.old.items) }
{
    let at = place_for(&placed.pass.span, passes.as_slice());
    passes.insert(at, placed)?;
    Ok(())
}

// Adds the pass in a row, unless it lies outside of the mission.
fn add_pass(
    passes: &mut Vec<Placed>,
    rows: &Rows<'_>,
    mission: &Window,
    place: usize,
    pass: &mm_mission_text::Pass,
) -> Result<(), Fault>
    requires { place < length rows.now.passes.now }
    ensures { Gives NoMemory (λ _. passes.new.items) result
        (and_pass rows.now mission.now place passes.old.items pass.now) }
{
    if let Some(span) = mission.part_of(pass_window(pass)) {
        let pass = pass_in(rows, mission, place, pass, span)?;
        insert(passes, Placed { place, pass })?;
    }
    Ok(())
}

// The passes in the order of their begins.
fn each_pass(alloc: Global, rows: &Rows<'_>, mission: &Window) -> Result<Vec<Placed>, Fault>
    ensures { Gives NoMemory (λ passes. passes.items) result
        (each_in (and_pass rows.now mission.now) 0 [] rows.now.passes.now) }
{
    let mut passes = Vec::new(alloc);
    for (place, pass) in rows.passes.iter().enumerate() {
        add_pass(&mut passes, rows, mission, place, pass)?;
    }
    Ok(passes)
}

// The same, where no two stations have one name.
#[tactic(auto, unfolding(crate::specs::Passes::passes_in))]
pub(crate) fn passes_in(
    alloc: Global,
    rows: &Rows<'_>,
    mission: &Window,
) -> Result<Vec<Placed>, Fault>
    ensures { Gives NoMemory (λ passes. passes.items) result (passes_in rows.now mission.now) }
{
    test_stations(rows.stations)?;
    each_pass(alloc, rows, mission)
}
