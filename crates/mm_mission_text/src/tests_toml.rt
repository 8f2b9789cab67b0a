//! Texts in TOML: the week around Mars (`examples/mars_week`), whose values are worked out by hand, and bad texts.
use crate::{Arrival, MissionFault, Overlap, mission};
use mm_base::Kind;
use mm_utc::{Fraction, Measure, Rate, Volume};
use std::test::Fail;

static WEEK: &str = r#"# A week of an orbiter around Mars: six instruments and the housekeeping.
name = "Orbiter, week 10"
begin = 2031-03-03T00:00:00Z
end = 2031-03-10T00:00:00Z
packet = 1000                        # octets of a packet with its headers
passes = "passes.csv"
observations = "observations.csv"

[[station]]
name = "New Norcia"
rate = "82 kbit/s"
channels = { 1 = "56 kbit/s" }       # images share the link with the rest

[[station]]
name = "Malargue"
rate = "108 kbit/s"
channels = { 1 = "76 kbit/s", 2 = "44 kbit/s" }

[[store]]
id = "HK"
size = "48 MB"
type = "circular"
channel = 0
holds = "4 MB"

[[store]]
id = "CAM"
size = "240 MB"
channel = 1
holds = "90 MB"

[[store]]
id = "SPEC"
size = "160 MB"
channel = 1
holds = "35 MB"

[[store]]
id = "RADAR"
size = "256 MB"
channel = 2

[[store]]
id = "MAG"
size = "40 MB"
type = "circular"
channel = 3
holds = "12 MB"

[[store]]
id = "PLASMA"
size = "96 MB"
channel = 3
holds = "20 MB"

[[store]]
id = "METEO"
size = "40 MB"
channel = 3
"#;

fn megabytes(above: u64) -> Volume {
    Volume {
        amount: Fraction {
            above: above.saturating_mul(1_000_000),
            below: 1,
        },
        measure: Measure::Octets,
    }
}

fn octets_a_second(above: u64) -> Option<Rate> {
    Some(Rate {
        amount: Fraction { above, below: 1 },
        measure: Measure::Octets,
    })
}

#[test]
fn the_week_as_a_whole(rt: HostRuntime) -> Result<(), Fail> {
    let found = mission(rt.alloc(), WEEK.as_bytes())?;
    let whole = &found.whole;
    assert!(rt; whole.name.as_ref().map(|name| name.as_str()) == Some("Orbiter, week 10"));
    let begin = whole.begin.map(|moment| moment.microseconds());
    assert!(rt; begin == Some(64_065_859_200_000_000));
    let end = whole.end.map(|moment| moment.microseconds());
    assert!(rt; end == Some(64_066_464_000_000_000));
    assert!(rt; (whole.packet, whole.block, whole.unit) == (1000, 1024, 0));
    assert!(rt; whole.overlap == None);
    let file = found.passes.file.as_ref().map(|name| name.as_str());
    assert!(rt; file == Some("passes.csv"));
    let file = found.observations.file.as_ref().map(|name| name.as_str());
    assert!(rt; file == Some("observations.csv"));
    assert!(rt; found.stores.file.is_none() && found.stations.file.is_none());
    assert!(rt; found.passes.entries.is_empty() && found.observations.entries.is_empty());
    Ok(())
}

#[test]
fn the_stores_and_stations_of_the_week(rt: HostRuntime) -> Result<(), Fail> {
    let found = mission(rt.alloc(), WEEK.as_bytes())?;
    let rows = [
        ("HK", 48, Kind::Circular, 0, 4),
        ("CAM", 240, Kind::Bounded, 1, 90),
        ("SPEC", 160, Kind::Bounded, 1, 35),
        ("RADAR", 256, Kind::Bounded, 2, 0),
        ("MAG", 40, Kind::Circular, 3, 12),
        ("PLASMA", 96, Kind::Bounded, 3, 20),
        ("METEO", 40, Kind::Bounded, 3, 0),
    ];
    assert!(rt; found.stores.entries.len() == 7);
    for (store, row) in found.stores.entries.iter().zip(rows) {
        let (id, size, kind, channel, holds) = row;
        assert!(rt; store.id.text() == id.as_bytes());
        assert!(rt; (store.size, store.holds) == (megabytes(size), megabytes(holds)));
        assert!(rt; (store.kind, store.channel, store.packet) == (kind, channel, None));
    }
    let stations = &found.stations.entries;
    assert!(rt; stations.len() == 2);
    assert!(rt; stations[0].name.as_str() == "New Norcia");
    assert!(rt; stations[0].rate == octets_a_second(10_250));
    assert!(rt; stations[0].channels[1] == octets_a_second(7_000));
    assert!(rt; stations[1].rate == octets_a_second(13_500));
    assert!(rt; stations[1].channels[1] == octets_a_second(9_500));
    assert!(rt; stations[1].channels[2] == octets_a_second(5_500));
    assert!(rt; stations[1].channels[3] == None);
    Ok(())
}

#[test]
fn passes_and_observations_stand_in_the_text(rt: HostRuntime) -> Result<(), Fail> {
    let text = r##"overlap = "better"
        block = 2048
        unit = 4
        [[pass]]
        station = "New Norcia"
        begin = "2031-062T03:40Z"
        end = 2031-03-03T11:00:00.5+02:00
        rate = 80000
        "channel:7" = "8 kbit/s"
        channels = { 0 = "16 kbit/s" }
        [[observation]]
        store = "CAM"
        begin = 2031-03-03T01:10:00Z
        end = 2031-03-03T01:50:00Z
        volume = 44000000
        name = ""
    "##;
    let found = mission(rt.alloc(), text.as_bytes())?;
    assert!(rt; (found.whole.packet, found.whole.block, found.whole.unit) == (1024, 2048, 4));
    assert!(rt; found.whole.overlap == Some(Overlap::Better));
    let pass = found.passes.entries.first().ok_or("a pass")?;
    assert!(rt; pass.begin.microseconds() == 64_065_872_400_000_000);
    assert!(rt; pass.end.microseconds() == 64_065_891_600_500_000);
    assert!(rt; pass.rate == octets_a_second(10_000));
    assert!(rt;
        (pass.channels[0], pass.channels[7]) == (octets_a_second(2_000), octets_a_second(1_000))
    );
    let observation = found.observations.entries.first().ok_or("an observation")?;
    assert!(rt; observation.arrival == Arrival::Volume(megabytes(44)));
    assert!(rt; observation.name.is_none());
    Ok(())
}

#[test]
fn bad_texts(rt: HostRuntime) -> Result<(), Fail> {
    let cases = [
        ("packet = 0\nspeed = 1", "no such key: speed"),
        ("[[route]]\napid = 1", "no such key: route"),
        ("name = 5", "name: not a text in quotes"),
        (
            "begin = 2031-03-03T00:00:00",
            "begin: a local time: write Z after it if it is in UTC",
        ),
        (
            "packet = 1025\nblock = 0",
            "packet: not a number of octets from 1 to 1,024",
        ),
        (
            "block = 1048577",
            "block: not a number of octets from 1 to 1,048,576",
        ),
        ("overlap = \"all\"", "overlap: neither both nor better"),
        ("unit = -1", "unit: not a whole number up to 4,294,967,295"),
        (
            "unit = true",
            "unit: neither a text nor a whole number nor a moment",
        ),
        ("store = 5", "store: not tables, each below [[store]]"),
        ("pass = [1]", "pass: not tables, each below [[pass]]"),
        ("passes = 5", "passes: not the name of a CSV file in quotes"),
        (
            "[[store]]\nid = \"HK\"",
            "store 1, size: nothing is written",
        ),
        (
            "[[store]]\nid = \"HK\"\nsize = 8\n[[store]]\nid = \"CAM\"\nsize = 2.5",
            "store 2, size: a decimal, which is not exact: write it in quotes, as \"2.4 kbit/s\"",
        ),
        (
            "[[store]]\nid = \"HK\"\nsize = 8\nchannels = {}",
            "store 1: no such key: channels",
        ),
        (
            "[[station]]\nname = \"A\"\nchannels = { 8 = 1 }",
            "station 1, channels: not a channel from 0 to 7",
        ),
        (
            "[[station]]\nname = \"A\"\nchannels = 8",
            "station 1, channels: not the rates of channels, as { 1 = \"56 kbit/s\" }",
        ),
        (
            "[[station]]\nname = \"A\"\n\"channel:1\" = 1\nchannels = { 1 = 1 }",
            "station 1, channel:1: the channel has a rate in channels too",
        ),
        (
            "[[pass]]\nstation = \"A\"\nbegin = 2031-03-03T03:40:00Z\nend = 2031-03-03T03:40:00Z",
            "pass 1, end: not after the begin",
        ),
        (
            "[[observation]]\nstore = \"cam\"",
            "observation 1, store: not an identifier of 1 to 8 of the characters \
            A-Z, 0-9, _ and -",
        ),
    ];
    for (text, words) in cases {
        let fault = mission(rt.alloc(), text.as_bytes()).err().ok_or(text)?;
        assert!(rt; format!(in rt.alloc(); "{fault}")?.as_str() == words);
    }
    Ok(())
}

#[test]
fn texts_that_are_no_documents(rt: HostRuntime) -> Result<(), Fail> {
    let fault = mission(rt.alloc(), b"packet = 1000\nbegin = \n").err();
    let line = match &fault {
        Some(MissionFault::NotToml(fault)) => fault.line(),
        _ => 0,
    };
    assert!(rt; line == 2);
    let fault = mission(rt.alloc(), b"name = \"\xff\"").err();
    assert!(rt; matches!(fault, Some(MissionFault::NotUtf8)));
    let empty = mission(rt.alloc(), b"")?;
    assert!(rt; (empty.whole.packet, empty.whole.block) == (1024, 1024));
    Ok(())
}
