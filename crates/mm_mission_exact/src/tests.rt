//! Missions whose numbers are reckoned on paper: the week around Mars (`examples/mars_week`), and small ones.
use crate::{Exact, Fault, Number, Rows};
use mm_mission::{Mission, Observation, Rate, Span};
use mm_mission_text::{Overlap, Whole, observations, passes, stations, stores};
use mm_utc::Moment;
use std::process::Abort;
use std::test::Fail;

trait Runtime: Abort + AllocGlobal {}

impl<R: Abort + AllocGlobal> Runtime for R {}

// The texts of a mission's tables.
#[derive(Clone, Copy)]
struct Texts<'a> {
    stores: &'a str,
    stations: &'a str,
    passes: &'a str,
    observations: &'a str,
}

// Packets of 1,000 octets in blocks of 1,024.
fn whole() -> Whole {
    Whole {
        name: None,
        begin: None,
        end: None,
        packet: 1000,
        block: 1024,
        overlap: None,
        unit: 0,
    }
}

fn exact(rt: &impl Runtime, whole: &Whole, texts: Texts<'_>, unit: u64) -> Result<Exact, Fault> {
    let alloc = rt.alloc();
    let stores = stores(alloc, texts.stores.as_bytes()).expect(rt, "stores");
    let stations = stations(alloc, texts.stations.as_bytes()).expect(rt, "stations");
    let passes = passes(alloc, texts.passes.as_bytes()).expect(rt, "passes");
    let observations = observations(alloc, texts.observations.as_bytes()).expect(
        rt,
        "observations",
    );
    let rows = Rows {
        whole,
        stores: &stores,
        stations: &stations,
        passes: &passes,
        observations: &observations,
    };
    Exact::new(alloc, &rows, unit)
}

fn seconds(begin: u64, end: u64) -> Span {
    Span {
        begin: begin.saturating_mul(1_000_000),
        end: end.saturating_mul(1_000_000),
    }
}

fn rate(octets: u64, micros: u64) -> Rate {
    Rate { octets, micros }
}

// A store, a station and a day with a pass and an observation.
fn small() -> Texts<'static> {
    Texts {
        stores: "id,size\nCAM,1 MB\n",
        stations: "name,rate\nNew Norcia,82 kbit/s\n",
        passes: "station,begin,end\nNew Norcia,2031-03-03T06:00Z,2031-03-03T07:00Z\n",
        observations: "store,begin,end,rate\nCAM,2031-03-03T00:00Z,2031-03-04T00:00Z,2.4 kbit/s\n",
    }
}

fn fault(rt: &impl Runtime, whole: &Whole, texts: Texts<'_>) -> Option<Fault> {
    exact(rt, whole, texts, 1).err()
}

#[test]
fn a_week_around_mars(rt: HostRuntime) -> Result<(), Fail> {
    let texts = Texts {
        stores: "id,size,type,channel,holds\nHK,48 MB,circular,0,4 MB\nCAM,240 MB,,1,90 MB\n",
        stations: "name,rate,channel:1,channel:2\nNew Norcia,82 kbit/s,56 kbit/s,\n\
            Malargue,108 kbit/s,76 kbit/s,44 kbit/s\n",
        passes: "station,begin,end\nNew Norcia,2031-03-03T03:40:00Z,2031-03-03T09:00:00Z\n\
            Malargue,2031-03-03T14:25:00Z,2031-03-03T20:25:00Z\n",
        observations: "store,begin,end,rate,volume\n\
            HK,2031-03-03T00:00:00Z,2031-03-10T00:00:00Z,2.4 kbit/s,\n\
            CAM,2031-03-03T01:10:00Z,2031-03-03T01:50:00Z,,44 MB\n",
    };
    let begin = Moment::parse(b"2031-03-03T00:00:00Z")?;
    let found = exact(&rt, &whole(), texts, 1)?;
    assert_eq!(rt; found.begin, begin);
    assert_eq!(rt; found.lasts, 604_800_000_000);
    assert_eq!(rt; found.stores.len(), 2);
    // 48,000,000 octets are 46,875 blocks of 1,024
    assert_eq!(rt;
        (found.stores[0].size, found.stores[0].start),
        (46_875, 4_000)
    );
    assert_eq!(rt;
        (found.stores[1].size, found.stores[1].start),
        (234_375, 90_000)
    );
    assert_eq!(rt; (found.stores[0].packet, found.stores[0].unit), (1000, 1));
    // 300 octets a second, and 44,000,000 octets in 2,400 seconds
    assert_eq!(rt;
        (found.stores[0].micros, found.stores[1].micros),
        (10_000, 600)
    );
    assert_eq!(rt; found.observations.len(), 2);
    let housekeeping = Observation {
        store: 0,
        span: seconds(0, 604_800),
        octets: 3,
    };
    let strip = Observation {
        store: 1,
        span: seconds(4_200, 6_600),
        octets: 11,
    };
    assert_eq!(rt; found.observations[0], housekeeping);
    assert_eq!(rt; found.observations[1], strip);
    assert_eq!(rt; found.passes.len(), 2);
    assert_eq!(rt; found.passes[0].span, seconds(13_200, 32_400));
    assert_eq!(rt; found.passes[0].rate, rate(41, 4_000));
    assert_eq!(rt; found.passes[0].channels[1], Some(rate(7, 1_000)));
    assert_eq!(rt; found.passes[0].channels[2], None);
    assert_eq!(rt; found.passes[1].rate, rate(27, 2_000));
    assert_eq!(rt; found.passes[1].channels[1], Some(rate(19, 2_000)));
    assert_eq!(rt; found.passes[1].channels[2], Some(rate(11, 2_000)));
    let mission = Mission::new(found.lasts, found.stores, found.passes, found.observations)?;
    assert_eq!(rt; mission.stores(), 2);
    Ok(())
}

#[test]
fn blocks_are_packets(rt: HostRuntime) -> Result<(), Fail> {
    let texts = Texts {
        stores: "id,size,holds,packet\nCAM,20 blocks,2.5 blocks,500\nSPEC,2100 octets,,\n",
        passes: "station,begin,end,rate,channel:0,channel:1\n\
            Malargue,2031-03-03T06:00Z,2031-03-03T07:00Z,8 blocks/s,,64 blocks/s\n",
        observations: "store,begin,end,rate,volume\n\
            CAM,2031-03-03T00:00Z,2031-03-04T00:00Z,7.5 blocks/min,\n\
            CAM,2031-03-03T00:00Z,2031-03-04T00:00Z,2.4 kbit/s,\n\
            SPEC,2031-03-03T00:00Z,2031-03-03T00:01Z,,6 blocks\n",
        ..small()
    };
    let texts = Texts {
        stations: "name\n",
        ..texts
    };
    let found = exact(&rt, &whole(), texts, 3)?;
    assert_eq!(rt; found.stores.len(), 2);
    // 20 and 2,100 / 1,024 packets, three of 1,000 octets a unit: six of 500, and no more than two
    assert_eq!(rt; (found.stores[0].size, found.stores[1].size), (20, 2));
    assert_eq!(rt; (found.stores[0].unit, found.stores[1].unit), (6, 2));
    assert_eq!(rt; (found.stores[0].start, found.stores[1].start), (3, 0));
    // an eighth of 500 octets is 1 in 16,000 microseconds, 300 octets are 3 in 10,000; together in 80,000
    assert_eq!(rt;
        (found.stores[0].micros, found.stores[1].micros),
        (80_000, 10_000)
    );
    assert_eq!(rt; found.observations.len(), 3);
    assert_eq!(rt; found.observations[0].octets, 5);
    assert_eq!(rt; found.observations[1].octets, 24);
    assert_eq!(rt; found.observations[2].octets, 1);
    // packets of the longest length, 1,000 octets
    assert_eq!(rt; found.passes.len(), 1);
    assert_eq!(rt; found.passes[0].rate, rate(1, 125));
    assert_eq!(rt; found.passes[0].channels[1], Some(rate(8, 125)));
    Ok(())
}

#[test]
fn rows_are_cut_and_put_in_order(rt: HostRuntime) -> Result<(), Fail> {
    let whole = Whole {
        begin: Some(Moment::parse(b"2031-03-03T01:00Z")?),
        end: Some(Moment::parse(b"2031-03-03T10:00Z")?),
        overlap: Some(Overlap::Both),
        ..whole()
    };
    let texts = Texts {
        passes: "station,begin,end,rate\n\
            C,2031-03-03T08:00Z,2031-03-03T12:00Z,8 bit/s\nB,2031-03-03T06:00Z,2031-03-03T09:00Z,8 bit/s\n\
            nowhere,2031-03-03T10:00Z,2031-03-03T11:00Z,\nA,2031-03-03T06:00Z,2031-03-03T07:00Z,8 bit/s\n\
            D,2031-03-03T00:00Z,2031-03-03T02:00Z,8 bit/s\n",
        observations: "store,begin,end,volume\nCAM,2031-03-03T00:00Z,2031-03-03T04:00Z,14.4 kB\n\
            NONE,2031-03-03T00:00Z,2031-03-03T01:00Z,1 MB\n",
        stations: "name\n",
        ..small()
    };
    let found = exact(&rt, &whole, texts, 1)?;
    assert_eq!(rt; found.lasts, 32_400_000_000);
    assert_eq!(rt; found.places.as_slice(), [4, 3, 1, 0].as_slice());
    assert_eq!(rt; found.passes.len(), 4);
    assert_eq!(rt; found.passes[0].span, seconds(0, 3_600));
    assert_eq!(rt; found.passes[1].span, seconds(18_000, 21_600));
    assert_eq!(rt; found.passes[2].span, seconds(18_000, 28_800));
    assert_eq!(rt; found.passes[3].span, seconds(25_200, 32_400));
    // 14,400 octets in four hours are one a second, also in the three that are left
    assert_eq!(rt; found.observations.len(), 1);
    assert_eq!(rt; found.observations[0].span, seconds(0, 10_800));
    assert_eq!(rt; found.observations[0].octets, 1);
    assert_eq!(rt; found.stores.len(), 1);
    assert_eq!(rt; found.stores[0].micros, 1_000_000);
    Ok(())
}

#[test]
fn missions_without_a_time(rt: HostRuntime) -> Result<(), Fail> {
    let texts = small();
    let none = Texts {
        passes: "station,begin,end\n",
        observations: "store,begin,end\n",
        ..texts
    };
    assert_eq!(rt; fault(&rt, &whole(), none), Some(Fault::NoTime));
    let late = Whole {
        begin: Some(Moment::parse(b"2031-03-04T00:00Z")?),
        ..whole()
    };
    assert_eq!(rt; fault(&rt, &late, texts), Some(Fault::NotLater));
    Ok(())
}

#[test]
fn stores_that_are_refused(rt: HostRuntime) {
    let many =
        "id,size\nA,1 MB\nB,1 MB\nC,1 MB\nD,1 MB\nE,1 MB\nF,1 MB\nG,1 MB\nH,1 MB\nI,1 MB\nJ,1 MB\nK,1 MB\n\
        L,1 MB\nM,1 MB\nN,1 MB\nO,1 MB\nP,1 MB\nQ,1 MB\n";
    let cases = [
        ("id,size\n", Fault::StoreCount),
        (many, Fault::StoreCount),
        (
            "id,size\nCAM,1 MB\nHK,1 MB\nCAM,1 MB\n",
            Fault::StoreTwice { row: 3 },
        ),
        ("id,size\nCAM,1023 octets\n", Fault::NoRoom { row: 1 }),
        (
            "id,size,holds\nCAM,2 blocks,2001 octets\n",
            Fault::TooFull { row: 1 },
        ),
        (
            "id,size\nCAM,1000001 blocks\n",
            Fault::OutOfRange {
                number: Number::Size,
                row: 1,
            },
        ),
    ];
    for (stores, expected) in cases {
        let texts = Texts { stores, ..small() };
        assert_eq!(rt; fault(&rt, &whole(), texts), Some(expected));
    }
    let narrow = Whole {
        block: 999,
        ..whole()
    };
    assert_eq!(rt;
        fault(&rt, &narrow, small()),
        Some(Fault::BadPacket { row: 1 })
    );
    let texts = Texts {
        stores: "id,size\nCAM,2 GB\n",
        ..small()
    };
    let number = Number::Unit;
    let refused = exact(&rt, &whole(), texts, 1_048_577).err();
    assert_eq!(rt; refused, Some(Fault::OutOfRange { number, row: 1 }));
}

#[test]
fn passes_that_are_refused(rt: HostRuntime) {
    let twice = Texts {
        stations: "name,rate\nA,8 bit/s\nB,8 bit/s\nA,8 bit/s\n",
        ..small()
    };
    assert_eq!(rt;
        fault(&rt, &whole(), twice),
        Some(Fault::StationTwice { row: 3 })
    );
    let unknown = Texts {
        stations: "name,rate\nA,8 bit/s\n",
        ..small()
    };
    assert_eq!(rt;
        fault(&rt, &whole(), unknown),
        Some(Fault::NoStation { row: 1 })
    );
    let slow = Texts {
        stations: "name\nNew Norcia\n",
        ..small()
    };
    assert_eq!(rt; fault(&rt, &whole(), slow), Some(Fault::NoRate { row: 1 }));
    let fine = Texts {
        stations: "name,rate\nNew Norcia,1/1000000007 bit/s\n",
        ..small()
    };
    let number = Number::Link;
    assert_eq!(rt;
        fault(&rt, &whole(), fine),
        Some(Fault::OutOfRange { number, row: 1 })
    );
    let fine = Texts {
        stations: "name,rate,channel:3\nNew Norcia,8 bit/s,1/1000000007 bit/s\n",
        ..small()
    };
    let number = Number::Channel(3);
    assert_eq!(rt;
        fault(&rt, &whole(), fine),
        Some(Fault::OutOfRange { number, row: 1 })
    );
}

#[test]
fn passes_that_overlap(rt: HostRuntime) {
    let two = Texts {
        stations: "name,rate\nA,8 bit/s\nB,8 bit/s\n",
        passes: "station,begin,end\nA,2031-03-03T06:00Z,2031-03-03T08:00Z\nB,2031-03-03T07:00Z,2031-03-03T09:00Z\n",
        ..small()
    };
    let same = Texts {
        passes: "station,begin,end\nA,2031-03-03T06:00Z,2031-03-03T08:00Z\nA,2031-03-03T07:00Z,2031-03-03T09:00Z\n",
        ..two
    };
    let both = Whole {
        overlap: Some(Overlap::Both),
        ..whole()
    };
    assert_eq!(rt; fault(&rt, &whole(), two), Some(Fault::Overlap { row: 2 }));
    assert_eq!(rt; fault(&rt, &both, two), None);
    assert_eq!(rt; fault(&rt, &both, same), Some(Fault::Overlap { row: 2 }));
}

#[test]
fn observations_that_are_refused(rt: HostRuntime) {
    let unknown = Texts {
        observations: "store,begin,end,rate\nHK,2031-03-03T00:00Z,2031-03-04T00:00Z,8 bit/s\n",
        ..small()
    };
    assert_eq!(rt;
        fault(&rt, &whole(), unknown),
        Some(Fault::NoStore { row: 1 })
    );
    let fine = Texts {
        observations: "store,begin,end,rate\n\
            CAM,2031-03-03T00:00Z,2031-03-04T00:00Z,1/1000000007 bit/s\n",
        ..small()
    };
    let number = Number::Arrival;
    assert_eq!(rt;
        fault(&rt, &whole(), fine),
        Some(Fault::OutOfRange { number, row: 1 })
    );
    let uneven = Texts {
        observations: "store,begin,end,rate\n\
            CAM,2031-03-03T00:00Z,2031-03-04T00:00Z,1/100000007 bit/s\n\
            CAM,2031-03-03T00:00Z,2031-03-04T00:00Z,1/3 bit/s\n",
        ..small()
    };
    let number = Number::Micros;
    assert_eq!(rt;
        fault(&rt, &whole(), uneven),
        Some(Fault::OutOfRange { number, row: 2 })
    );
    let fast = Texts {
        observations: "store,begin,end,rate\n\
            CAM,2031-03-03T00:00Z,2031-03-04T00:00Z,8 Gbit/s\n\
            CAM,2031-03-03T00:00Z,2031-03-04T00:00Z,1/10000019 bit/s\n",
        ..small()
    };
    let number = Number::Octets;
    assert_eq!(rt;
        fault(&rt, &whole(), fast),
        Some(Fault::OutOfRange { number, row: 1 })
    );
}
