//! Tables of the week around Mars (`examples/mars_week`), and bad ones, whose faults are found by hand. Moments are
//! those of Python's `datetime`.
use crate::{Arrival, Column, Fault, Why, observations, passes, stations, stores};
use mm_base::Kind;
use mm_utc::{AmountFault, Fraction, Measure, MomentFault, Rate, Volume};
use std::test::Fail;

fn octets(above: u64) -> Volume {
    Volume {
        amount: Fraction { above, below: 1 },
        measure: Measure::Octets,
    }
}

fn octets_a_second(above: u64) -> Rate {
    Rate {
        amount: Fraction { above, below: 1 },
        measure: Measure::Octets,
    }
}

fn cell(row: usize, column: Column, why: Why) -> Fault {
    Fault::Cell { row, column, why }
}

#[test]
fn passes_are_read(rt: HostRuntime) -> Result<(), Fail> {
    let text =
        "\u{feff}station,begin,end\nNew Norcia,2031-03-03T03:40:00Z,2031-03-03T09:00:00Z\n,,\r\n\
        Malargue , 2031-062T14:25Z,2031-03-03T22:25:00+02:00\n";
    let found = passes(rt.alloc(), text.as_bytes())?;
    assert_eq!(rt; found.len(), 2);
    assert_eq!(rt; found[0].station.as_str(), "New Norcia");
    assert_eq!(rt; found[0].begin.microseconds(), 64_065_872_400_000_000);
    assert_eq!(rt; found[0].rate, None);
    assert!(rt; found[0].name.is_none());
    assert_eq!(rt; found[1].station.as_str(), "Malargue");
    assert_eq!(rt; found[1].begin.microseconds(), 64_065_911_100_000_000);
    assert_eq!(rt; found[1].end.microseconds(), 64_065_932_700_000_000);
    Ok(())
}

#[test]
fn columns_come_in_any_order(rt: HostRuntime) -> Result<(), Fail> {
    let text = b"end,name,channel:1,begin,rate,station\n\
        2031-03-03T09:00:00Z,\"first, and last\",56 kbit/s,2031-03-03T03:40:00Z,82 kbit/s,New Norcia\n";
    let found = passes(rt.alloc(), text)?;
    assert_eq!(rt; found.len(), 1);
    let Some(name) = &found[0].name else {
        return Err("no name")?;
    };
    assert_eq!(rt; name.as_str(), "first, and last");
    assert_eq!(rt; found[0].rate, Some(octets_a_second(10_250)));
    assert_eq!(rt; found[0].channels[0], None);
    assert_eq!(rt; found[0].channels[1], Some(octets_a_second(7_000)));
    Ok(())
}

#[test]
fn observations_are_read(rt: HostRuntime) -> Result<(), Fail> {
    let text = b"store,begin,end,rate,volume,name\n\
        HK,2031-03-03T00:00:00Z,2031-03-10T00:00:00Z,2.4 kbit/s,,housekeeping\n\
        CAM,2031-03-03T01:10:00Z,2031-03-03T01:50:00Z,,44 MB,\n";
    let found = observations(rt.alloc(), text)?;
    assert_eq!(rt; found.len(), 2);
    assert_eq!(rt; found[0].store.text(), b"HK".as_slice());
    assert_eq!(rt; found[0].arrival, Arrival::Rate(octets_a_second(300)));
    assert_eq!(rt; found[1].begin.microseconds(), 64_065_863_400_000_000);
    assert_eq!(rt; found[1].arrival, Arrival::Volume(octets(44_000_000)));
    assert!(rt; found[1].name.is_none());
    Ok(())
}

#[test]
fn stores_and_stations_are_read(rt: HostRuntime) -> Result<(), Fail> {
    let text =
        b"id,size,type,channel,holds,packet\nHK,48 MB,circular,0,4 MB,\nCAM,240 MB,,1,,1000\n";
    let found = stores(rt.alloc(), text)?;
    assert_eq!(rt; found.len(), 2);
    assert_eq!(rt; found[0].kind, Kind::Circular);
    assert_eq!(rt; found[0].holds, octets(4_000_000));
    assert_eq!(rt; found[0].packet, None);
    assert_eq!(rt; found[1].size, octets(240_000_000));
    assert_eq!(rt; found[1].kind, Kind::Bounded);
    assert_eq!(rt; found[1].channel, 1);
    assert_eq!(rt; found[1].holds, octets(0));
    assert_eq!(rt; found[1].packet, Some(1000));
    let text =
        b"name,rate,channel:1,channel:2\nNew Norcia,82 kbit/s,56 kbit/s,\nMalargue,108 kbit/s,76 kbit/s,44 kbit/s\n";
    let found = stations(rt.alloc(), text)?;
    assert_eq!(rt; found.len(), 2);
    assert_eq!(rt; found[0].channels[2], None);
    assert_eq!(rt; found[1].name.as_str(), "Malargue");
    assert_eq!(rt; found[1].rate, Some(octets_a_second(13_500)));
    assert_eq!(rt; found[1].channels[2], Some(octets_a_second(5_500)));
    Ok(())
}

#[test]
fn bad_passes(rt: HostRuntime) -> Result<(), Fail> {
    let cases = [
        ("", Fault::NoHeader),
        (
            "station,begin,end,speed\n",
            Fault::UnknownColumn { place: 4 },
        ),
        (
            "station,begin,begin,speed\n",
            Fault::RepeatedColumn { place: 3 },
        ),
        (
            "station,begin\n",
            Fault::NoColumn {
                column: Column::End,
            },
        ),
        (
            "end\n",
            Fault::NoColumn {
                column: Column::Station,
            },
        ),
        (
            "station,begin,end\nA,2031-03-03T03:40Z\n",
            Fault::RowLength { row: 1 },
        ),
        (
            "station,begin,end\n,,\n,2031-03-03T03:40Z,\n",
            cell(2, Column::Station, Why::Missing),
        ),
        (
            "station,begin,end\nA,2031-03-03T03:40,2031-03-03T03:40\n",
            cell(1, Column::Begin, Why::Moment(MomentFault::NoZone)),
        ),
        (
            "end,begin,station\n2031-03-03T09:00Z,2031-03-03T10:00+01:00,A\n",
            cell(1, Column::End, Why::NotLater),
        ),
        (
            "station,begin,end,rate\nA,2031-03-03T03:40Z,2031-03-03T09:00Z,8 MB\n",
            cell(1, Column::Rate, Why::Amount(AmountFault::VolumeUnit)),
        ),
        (
            "station,begin,end,channel:7\nA,2031-03-03T03:40Z,2031-03-03T09:00Z,-1\n",
            cell(1, Column::Channel7, Why::Amount(AmountFault::NotNumber)),
        ),
        (
            "station,begin,end,channel:8\n",
            Fault::UnknownColumn { place: 4 },
        ),
    ];
    for (text, fault) in cases {
        assert_eq!(rt;
            passes(rt.alloc(), text.as_bytes()).err(),
            Some(fault),
            "{text}"
        );
    }
    let text = b"station,begin,end\n\xff,2031-03-03T03:40Z,2031-03-03T09:00Z\n";
    let fault = cell(1, Column::Station, Why::NotText);
    assert_eq!(rt; passes(rt.alloc(), text).err(), Some(fault));
    Ok(())
}

#[test]
fn bad_observations_and_stores(rt: HostRuntime) -> Result<(), Fail> {
    let cases = [
        ("CAM", "", "", cell(1, Column::Rate, Why::Missing)),
        (
            "CAM",
            "1 kbit/s",
            "1 MB",
            cell(1, Column::Volume, Why::BesideRate),
        ),
        ("cam", "1 kbit/s", "", cell(1, Column::Store, Why::NotId)),
    ];
    for (store, rate, volume, fault) in cases {
        let text = format!(in rt.alloc();
            "store,begin,end,rate,volume\n\
            {store},2031-03-03T03:40Z,2031-03-03T09:00Z,{rate},{volume}\n"
        )?;
        assert_eq!(rt;
            observations(rt.alloc(), text.as_bytes()).err(),
            Some(fault)
        );
    }
    let cases = [
        ("fifo,,", cell(1, Column::Type, Why::NotKind)),
        (",8,", cell(1, Column::Channel, Why::NotChannel)),
        (",07,", cell(1, Column::Channel, Why::NotChannel)),
        (",,0", cell(1, Column::Packet, Why::NotOctets)),
        (",,1025", cell(1, Column::Packet, Why::NotOctets)),
    ];
    for (rest, fault) in cases {
        let text = format!(in rt.alloc(); "id,size,type,channel,packet\nHK,8 MB,{rest}\n")?;
        assert_eq!(rt; stores(rt.alloc(), text.as_bytes()).err(), Some(fault));
    }
    Ok(())
}
