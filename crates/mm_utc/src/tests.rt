//! Texts with values from outside: Python's `datetime` and `Fraction`.
use crate::{AmountFault, Fraction, Measure, Moment, MomentFault, Rate, Volume};
use std::test::Fail;

#[test]
fn moments_are_read_and_printed(rt: HostRuntime) -> Result<(), Fail> {
    let cases = [
        ("0001-01-01T00:00:00Z", 0, "0001-01-01T00:00:00Z"),
        (
            "9999-12-31T23:59:59.999999Z",
            315_537_897_599_999_999,
            "9999-12-31T23:59:59.999999Z",
        ),
        (
            "2027-060T12:00:00Z",
            63_939_499_200_000_000,
            "2027-03-01T12:00:00Z",
        ),
        (
            "2028-366T00:00Z",
            63_997_430_400_000_000,
            "2028-12-31T00:00:00Z",
        ),
        (
            "2000-02-29 06:30Z",
            63_087_402_600_000_000,
            "2000-02-29T06:30:00Z",
        ),
        (
            "2031-03-03T08:00:00.25+02:00",
            64_065_880_800_250_000,
            "2031-03-03T06:00:00.250000Z",
        ),
        (
            "2031-03-02T20:30:00-09:30",
            64_065_880_800_000_000,
            "2031-03-03T06:00:00Z",
        ),
        (
            "2100-03-01T00:00:00Z",
            66_243_139_200_000_000,
            "2100-03-01T00:00:00Z",
        ),
    ];
    for (text, microseconds, printed) in cases {
        let moment = Moment::parse(text.as_bytes())?;
        assert_eq!(rt; moment.microseconds(), microseconds, "{text}");
        let mut out = Vec::new(rt.alloc());
        moment.push(&mut out)?;
        assert_eq!(rt; out.as_slice(), printed.as_bytes(), "{text}");
    }
    Ok(())
}

#[test]
fn other_texts_are_no_moments(rt: HostRuntime) -> Result<(), Fail> {
    let cases = [
        ("2027-03-01", MomentFault::Form),
        ("2027-03-01T12:00:00 UTC", MomentFault::Form),
        ("2027-3-1T12:00:00Z", MomentFault::Form),
        ("2027-02-29T12:00:00Z", MomentFault::NoSuchDay),
        ("2027-366T12:00:00Z", MomentFault::NoSuchDay),
        ("2027-13-01T12:00:00Z", MomentFault::NoSuchDay),
        ("2027-03-01T24:00:00Z", MomentFault::NoSuchTime),
        ("2016-12-31T23:59:60Z", MomentFault::LeapSecond),
        ("2027-03-01T12:00:00.1234567Z", MomentFault::TooFine),
        ("2027-03-01T12:00:00", MomentFault::NoZone),
        ("2027-03-01T12:00:00+24:00", MomentFault::NoSuchOffset),
        ("0001-01-01T00:59:59+01:00", MomentFault::OutsideYears),
        ("9999-12-31T23:00:00-01:00", MomentFault::OutsideYears),
        ("0000-01-01T00:00:00Z", MomentFault::OutsideYears),
    ];
    for (text, fault) in cases {
        assert_eq!(rt; Moment::parse(text.as_bytes()).err(), Some(fault), "{text}");
    }
    Ok(())
}

#[test]
fn volumes_and_rates_are_read_exactly(rt: HostRuntime) -> Result<(), Fail> {
    let volumes = [
        ("8 MB", 8_000_000, 1, Measure::Octets),
        ("2.5 GiB", 2_684_354_560, 1, Measure::Octets),
        ("1/3 kB", 1_000, 3, Measure::Octets),
        ("2.500000000000000 kB", 2_500, 1, Measure::Octets),
        ("12bit", 3, 2, Measure::Octets),
        ("3000", 3_000, 1, Measure::Octets),
        ("100 blocks", 100, 1, Measure::Blocks),
    ];
    for (text, above, below, measure) in volumes {
        let volume = Volume::parse(text.as_bytes())?;
        assert_eq!(rt; volume.amount, Fraction { above, below }, "{text}");
        assert_eq!(rt; volume.measure, measure, "{text}");
    }
    let rates = [
        ("64 kbit/s", 8_000, 1, Measure::Octets),
        ("2.4 kbps", 300, 1, Measure::Octets),
        ("1/3 Mbit/s", 125_000, 3, Measure::Octets),
        ("9600", 1_200, 1, Measure::Octets),
        ("7.5 blocks/min", 1, 8, Measure::Blocks),
    ];
    for (text, above, below, measure) in rates {
        let rate = Rate::parse(text.as_bytes())?;
        assert_eq!(rt; rate.amount, Fraction { above, below }, "{text}");
        assert_eq!(rt; rate.measure, measure, "{text}");
    }
    Ok(())
}

#[test]
fn other_texts_are_no_volumes_and_no_rates(rt: HostRuntime) -> Result<(), Fail> {
    let volumes = [
        ("MB", AmountFault::NotNumber),
        ("-8 MB", AmountFault::NotNumber),
        ("8. MB", AmountFault::NotNumber),
        ("08 MB", AmountFault::NotNumber),
        ("1/0 MB", AmountFault::OverZero),
        ("2000 TB", AmountFault::TooLarge),
        ("1.0000000000000001 B", AmountFault::TooLarge),
        ("8 mb", AmountFault::NoSuchUnit),
        ("8 MB ", AmountFault::NoSuchUnit),
        ("8 Mbit/s", AmountFault::RateUnit),
    ];
    for (text, fault) in volumes {
        assert_eq!(rt; Volume::parse(text.as_bytes()).err(), Some(fault), "{text}");
    }
    let bits = Fraction {
        above: 640_000,
        below: 1,
    };
    assert_eq!(rt;
        Rate::parse(b"80 kB/s").err(),
        Some(AmountFault::BitsMeant(bits))
    );
    assert_eq!(rt;
        Rate::parse(b"640 Kbit/s").err(),
        Some(AmountFault::BitsMeant(bits))
    );
    assert_eq!(rt;
        Rate::parse(b"64 kbit").err(),
        Some(AmountFault::VolumeUnit)
    );
    let fault = AmountFault::BitsMeant(bits).to_string(rt.alloc())?;
    assert_eq!(rt; fault.as_str(), "rates are in bits a second: 640000 bit/s");
    Ok(())
}
