//! How many packets of made sources go to no store, and the first that no route takes, beside a plain form, which looks
//! at the digits of each line; and by hand.

use crate::tests::runs::trials::ONE_STORE;
use crate::tests::samples::holds;
use mm_base::lines::{cut_word, first_line};
use mm_exec::Goal;
use mm_problem::Setup;
use mm_run::{Given, RunTexts, Unstored, Untaken, run_texts};
use std::alloc::Global;
use std::ops::Range;
use std::process::Abort;
use std::str;
use std::sync::Wait;
use std::thread::Threads;

// The last step of the forecasts here.
const LAST: u32 = 2;

// What is noted of the lines of sources.
#[derive(Clone, Copy)]
struct Noted {
    unstored: Unstored,
    untaken: Option<Untaken>,
}

const NOTHING: Unstored = Unstored {
    late: 0,
    telecommands: 0,
    unrouted: 0,
};

// The digits at these places.
fn digits_at(digits: &[u8], places: Range<usize>) -> Option<&str> {
    str::from_utf8(digits.get(places)?).ok()
}

// Whether a route takes telemetry of a report type.
fn is_routed(setup: &Setup, found: &Untaken) -> bool {
    for route in setup.routes() {
        if (route.apid, route.service, route.subtype)
            == (found.apid, found.service, found.subtype)
        {
            return true;
        }
    }
    false
}

// Notes the line of this number, where it has a packet.
fn note(setup: &Setup, line: u64, text: &[u8], noted: &mut Noted) -> Option<()> {
    let (_, rest) = cut_word(text)?;
    let (step, digits) = cut_word(rest)?;
    let step = u32::from_str_radix(str::from_utf8(step).ok()?, 10).ok()?;
    let front = u16::from_str_radix(digits_at(digits, 0..4)?, 16).ok()?;
    let found = Untaken {
        line,
        apid: front & 0x07FF,
        service: u8::from_str_radix(digits_at(digits, 14..16)?, 16).ok()?,
        subtype: u8::from_str_radix(digits_at(digits, 16..18)?, 16).ok()?,
    };
    let counted = &mut noted.unstored;
    if step > LAST {
        counted.late = counted.late.saturating_add(1);
    } else if front & 0x1000 != 0 {
        counted.telecommands = counted.telecommands.saturating_add(1);
    } else if !is_routed(setup, &found) {
        counted.unrouted = counted.unrouted.saturating_add(1);
        noted.untaken = noted.untaken.or(Some(found));
    }
    Some(())
}

// What is noted of all lines.
fn plain_noted(setup: &Setup, sources: &[u8]) -> Noted {
    let mut noted = Noted {
        unstored: NOTHING,
        untaken: None,
    };
    let mut rest = sources;
    for number in 1..u64::MAX {
        let Some((line, after)) = first_line(rest) else {
            return noted;
        };
        let _packet = note(setup, number, line, &mut noted);
        rest = after;
    }
    noted
}

// A setup with this many routes, four for each APID from 0 on.
fn setup_of<R: Abort + AllocGlobal>(rt: &R, routes: usize) -> String {
    let alloc = rt.alloc();
    let store = "[[store]]\nid = \"A\"\nsize = 4\ntype = \"bounded\"\nchannel = 0\n";
    let mut text = String::from_str(alloc, store).expect(rt, "memory");
    for route in 0..routes {
        let (apid, subtype) = (route / 4, route % 4);
        let row = format!(in alloc;
            "[[route]]\napid = {apid}\nservice = 3\nsubtype = {subtype}\nstore = \"A\"\n"
        );
        text.push_str(&row.expect(rt, "memory"))
            .expect(rt, "memory");
    }
    text
}

// What lines begin with.
static FRONTS: [&str; 4] = ["1 2 ", "8 256 ", "3 0 ", "2 1 "];

// Services of which no route is, with one digit that is another or both.
static SERVICES: [usize; 4] = [0x13, 0x02, 0xF3, 0x40];

// Makes lines for a setup of this many routes, by pseudo-random numbers.
#[derive(Drop)]
struct Maker {
    routes: usize,
    state: u64,
}

impl Maker {
    // The next number (Knuth's constants for a linear congruential generator).
    fn next(&mut self, below: usize) -> usize {
        self.state = self
            .state
            .wrapping_mul(6_364_136_223_846_793_005)
            .wrapping_add(1_442_695_040_888_963_407);
        (self.state >> 40) as usize % below.max(1)
    }

    // Pushes a line with a packet of a report type, or with a telecommand. Four in this many lines are of a type beyond
    // those of the routes.
    fn push_line<R: Abort + AllocGlobal>(&mut self, rt: &R, text: &mut String, among: usize) {
        let route = self.next(self.routes);
        let (mut apid, mut service, mut subtype) = (route / 4, 3, route % 4);
        match self.next(among) {
            0 => apid = self.next(2047),
            1 => service = SERVICES.get(self.next(4)).copied().unwrap_or(0),
            2 => subtype = self.next(256),
            3 => subtype = self.next(16),
            _ => {}
        }
        let (kind, length, rest) = match self.next(9) {
            0 => (0x1800, "0004", "0000"),
            _ => (0x0800, "000E", "000000000000000000000000"),
        };
        let front = FRONTS.get(self.next(4)).copied().unwrap_or("1 2 ");
        let first = kind + apid % 2048;
        let line = format!(in rt.alloc();
            "{front}{first:04x}C000{length}20{service:02x}{subtype:02X}{rest}\n"
        );
        text.push_str(&line.expect(rt, "memory"))
            .expect(rt, "memory");
    }

    // This many lines, four in so many of which are strange, and a twentieth as many that are stranger.
    fn text<R: Abort + AllocGlobal>(&mut self, rt: &R, lines: usize, among: usize) -> String {
        let mut text = String::new(rt.alloc());
        for _ in 0..lines {
            self.push_line(rt, &mut text, among);
        }
        for _ in 0..lines / 20 {
            self.push_line(rt, &mut text, 5);
        }
        text
    }
}

// A forecast of two steps, and links that no run takes.
const FORECAST: &[u8] = b"step,window,A\n1,0,0\n2,0,0\n";

const LINKS: &[u8] = b"links 0\n";

// What a run of these sources hands out is as the plain form says, though it does not begin.
fn is_as_plain<R: Abort + AllocGlobal + Threads + Wait + Sync>(
    rt: &R,
    setup: &str,
    sources: &[u8],
) {
    let read = Setup::read(rt.alloc(), setup.as_bytes()).expect(rt, "a setup");
    let texts = RunTexts {
        setup: setup.as_bytes(),
        forecast: FORECAST,
        sources,
        links: LINKS,
    };
    let printed = run_texts(rt, rt.alloc(), texts, None, Goal::Least).expect(rt, "texts");
    let Given {
        unstored,
        untaken,
        ..
    } = printed.given;
    let plain = plain_noted(&read, sources);
    holds(rt, untaken == plain.untaken, "the first untaken");
    holds(rt, unstored == plain.unstored, "the unstored");
}

// How many lines the sources have, and among how many of them four are strange. Where none is, a route takes each
// report type, and strange lines follow.
const NONE: usize = 1 << 40;

static SIZES: [(usize, usize); 11] = [
    (0, 5),
    (1, 5),
    (9, 20),
    (40, 50),
    (40, 50),
    (40, 50),
    (40, 50),
    (40, NONE),
    (300, 200),
    (300, NONE),
    (700, NONE),
];

// Sources of each size are noted as by the plain form, for a setup of the maker's routes.
fn are_as_plain<R: Abort + AllocGlobal + Threads + Wait + Sync>(rt: &R, maker: &mut Maker) {
    let setup = setup_of(rt, maker.routes);
    for (lines, among) in &SIZES {
        let text = maker.text(rt, *lines, *among);
        is_as_plain(rt, setup.as_str(), text.as_bytes());
    }
}

#[test]
fn packets_that_no_route_takes_are_noted_as_by_a_plain_form(rt: HostRuntime) {
    let mut maker = Maker {
        routes: 1,
        state: 1,
    };
    for routes in [1, 2, 4, 60, 64, 65, 200, 256] {
        maker.routes = routes;
        are_as_plain(&rt, &mut maker);
    }
}

// Lines of sources, how many of their packets are late, telecommands and without a route, and the line of the first
// without one. The route takes APID 100, service 3, subtype 25.
static BY_HAND: [(&str, [u64; 3], Option<u64>); 4] = wanted! {
    "", [0, 0, 0] => None;
    "1 0 0864C000000E200319000000000000000000000000\n\
        1 2 0864C001000E200319000000000000000000000000\n", [0, 0, 0] => None;
    "1 3 0864C000000E200319000000000000000000000000\n1 256 1864C0010004200F160000\n\
        2 3 0864C000000E20031A000000000000000000000000\n", [3, 0, 0] => None;
    "1 1 1864C0000004200F160000\n1 3 0864C000000E20031A000000000000000000000000\n\
        1 2 0864C000000E20031A000000000000000000000000\n2 0 1864C0000004200F160000\n\
        2 0 0865C000000E200319000000000000000000000000\n\
        1 2 0864C001000E20031A000000000000000000000000\n", [1, 2, 3] => Some(3);
};

// What a run of the first setup is given, with a forecast of two steps.
fn given_by<R: Abort + Threads + Wait + Sync>(rt: &R, alloc: Global, sources: &str) -> Given {
    let texts = RunTexts {
        setup: ONE_STORE.as_bytes(),
        forecast: b"step,window,SCI\n1,0,0\n2,0,0\n",
        sources: sources.as_bytes(),
        links: LINKS,
    };
    run_texts(rt, alloc, texts, None, Goal::Least)
        .expect(rt, "texts")
        .given
}

#[test]
fn packets_that_go_to_no_store_are_counted_by_why(rt: HostRuntime) {
    for (sources, counts, first) in &BY_HAND {
        let given = given_by(&rt, rt.alloc(), *sources);
        let Unstored {
            late,
            telecommands,
            unrouted,
        } = given.unstored;
        holds(&rt, [late, telecommands, unrouted] == *counts, sources);
        holds(
            &rt,
            given.untaken.map(|untaken| untaken.line) == *first,
            sources,
        );
    }
}
