//! Texts of setups, each with its contents or its expected fault.
use super::is_shown;
use crate::tests::samples::{Runtime, SCI, joined, problem_of, repeated, row};
use mm_problem::{Kind, LimitRow, RouteRow, Setup};

const ROUTE: &str = "[[route]]\napid = 100\nservice = 3\nsubtype = 25\nstore = \"SCI\"\n";

// The text is refused with this fault.
fn refused(rt: &impl Runtime, text: &[u8], fault: &str) {
    is_shown(rt, Setup::read(rt.alloc(), text).err(), fault);
}

// Each of these lines is refused with its fault after this text.
fn refused_after(rt: &impl Runtime, head: &str, cases: &[(&str, &str)]) {
    for (lines, fault) in cases {
        refused(rt, joined(rt, &[head, *lines]).as_bytes(), fault);
    }
}

// Texts in three parts.
static SETUP_TEXTS_REFUSED: [([&str; 3], &str); 9] = refused! {
    "27 SetupText": ["[[store", "", ""];
    "28 SetupField row 0 name store": ["", "", ""];
    "33 Limit name stores": ["store = []", "", ""];
    "28 SetupField row 1 name unknown": [SCI, "colour = 1\n", ROUTE];
    "28 SetupField row 1 name store": [SCI, "[[route]]\napid = 100\nservice = 3\nsubtype = 25\nstore = \"HK\"\n", ""];
    "28 SetupField row 2 name repeated": [SCI, SCI, ROUTE], [SCI, ROUTE, ROUTE];
    "28 SetupField row 1 name route": ["route = [1]\n", SCI, ""];
    "28 SetupField row 1 name limit": ["limit = [1]\n", SCI, ""];
};

#[test]
fn setup_texts_refused(rt: HostRuntime) {
    for (parts, fault) in &SETUP_TEXTS_REFUSED {
        refused(&rt, joined(&rt, parts).as_bytes(), fault);
    }
}

// Arrays that are nested this deep are refused with this fault.
fn nested(rt: &impl Runtime, depth: usize, fault: &str) {
    let open = repeated(rt, "title = ", "[", depth, "");
    let text = repeated(rt, open.as_str(), "]", depth, "");
    refused(rt, text.as_bytes(), fault);
}

static DOCUMENTS_REFUSED: [(&str, &str); 15] = refused! {
    "27 SetupText": "store", "store = [1";
    // A float that overflows, and one that does not.
    "27 SetupText": "title = 1e999";
    "28 SetupField row 0 name unknown": "title = 1e99", "title = 1", "store = 3\ntitle = 1";
    "28 SetupField row 0 name store": "store = 3", "[store]\nid = \"SCI\"", "route = 3";
    "28 SetupField row 0 name route": "store = []\nroute = 3\nlimit = 3";
    "28 SetupField row 0 name limit": "store = []\nlimit = {}";
    "33 Limit name stores":
        "store = [1, 2, 3, 4, 5, 6, 7, 8, 9, 10, 11, 12, 13, 14, 15, 16, 17]",
        "store = []\nlimit = [1, 2, 3, 4, 5, 6, 7, 8, 9]";
    "33 Limit name limits": "store = [1]\nlimit = [1, 2, 3, 4, 5, 6, 7, 8, 9]";
    "28 SetupField row 1 name store": "store = [1]\nroute = [1]";
};

#[test]
fn documents_refused(rt: HostRuntime) {
    refused(&rt, b"\xff", "27 SetupText");
    refused_after(&rt, "", &DOCUMENTS_REFUSED);
    nested(&rt, 10, "28 SetupField row 0 name unknown");
    nested(&rt, 1000, "27 SetupText");
    let head = "store = [1]\nlimit = [1, 2, 3, 4, 5, 6, 7, 8, 9]\nroute = [";
    let routes = repeated(&rt, head, "1, ", 257, "]");
    refused(&rt, routes.as_bytes(), "33 Limit name routes");
}

static STORES_REFUSED: [(&str, &str); 31] = refused! {
    "28 SetupField row 1 name id":
        "size = 4\ntype = \"bounded\"\nchannel = 0\nid = 7",
        "size = 4\ntype = \"bounded\"\nchannel = 0",
        "id = \"sci\"\nsize = 4\ntype = \"bounded\"\nchannel = 0",
        "id = \"\"\nsize = 4\ntype = \"bounded\"\nchannel = 0",
        "id = \"ABCDEFGHI\"\nsize = 4\ntype = \"bounded\"\nchannel = 0";
    "28 SetupField row 1 name size":
        "id = \"SCI\"\ntype = \"bounded\"\nchannel = 0",
        "id = \"SCI\"\nsize = \"4\"\ntype = \"bounded\"\nchannel = 0",
        "id = \"SCI\"\nsize = 4.0\ntype = \"bounded\"\nchannel = 0",
        "id = \"SCI\"\nsize = true\ntype = \"bounded\"\nchannel = 0",
        "id = \"SCI\"\nsize = 1979-05-27\ntype = \"bounded\"\nchannel = 0";
    "33 Limit name size":
        "id = \"SCI\"\nsize = 0\ntype = \"bounded\"\nchannel = 0",
        "id = \"SCI\"\nsize = -4\ntype = \"bounded\"\nchannel = 0",
        "id = \"SCI\"\nsize = 1000001\ntype = \"bounded\"\nchannel = 0",
        "id = \"SCI\"\nsize = 9223372036854775807\ntype = 1\nchannel = 0";
    "27 SetupText":
        "id = \"SCI\"\nsize = 9223372036854775808\ntype = \"bounded\"\nchannel = 0",
        "id = \"SCI\"\nsize = 4\nsize = 4\ntype = \"bounded\"\nchannel = 0";
    "28 SetupField row 1 name type":
        "id = \"SCI\"\nsize = 4\nchannel = 0",
        "id = \"SCI\"\nsize = 4\ntype = 1\nchannel = 0",
        "id = \"SCI\"\nsize = 4\ntype = \"Bounded\"\nchannel = 0";
    "28 SetupField row 1 name channel":
        "id = \"SCI\"\nsize = 4\ntype = \"bounded\"",
        "id = \"SCI\"\nsize = 4\ntype = \"bounded\"\nchannel = \"0\"";
    "33 Limit name channel":
        "id = \"SCI\"\nsize = 4\ntype = \"bounded\"\nchannel = 8",
        "id = \"SCI\"\nsize = 4\ntype = \"bounded\"\nchannel = -1";
    "28 SetupField row 1 name start":
        "id = \"SCI\"\nsize = 4\ntype = \"bounded\"\nchannel = 0\nstart = \"1\"";
    "33 Limit name start":
        "id = \"SCI\"\nsize = 4\ntype = \"bounded\"\nchannel = 0\nstart = 5",
        "id = \"SCI\"\nsize = 4\ntype = \"bounded\"\nchannel = 0\nstart = -1";
    // several faults: a strange key first, then the keys in their order
    "28 SetupField row 1 name unknown":
        "id = \"sci\"\nsize = 0\ntype = \"ring\"\nchannel = 8\nstart = 5\ncolour = 1";
    "28 SetupField row 1 name id":
        "start = 5\nchannel = 8\ntype = \"ring\"\nsize = 0\nid = \"sci\"";
    "33 Limit name size": "start = 5\nchannel = 8\ntype = \"ring\"\nsize = 0\nid = \"SCI\"";
    "28 SetupField row 1 name type":
        "start = 5\nchannel = 8\ntype = \"ring\"\nsize = 4\nid = \"SCI\"";
    "33 Limit name channel": "start = 5\nchannel = 8\ntype = \"bounded\"\nsize = 4\nid = \"SCI\"";
};

#[test]
fn stores_refused(rt: HostRuntime) {
    refused_after(&rt, "[[store]]\n", &STORES_REFUSED);
}

static ROUTES_REFUSED: [(&str, &str); 9] = refused! {
    "28 SetupField row 1 name apid": "[[route]]\nservice = 3\nsubtype = 25\nstore = \"SCI\"";
    "33 Limit name apid": "[[route]]\napid = 2047\nservice = 3\nsubtype = 25\nstore = \"SCI\"";
    "28 SetupField row 1 name service": "[[route]]\napid = 100\nsubtype = 25\nstore = \"SCI\"";
    "33 Limit name service": "[[route]]\napid = 100\nservice = 256\nsubtype = 25\nstore = \"SCI\"";
    "28 SetupField row 1 name subtype":
        "[[route]]\napid = 100\nservice = 3\nsubtype = []\nstore = \"SCI\"";
    "33 Limit name subtype": "[[route]]\napid = 100\nservice = 3\nsubtype = -1\nstore = \"SCI\"";
    "28 SetupField row 1 name store":
        "[[route]]\napid = 100\nservice = 3\nsubtype = 25",
        "[[route]]\napid = 100\nservice = 3\nsubtype = 25\nstore = 1";
    "28 SetupField row 1 name unknown":
        "[[route]]\napid = 100\nservice = 3\nsubtype = 25\nstore = \"SCI\"\nsize = 1";
};

#[test]
fn routes_refused(rt: HostRuntime) {
    refused_after(&rt, SCI, &ROUTES_REFUSED);
}

static LIMITS_REFUSED: [(&str, &str); 8] = refused! {
    "28 SetupField row 1 name channel": "[[limit]]\nblocks = 1";
    "33 Limit name channel": "[[limit]]\nchannel = 8\nblocks = 1";
    "28 SetupField row 1 name blocks":
        "[[limit]]\nchannel = 0", "[[limit]]\nchannel = 0\nblocks = 1.5";
    "33 Limit name blocks": "[[limit]]\nchannel = 0\nblocks = 1000001";
    "28 SetupField row 1 name unknown": "[[limit]]\nchannel = 0\nblocks = 1\nsize = 1";
    "28 SetupField row 2 name repeated":
        "[[limit]]\nchannel = 0\nblocks = 1\n[[limit]]\nchannel = 0\nblocks = 2";
    "28 SetupField row 0 name limit": "[limit]\nchannel = 0\nblocks = 1";
};

#[test]
fn limits_refused(rt: HostRuntime) {
    refused_after(&rt, SCI, &LIMITS_REFUSED);
}

const SECOND: &str =
    "[[store]]\r\nchannel = 0x7\r\ntype = 'circular'\r\nsize = +1_000_000\r\nstart = 2\r\nid = 'HK-1_'\r\n";

const LIMIT: &str = "[[limit]]\nchannel = 7\nblocks = 0\n";

const NO_BLOCKS: LimitRow = LimitRow {
    channel: 7,
    blocks: 0,
};

// The setup has the two stores, the one route and the one limit.
fn has_rows(rt: &impl Runtime, setup: &Setup) {
    let first = row(rt, "SCI", 4, 0, 0);
    let mut second = row(rt, "HK-1_", 1_000_000, 2, 7);
    second.kind = Kind::Circular;
    let route = RouteRow {
        apid: 100,
        service: 3,
        subtype: 25,
        store: first.id,
    };
    assert!(rt; setup.stores() == [first, second].as_slice());
    assert!(rt; setup.routes() == [route].as_slice());
    assert!(rt; setup.limits() == [NO_BLOCKS].as_slice());
}

#[test]
fn a_setup_is_read(rt: HostRuntime) {
    let text = joined(&rt, &[SCI, SECOND, ROUTE, LIMIT]);
    let setup = Setup::read(rt.alloc(), text.as_bytes()).expect(&rt, "a setup");
    has_rows(&rt, &setup);
}

// Spreadsheets and editors may write a byte order mark at the beginning of a file.
#[test]
fn a_byte_order_mark_is_passed_over(rt: HostRuntime) {
    let setup = joined(&rt, &["\u{feff}", SCI]);
    let problem = problem_of(&rt, setup.as_str(), "\u{feff}step,window,SCI\n1,2,3\n");
    assert!(rt; (problem.stores(), problem.steps()) == (1, 1));
    assert!(rt; problem.arrivals(0, 1) == 3);
}

#[test]
fn empty_arrays_are_as_none(rt: HostRuntime) {
    let text = joined(&rt, &["route = []\nlimit = []\n", SCI]);
    let setup = Setup::read(rt.alloc(), text.as_bytes()).expect(&rt, "a setup");
    assert!(rt; setup.stores().len() == 1);
    assert!(rt; setup.routes().is_empty() && setup.limits().is_empty());
}
