//! What `read` prints of packets.

use crate::tests::samples::{prints, refuses};

// A request to enable the store SCI, and an answer of `ask`, which is no packet and is printed as it stands.
const PACKETS: &str = "1864C000000D 200F010000 01 5343492020202020\n2.1 done\n";

const WORDS: &str = "\
1 telecommand apid 100 count 0 length 13 acknowledgement 0 service 15 subtype 1 source 0
  enable storage
    1.1 SCI
2.1 done
";

#[test]
fn packets_in_words(rt: HostRuntime) {
    prints(&rt, PACKETS, &["read P\n=== P\n", PACKETS], WORDS, 0);
}

static REFUSED: [(&str, &str); 2] = [
    ("read P\n=== P\nzz\n", "1 refused 49 HexLine\n"),
    ("read P\n", "refused 50 NotRead name P\n"),
];

#[test]
fn packets_that_are_refused(rt: HostRuntime) {
    refuses(&rt, &REFUSED);
}
