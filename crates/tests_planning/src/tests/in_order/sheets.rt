//! Plan texts of the third form: how they are read, printed and refused.
use crate::tests::in_order::{COUNTS_IN_ORDER, THREE_IN_ORDER};
use crate::tests::plans::sheets::{are_refused, prefixes_refused, read_and_printed};
use crate::tests::samples::{Runtime, sheet_of};
use mm_plan::{Certificate, Sheet};

// Three stores that lose nothing.
const NO_LOSS: &[u8] =
    b"mmplan 3\nstores A B C\ndump 1 0 0 0\nloss 0\nbound 0\nfirst 1\nloss 0\nbound 0\nfirst 2\nloss 0\nbound 0\nend\n";

#[test]
fn sheets_in_order_are_printed_as_they_are_read(rt: HostRuntime) {
    read_and_printed(&rt, THREE_IN_ORDER, THREE_IN_ORDER);
    read_and_printed(&rt, COUNTS_IN_ORDER, COUNTS_IN_ORDER);
}

// A certificate: its loss, its bound, and its numbers of stretches and counts.
fn says(rt: &impl Runtime, certificate: &Certificate, wanted: (u64, i64, usize, usize)) {
    let (cut, counts) = (certificate.cut().len(), certificate.by_channels().len());
    assert!(rt; (certificate.loss(), certificate.bound(), cut, counts) == wanted);
}

// The sheet has a certificate of its own, and one of the first store and of the first two.
fn has_parts(rt: &impl Runtime, sheet: &Sheet) {
    let firsts = sheet.firsts().expect(rt, "certificates");
    assert!(rt; (sheet.loss(), sheet.bound(), sheet.cut().len()) == (6, 6, 3));
    assert!(rt; firsts.len() == 2);
    says(rt, &firsts[0], (2, 2, 1, 0));
    says(rt, &firsts[1], (4, 4, 2, 0));
}

#[test]
fn three_in_order_are_read(rt: HostRuntime) {
    has_parts(&rt, &sheet_of(&rt, THREE_IN_ORDER));
}

// Each text with the line of its refusal; 0 if it is that of a sheet.
static REFUSED: [(&[u8], u32); 19] = wanted! {
    NO_LOSS => 0;
    // one store has no part, and may have a count
    b"mmplan 3\nstores A\ndump 1 0\nloss 0\nbound 0\nend\n" => 0;
    b"mmplan 3\nstores A\ndump 1 0\nloss 0\ncount 1 channels\nbound 0\nend\n" => 0;
    b"mmplan 3\nstores A\ndump 1 0\nloss 0\nbound 0\nfirst 1\nloss 0\nbound 0\nend\n" => 6;
    // the second part before the first
    b"mmplan 3\nstores A B C\ndump 1 0 0 0\nloss 0\nbound 0\nfirst 2\nloss 0\nbound 0\nfirst 1\nloss 0\nbound 0\nend\n"
    => 6;
    // too few parts
    b"mmplan 3\nstores A B C\ndump 1 0 0 0\nloss 0\nbound 0\nend\n" => 6;
    b"mmplan 3\nstores A B C\ndump 1 0 0 0\nloss 0\nbound 0\nfirst 1\nloss 0\nbound 0\nend\n" => 9;
    // one part too many
    b"mmplan 3\nstores A B C\ndump 1 0 0 0\nloss 0\nbound 0\nfirst 1\nloss 0\nbound 0\n\
    first 2\nloss 0\nbound 0\nfirst 3\nloss 0\nbound 0\nend\n" => 12;
    // a part twice
    b"mmplan 3\nstores A B C\ndump 1 0 0 0\nloss 0\nbound 0\nfirst 1\nloss 0\nbound 0\nfirst 1\nloss 0\nbound 0\nend\n"
    => 9;
    b"mmplan 3\nstores A B\ndump 1 0 0\nloss 0\nbound 0\nfirst 0\nloss 0\nbound 0\nend\n" => 6;
    b"mmplan 3\nstores A B\ndump 1 0 0\nloss 0\nbound 0\nfirst 01\nloss 0\nbound 0\nend\n" => 6;
    // a part in the other forms
    b"mmplan 1\nstores A B\ndump 1 0 0\nloss 0\nbound 0\nfirst 1\nloss 0\nbound 0\nend\n" => 6;
    b"mmplan 2\nstores A B\ndump 1 0 0\nloss 0\ncount 1 channels\nbound 0\nfirst 1\nloss 0\nbound 0\nend\n" => 7;
    b"mmplan 4\nstores A\ndump 1 0\nloss 0\nbound 0\nend\n" => 1;
    // a part before the certificate of all stores, without its loss, without its bound, and with a stretch after a
    // count
    b"mmplan 3\nstores A B\ndump 1 0 0\nfirst 1\nloss 0\nbound 0\nloss 0\nbound 0\nend\n" => 4;
    b"mmplan 3\nstores A B\ndump 1 0 0\nloss 0\nbound 0\nfirst 1\nbound 0\nend\n" => 7;
    b"mmplan 3\nstores A B\ndump 1 0 0\nloss 0\nbound 0\nfirst 1\nloss 0\nend\n" => 8;
    b"mmplan 3\nstores A B\ndump 1 0 0\nloss 0\nbound 0\nfirst 1\nloss 0\ncount 1 channels\n\
    stretch A 1 1\nbound 0\nend\n" => 9;
    b"mmplan 3\nstores A B\ndump 1 0 0\nloss 0\nbound 0\nfirst 1\nloss 0\nbound 0\nend\nend\n" => 10;
};

#[test]
fn texts_in_order_refused(rt: HostRuntime) {
    are_refused(&rt, &REFUSED);
    prefixes_refused(&rt, NO_LOSS);
}
