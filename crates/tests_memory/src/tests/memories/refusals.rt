//! Which of two refusals comes first.
use super::{asks, has_counts, stands};
use crate::tests::samples::{Host, ONE_STORE, holds, id, memory_of};
use mm_control::Fault::{NoSuchRoute, TableFull};
use mm_desk::Fault::{Busy, StorageOn};
use mm_memory::Answer::{Done, Refused};
use mm_memory::Fault::{
    BadEnum, BadId, BadSize, Control, Exists, NoSuchStore, State, TooManyStores,
};
use mm_memory::{Answer, Memory};

// Cases by their answers: a subtype, an identifier, and the fields after it.
macro_rules! cases {
    ($($want:expr => $($subtype:literal $id:ident $fields:expr),*;)*) => {
        [$($(Case { subtype: $subtype, id: $id, fields: $fields, want: $want }),*),*]
    };
}

const SCI: [u8; 8] = *b"SCI     ";

// No store has this identifier.
const NONE: [u8; 8] = *b"NONE    ";

// This is no identifier.
const BAD: [u8; 8] = *b"sci     ";

// The stores from which a retrieval is on. The second also has storage on.
const READ: [u8; 8] = *b"READ    ";

const BOTH: [u8; 8] = *b"BOTH    ";

// Report types: one that has a route to SCI, one that has none, and one whose APID is not allowed.
const TYPE: &[u8] = b"\x00\x64\x03\x19";

const OTHER_TYPE: &[u8] = b"\x00\x64\x03\x1A";

const BAD_TYPE: &[u8] = b"\x07\xFF\x03\x19";

// Ranges of storage times: one, and one that begins after its end.
const RANGE: &[u8] = b"\0\0\0\0\0\0\0\x01\0\0\0\0\0\0\0\xFF";

const LATE: &[u8] = b"\0\0\0\0\0\0\0\x09\0\0\0\0\0\0\0\x08";

// Sizes, types and virtual channels of stores: one that is good, and others with a field that is not allowed.
const FORM: &[u8] = b"\x00\x00\x00\x04\x01\x00";

const BAD_KIND_AND_SIZE: &[u8] = b"\x00\x00\x00\x00\x02\x00";

const BAD_CHANNEL_AND_SIZE: &[u8] = b"\x00\x00\x00\x00\x01\x08";

const BAD_KIND: &[u8] = b"\x00\x00\x00\x04\x02\x00";

const TOO_LARGE: &[u8] = b"\x00\x0F\x42\x41\x01\x00";

struct Case {
    subtype: u8,
    id: [u8; 8],
    fields: &'static [u8],
    want: Answer,
}

// The data of a request with one instruction.
fn data_of(rt: &impl Host, case: &Case) -> Vec<u8> {
    let mut data = [1].to_vec(rt.alloc()).expect(rt, "memory");
    data.extend_from_slice(&case.id).expect(rt, "memory");
    data.extend_from_slice(case.fields).expect(rt, "memory");
    data
}

// Asks for each by itself, and compares the answers.
fn asks_each(rt: &impl Host, memory: &mut Memory, name: &str, cases: &[Case]) {
    for (place, case) in cases.iter().enumerate() {
        let data = data_of(rt, case);
        let is_so = asks(rt, memory, (case.subtype, &data), &[case.want]);
        assert!(rt; is_so, "{name}: case {place}");
    }
}

// The stores READ and BOTH, and then what is refused. A malformed identifier comes before all else; a type, a channel
// or an APID before a size, and each of them before what there is; a store that is not there before what it would
// answer. Storage on comes before a retrieval, and a retrieval before its range.
static CASES: [Case; 39] = cases! {
    Done => 20 READ FORM, 9 READ RANGE, 20 BOTH FORM, 9 BOTH RANGE, 1 BOTH b"";

    Refused(BadId) => 20 BAD BAD_KIND, 20 BAD BAD_CHANNEL_AND_SIZE, 20 BAD TOO_LARGE, 3 BAD BAD_TYPE, 4 BAD BAD_TYPE,
        28 BAD b"\x08", 25 BAD b"\0\0\0\0", 9 BAD LATE, 21 BAD b"";

    Refused(BadEnum) => 20 NONE BAD_KIND_AND_SIZE, 20 NONE BAD_CHANNEL_AND_SIZE, 20 SCI BAD_KIND;
    Refused(BadSize) => 20 SCI TOO_LARGE;
    Refused(BadEnum) => 3 NONE BAD_TYPE, 4 NONE BAD_TYPE, 4 SCI BAD_TYPE, 28 NONE b"\x08", 28 SCI b"\x08",
        28 READ b"\x08";
    Refused(BadSize) => 25 NONE b"\x00\x0F\x42\x41", 25 SCI b"\0\0\0\0", 25 READ b"\0\0\0\0",
        25 BOTH b"\x00\x0F\x42\x41";

    Refused(NoSuchStore) => 9 NONE LATE, 4 NONE OTHER_TYPE;
    Refused(State(StorageOn)) => 21 BOTH b"", 25 BOTH b"\0\0\0\x01", 26 BOTH b"", 27 BOTH b"", 28 BOTH b"\x01";
    Refused(State(Busy)) => 21 READ b"", 27 READ b"", 28 READ b"\x01", 9 READ LATE;
};

#[test]
fn the_first_refusal_is_answered(rt: HostRuntime) {
    let mut memory = memory_of(&rt, ONE_STORE);
    asks_each(&rt, &mut memory, "two stores more", &CASES);
}

// Where there are sixteen stores.
static SIXTEEN: [Case; 6] = cases! {
    Refused(TooManyStores) => 20 NONE FORM;
    Refused(Exists) => 20 SCI FORM;
    Refused(BadSize) => 20 NONE TOO_LARGE;
    Refused(BadEnum) => 20 NONE BAD_KIND;
    Refused(BadId) => 20 BAD FORM;
    Refused(NoSuchStore) => 1 NONE b"";
};

// A store more, with this letter for its identifier.
fn creates(rt: &impl Host, memory: &mut Memory, letter: u8) {
    let mut data = *b"\x01        \x00\x00\x00\x04\x01\x00";
    data[1] = letter;
    holds(rt, asks(rt, memory, (20, &data), &[Done]), "a store more");
}

fn are_sixteen(rt: &impl Host, memory: &mut Memory) {
    for letter in b"ABCDEFGHIJKLMNO" {
        creates(rt, memory, *letter);
    }
    holds(rt, stands(memory, 15, &id(rt, b"O"), 0), "the last");
    asks_each(rt, memory, "sixteen stores", &SIXTEEN);
    holds(rt, has_counts(memory, 16, 1), "sixteen stores");
}

#[test]
fn the_first_refusal_where_there_are_sixteen_stores(rt: HostRuntime) {
    are_sixteen(&rt, &mut memory_of(&rt, ONE_STORE));
}

// Where the table has no room.
static FULL_TABLE: [Case; 6] = cases! {
    Refused(Control(TableFull)) => 3 SCI OTHER_TYPE;
    Done => 3 SCI TYPE;
    Refused(NoSuchStore) => 3 NONE OTHER_TYPE;
    Refused(BadEnum) => 3 SCI BAD_TYPE;
    Refused(BadId) => 3 BAD OTHER_TYPE;
    Refused(Control(NoSuchRoute)) => 4 SCI OTHER_TYPE;
};

// A route more, of the APID 256 and that many.
fn routes(rt: &impl Host, memory: &mut Memory, apid: u8) {
    let mut data = *b"\x01SCI     \x01\x00\x03\x19";
    data[10] = apid;
    holds(rt, asks(rt, memory, (3, &data), &[Done]), "a route more");
}

fn is_full(rt: &impl Host, memory: &mut Memory) {
    for apid in 0..255u8 {
        routes(rt, memory, apid);
    }
    holds(rt, has_counts(memory, 1, 256), "a full table");
    asks_each(rt, memory, "a full table", &FULL_TABLE);
}

#[test]
fn the_first_refusal_of_a_full_table(rt: HostRuntime) {
    is_full(&rt, &mut memory_of(&rt, ONE_STORE));
}
