//! Identifiers, kinds, numbers and lines, and refusals of several types in one text.
use crate::tests::samples::{Host, holds, is_shown};
use mm_base::numbers::{Numeral, push_number};
use mm_base::{Fault, Kind, NoMemory, StoreId, lines};

fn id(rt: &impl Host, text: &str) -> StoreId {
    StoreId::of_text(text.as_bytes()).expect(rt, "an identifier")
}

static BAD_TEXTS: [&str; 5] = ["", "sci", "A B", "ABCDEFGHI", "\u{c4}"];

static BAD_FIELDS: [[u8; 8]; 4] = [*b"        ", *b" SCI    ", *b"SC I    ", *b"SCI\0\0\0\0\0"];

// This identifier is read, or the text is refused with this fault.
fn is_read(rt: &impl Host, read: Result<StoreId, Fault>, want: Result<StoreId, Fault>) {
    holds(rt, read == want, "the identifier");
}

#[test]
fn identifiers_are_read(rt: HostRuntime) {
    let sci = id(&rt, "SCI");
    assert!(rt; sci.field() == *b"SCI     ");
    assert!(rt; sci.text() == b"SCI".as_slice());
    is_read(&rt, StoreId::of_field(*b"SCI     "), Ok(sci));
}

#[test]
fn identifiers_are_refused(rt: HostRuntime) {
    for text in &BAD_TEXTS {
        is_read(&rt, StoreId::of_text(text.as_bytes()), Err(Fault::BadId));
    }
    for field in &BAD_FIELDS {
        is_read(&rt, StoreId::of_field(*field), Err(Fault::BadId));
    }
}

#[test]
fn kinds_are_read_by_their_codes(rt: HostRuntime) {
    let kinds = [Kind::of_code(1), Kind::of_code(2)];
    assert!(rt; kinds == [Ok(Kind::Bounded), Err(Fault::BadEnum)]);
}

#[test]
fn refusals_of_several_types_stand_in_one_text(rt: HostRuntime) {
    let shown = format!(in rt.alloc(); "{} {}", NoMemory, Fault::BadEnum).expect(&rt, "memory");
    assert!(rt; shown.as_str() == "0 NoMemory 16 BadEnum");
}

#[test]
fn identifiers_are_parsed_and_converted(rt: HostRuntime) {
    let sci = id(&rt, "SCI");
    is_read(&rt, "SCI".parse::<StoreId>(), Ok(sci));
    is_read(&rt, "sci".parse::<StoreId>(), Err(Fault::BadId));
    is_read(&rt, StoreId::try_from(*b"SCI     "), Ok(sci));
}

#[test]
fn kinds_are_converted_and_shown(rt: HostRuntime) {
    let kinds = [Kind::try_from(0), Kind::try_from(2)];
    assert!(rt; kinds == [Ok(Kind::Circular), Err(Fault::BadEnum)]);
    is_shown(&rt, &Kind::Circular, "circular");
    is_shown(&rt, &Kind::Bounded, "bounded");
}

static NUMERALS: [(&str, Numeral); 7] = [
    ("0", Numeral::Number(0)),
    ("256", Numeral::Number(256)),
    ("257", Numeral::TooLarge),
    ("99999999999999999999999", Numeral::TooLarge),
    ("", Numeral::NotNumber),
    ("01", Numeral::NotNumber),
    ("-1", Numeral::NotNumber),
];

#[test]
fn numbers_are_read(rt: HostRuntime) {
    for (text, numeral) in &NUMERALS {
        holds(&rt, Numeral::read(text.as_bytes(), 256) == *numeral, text);
    }
}

#[test]
fn numbers_are_written(rt: HostRuntime) {
    let mut text = Vec::from_slice(rt.alloc(), b"size ").expect(&rt, "memory");
    push_number(&mut text, 1000000).expect(&rt, "memory");
    assert!(rt; text.as_slice() == b"size 1000000".as_slice());
}

#[test]
fn a_line_ends_at_its_line_feed(rt: HostRuntime) {
    let two = (b"one".as_slice(), b"two\n".as_slice());
    assert!(rt; lines::split_line(b"one\ntwo\n") == Some(two));
    assert!(rt; lines::split_line(b"one").is_none());
}
