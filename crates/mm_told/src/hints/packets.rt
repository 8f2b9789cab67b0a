//! Hints on a packet in hexadecimal digits.
ghost use Rattle.std.specs.Prelude.{◌≡◌, ◌⊎◌, IsTrue, IsSome};
ghost use Rattle.mm_base.specs.declared.refusal.Refusal.TheVariants.{HexLine, Short, BadEnum, NoSuchStore};

use crate::hints::Hint;
use crate::hints::excerpt::Excerpt;
use crate::hints::form::{end_hint, file_hint};
use crate::hints::kind::{TextKind, is_source_line, misplaced, no_digit};
use crate::hints::lines::{LineFinder, Lines, line_at};
use crate::hints::sentence::{Sentence, Shown};
use crate::words::Words;
use mm_base::{MAX_APID, MAX_CHANNEL, Refusal};

/// The octets of a block, and so of the longest packet that is stored.
const BLOCK: usize = 1024;

// The value of a hexadecimal digit.
fn digit(byte: u8) -> Option<u64> {
    match byte {
        b'0'..=b'9' => Some(u64::from(byte - b'0')),
        b'A'..=b'F' => Some(u64::from(byte - b'A' + 10)),
        b'a'..=b'f' => Some(u64::from(byte - b'a' + 10)),
        _ => None,
    }
}

/// The number that these octets of a packet in digits spell, of which there are at most 8.
pub(crate) fn number_in(digits: &[u8], first: usize, octets: usize) -> Option<u64> {
    let mut number: u64 = 0;
    for byte in digits
        .iter()
        .skip(first.saturating_mul(2))
        .take(octets.saturating_mul(2))
    {
        number = number.checked_mul(16)?.checked_add(digit(*byte)?)?;
    }
    Some(number)
}

// What is found where the packet data length says another number of octets than there are.
fn octets_hint(digits: &[u8], line: u64) -> Option<Sentence> {
    if digits.len() < 12 {
        return None;
    }
    let found = (digits.len() / 2) as u64;
    let says = number_in(digits, 4, 2)?.checked_add(7)?;
    if says == found {
        return None;
    }
    found! {
        "line {} has {} octets, and its packet data length says {} in all"; Count(line), Count(found), Count(says)
    }
}

// What is found in this line where the digits of a packet are to stand.
fn digits_hint(digits: &[u8], line: u64) -> Option<Sentence> {
    if digits.contains(&b' ') {
        found!("line {} has spaces between digits; write the digits without them"; Count(line))
    } else if let Some(byte) = no_digit(digits) {
        found!("line {} has {}, which is no hexadecimal digit"; Count(line), Text(Excerpt::of(&[byte])))
    } else if digits.len() % 2 == 1 {
        found!("line {} has an odd number of digits; write two for each octet"; Count(line))
    } else {
        None
    }
}

// A test of a packet's headers: the refusal, the first of the two octets that are tested, from 0, their bits, and the
// number that these are to be, or are not to be.
type HeaderTest = (Refusal, usize, u64, u64, bool);

static PRIMARY_TESTS: [HeaderTest; 4] = table! {
    Refusal::Version, 0, 0xE000, 0, true;
    Refusal::IdlePacket, 0, 0x07FF, 0x07FF, false;
    Refusal::NoSecondaryHeader, 0, 0x0800, 0x0800, true;
    Refusal::Segmented, 2, 0xC000, 0xC000, true;
};

static SECONDARY_TESTS: [HeaderTest; 1] = table! { Refusal::PusVersion, 6, 0xF000, 0x2000, true; };

// The first of these tests that the packet fails, with the octets that are tested.
fn header_hint(tests: &[HeaderTest], digits: &[u8], line: u64) -> Option<Sentence> {
    for (refusal, first, bits, number, is_wanted) in tests {
        let found = number_in(digits, *first, 2)?;
        if (found & *bits == *number) != *is_wanted {
            let place = first.saturating_mul(2);
            let octets = Excerpt::of(digits.get(place..place.saturating_add(4))?);
            return found! {
                "line {} has {} from octet {} of the packet on; expected ", Words::of(*refusal).expected;
                Count(line), Text(octets), Count(first.saturating_add(1) as u64)
            };
        }
    }
    None
}

// What is found where the number of octets is why the packet is refused.
fn length_hint(refusal: Refusal, octets: usize, line: u64) -> Sentence {
    let expected = Words::of(refusal).expected;
    said!("line {} has a packet of {} octets; expected ", expected; Count(line), Count(octets as u64))
}

/// What is found in the digits of a packet in this line of the sources: the first test that it fails.
pub(crate) fn source_hint(digits: &[u8], line: u64) -> Option<Sentence> {
    let octets = digits.len() / 2;
    // A telecommand has a secondary header of 5 octets, and telemetry one of 15.
    let headers = if digits.starts_with(b"1") { 11 } else { 21 };
    tell!(digits_hint(digits, line));
    if octets < 6 {
        return Some(length_hint(Refusal::Short, octets, line));
    }
    tell!(header_hint(&PRIMARY_TESTS, digits, line));
    tell!(octets_hint(digits, line));
    if octets < headers {
        return Some(length_hint(Refusal::HeaderCut, octets, line));
    }
    match header_hint(&SECONDARY_TESTS, digits, line) {
        None if octets > BLOCK => Some(length_hint(Refusal::TooLong, octets, line)),
        hint => hint,
    }
}

// What is found in this line, of this number, where a packet is to stand alone.
fn line_hint(line: &[u8], number: u64) -> Option<Sentence> {
    tell!(end_hint(line, number));
    if is_source_line(line) {
        return found! {
            "line {} has a source and a step before the packet, as sources have; write the packet alone"; Count(number)
        };
    }
    tell!(digits_hint(line, number));
    octets_hint(line, number)
}

/// The octets of a request before its first instruction: the headers and the count.
const BEFORE_INSTRUCTIONS: usize = 12;

// How many octets an instruction has, by the subtype (docs/PACKETS.md, 'Requests of the storage service').
fn width_of(subtype: u64) -> usize {
    match subtype {
        3 | 4 | 25 => 12,
        9 => 24,
        11 => 16,
        20 => 14,
        28 => 9,
        _ => 8,
    }
}

// Fields of instructions whose number may be out of range, in the order of their tests: the subtype, the first octet in
// the instruction, how many octets, the greatest number, and what is said.
static CODES: [(u64, usize, usize, u64, &str); 5] = table! {
    3, 8, 2, MAX_APID as u64, "has the APID {}; 0 to {} can be";
    4, 8, 2, MAX_APID as u64, "has the APID {}; 0 to {} can be";
    20, 12, 1, 1, "has the type {}; 0 is circular, and {} is bounded";
    20, 13, 1, MAX_CHANNEL as u64, "has the virtual channel {}; 0 to {} can be";
    28, 8, 1, MAX_CHANNEL as u64, "has the virtual channel {}; 0 to {} can be";
};

// The first field of an instruction, from this octet on, whose number is out of range.
fn code_hint(digits: &[u8], instruction: usize, line: u64, at: u64) -> Option<Sentence> {
    let subtype = number_in(digits, 8, 1)?;
    for (of_subtype, first, octets, most, said) in &CODES {
        let number = number_in(digits, instruction.saturating_add(*first), *octets)?;
        if *of_subtype == subtype && number > *most {
            return found!("line {}, instruction {}, ", said; Count(line), Count(at), Count(number), Count(*most));
        }
    }
    None
}

// The store that an instruction, from this octet on, names.
fn store_hint(digits: &[u8], instruction: usize, line: u64, at: u64) -> Option<Sentence> {
    let mut id = [b' '; 8];
    for (i, byte) in id.iter_mut().enumerate() {
        *byte = u8::try_from(number_in(digits, instruction.saturating_add(i), 1)?).ok()?;
    }
    let store = Excerpt::of(id.trim_ascii_end());
    found!("line {}, instruction {}, names the store {}"; Count(line), Count(at), Text(store))
}

// What is found in an instruction, from 1, of the request in this line, which is refused for this reason.
fn in_instruction(refusal: Refusal, digits: &[u8], line: u64, number: u64) -> Option<Sentence> {
    let width = width_of(number_in(digits, 8, 1)?);
    let before = usize::try_from(number.checked_sub(1)?).ok()?;
    let instruction = before.checked_mul(width)?.checked_add(BEFORE_INSTRUCTIONS)?;
    match refusal {
        Refusal::BadEnum => code_hint(digits, instruction, line, number),
        Refusal::NoSuchStore => store_hint(digits, instruction, line, number),
        _ => None,
    }
}

// What is found in the form of a file of packets, or where it looks like a file of another kind.
fn kind_hint(packets: &[u8]) -> Option<Sentence> {
    tell!(file_hint(packets));
    misplaced(packets, TextKind::Packets)
}

// The first line that ends with CR LF.
fn return_hint(packets: &[u8]) -> Option<Sentence> {
    for (place, line) in Lines(packets).enumerate() {
        tell!(end_hint(line, (place as u64).saturating_add(1)));
    }
    None
}

/// What is found in a whole file of packets, of which lines are refused.
#[must_use]
pub fn packets_hint(packets: &[u8]) -> Option<Hint> {
    Some(Hint::Said(kind_hint(packets).or(return_hint(packets))?))
}

// Whether a hint on the digits of a request can say more of its refusal.
fn is_of_digits(refusal: Refusal) -> bool
    ensures { IsTrue result → (refusal ≡ HexLine) ⊎ (refusal ≡ Short) }
{
    matches!(refusal, Refusal::HexLine | Refusal::Short)
}

// Whether a hint on an instruction can say more of its refusal.
fn is_of_fields(refusal: Refusal) -> bool
    ensures { IsTrue result → (refusal ≡ BadEnum) ⊎ (refusal ≡ NoSuchStore) }
{
    matches!(refusal, Refusal::BadEnum | Refusal::NoSuchStore)
}

/// The hints on the lines of a file of requests. Where the lines come in their order, all of them take one walk over
/// the file.
#[derive(Clone, Copy)]
pub struct RequestHints<'a> {
    /// The file.
    pub requests: &'a [u8],
    lines: LineFinder<'a>,
    // What is found in the file as a whole, once it was looked at.
    whole: Option<Option<Sentence>>,
    ghost of_file: { lines.text.now ≡ requests.now },
}

impl<'a> RequestHints<'a> {
    /// The hints on the lines of these requests.
    #[must_use]
    pub fn new(requests: &'a [u8]) -> RequestHints<'a>
        ensures { result.requests.now ≡ requests.now }
    {
        RequestHints {
            requests,
            lines: LineFinder::new(requests),
            whole: None,
        }
    }

    // What is found in the file as a whole. It is looked at once.
    fn whole_hint(&mut self) -> Option<Sentence>
        ensures file { self.new.requests.now ≡ self.old.requests.now }
    {
        let hint = match self.whole {
            Some(hint) => hint,
            None => kind_hint(self.requests),
        };
        self.whole = Some(hint);
        hint
    }

    /// What is found in this line, which is refused for this reason. It does not depend on the lines before.
    pub fn hint(&mut self, refusal: Refusal, line: u64) -> Option<Hint>
        ensures of_digits { IsSome result → (refusal ≡ HexLine) ⊎ (refusal ≡ Short) }
        ensures file { self.new.requests.now ≡ self.old.requests.now }
    {
        if !is_of_digits(refusal) {
            return None;
        }
        if let Some(hint) = self.whole_hint() {
            return Some(Hint::Said(hint));
        }
        let digits = self.lines.find(line)?;
        Some(Hint::Said(line_hint(digits, line)?))
    }

    /// What is found in this instruction, from 1, of the request in this line, which is refused for this reason: the
    /// field that is out of range, or the store.
    pub fn instruction_hint(&mut self, refusal: Refusal, line: u64, number: u64) -> Option<Hint>
        ensures of_fields { IsSome result → (refusal ≡ BadEnum) ⊎ (refusal ≡ NoSuchStore) }
        ensures file { self.new.requests.now ≡ self.old.requests.now }
    {
        if !is_of_fields(refusal) {
            return None;
        }
        let digits = self.lines.find(line)?;
        Some(Hint::Said(in_instruction(refusal, digits, line, number)?))
    }
}

/// What is found in this line of a file of requests, which is refused for this reason.
#[must_use]
pub fn request_hint(refusal: Refusal, requests: &[u8], line: u64) -> Option<Hint> {
    if !is_of_digits(refusal) {
        return None;
    }
    if let Some(hint) = kind_hint(requests) {
        return Some(Hint::Said(hint));
    }
    Some(Hint::Said(line_hint(line_at(requests, line)?, line)?))
}
