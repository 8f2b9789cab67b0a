//! What is said of the lines that are refused: of long made texts, beside a plain form of it that searches each line of
//! the answer as text and seeks each hint from the front of the file; and where standard error does not take it.

use crate::tests::samples::{Answer, Host, SCI, holds, joined, told, told_bytes};
use mm_base::Refusal;
use mm_commands::run_script;
use mm_told::{Hint, RequestHints, Words, packets_hint, refusal_numbered, request_hint};
use std::io::{self, ErrorKind, Write};

// Texts, several a line.
macro_rules! pieces {
    ($($piece:literal),+) => { [$($piece),+] };
}

// What made lines consist of.
static PIECES: [&str; 20] = pieces! {
    " ", " ", "refused", " refused ", "done", " done", "24", "49 HexLine", " 16 BadEnum", "3.1", "3.", ".", "+7", "55",
    "\u{e9}", "\r", "1864C0000004200F160007", "1864C0000004200F1600", "1 report 1864C0010004200F120007", ""
};

// The next of some numbers that look random (Knuth's constants for a linear congruential generator).
fn next(state: &mut u64) -> usize {
    *state = state
        .wrapping_mul(6_364_136_223_846_793_005)
        .wrapping_add(1_442_695_040_888_963_407);
    (*state >> 40) as usize
}

// A text of this many generated lines, the last of which may have no line feed.
fn made(rt: &impl Host, text: &mut String, lines: usize, state: &mut u64) {
    for line in 0..lines {
        for _ in 0..next(state) % 7 {
            text.push_str(PIECES[next(state) % 20]).expect(rt, "memory");
        }
        if line < 300 || next(state) % 2 == 0 {
            text.push_str("\n").expect(rt, "memory");
        }
    }
}

// The place of a refused line in the answer, and the refusal.
fn refused(answer: &str) -> Option<(&str, Refusal)> {
    let (place, refusal) = answer.split_once(" refused ")?;
    let (number, _) = refusal.split_once(' ')?;
    Some((place, refusal_numbered(number.parse().ok()?)?))
}

// What is found at a place of these requests, which is refused.
fn hint_of(requests: &[u8], (place, refusal): (&str, Refusal)) -> Option<Hint> {
    match place.split_once('.') {
        Some((line, number)) => {
            let (line, number) = (line.parse().ok()?, number.parse().ok()?);
            RequestHints::new(requests).instruction_hint(refusal, line, number)
        }
        None => request_hint(refusal, requests, place.parse().ok()?),
    }
}

// What is said of a refused line, where the file has this name, what it is counted as, and the requests in which hints
// are sought are given.
fn push_said(
    rt: &impl Host,
    said: &mut String,
    [name, counted, requests]: [&str; 3],
    (place, refusal): (&str, Refusal),
) {
    let words = Words::of(refusal);
    let told = match place.split_once('.') {
        Some((line, number)) => write!(said, "{name}, {counted} {line}, instruction {number}"),
        None => write!(said, "{name}, {counted} {place}"),
    };
    told.expect(rt, "memory");
    writeln!(said, ": {words}").expect(rt, "memory");
    if let Some(hint) = hint_of(requests.as_bytes(), (place, refusal)) {
        writeln!(said, "hint: {hint}").expect(rt, "memory");
    }
}

// How many lines are said of each refusal.
const MOST: u32 = 10;

// What is said of the refused lines of the answer, as above: of each refusal the first ones, and then how many more
// there are.
fn all_said(rt: &impl Host, texts: [&str; 3], answer: &Answer) -> String {
    let (mut said, mut more) = (String::new(rt.alloc()), 0);
    let mut counts = [0u32; 256];
    for line in answer.out.as_str().lines() {
        if let Some((place, refusal)) = refused(line) {
            let count = &mut counts[usize::from(refusal.number())];
            *count = count.saturating_add(1);
            if *count <= MOST {
                push_said(rt, &mut said, texts, (place, refusal));
            } else {
                more = u32::saturating_add(more, 1);
            }
        }
    }
    push_more(rt, &mut said, texts[0], more);
    said
}

// How many more are said to be there.
fn push_more(rt: &impl Host, said: &mut String, name: &str, more: u32) {
    if more > 0 {
        let told = writeln!(
            said,
            "{name}: more of the same refusals: {more}; standard output has them all"
        );
        told.expect(rt, "memory");
    }
}

// What is said of a whole file of packets, where a line of it is refused.
fn push_whole(rt: &impl Host, said: &mut String, packets: &str, answer: &str) {
    for line in answer.lines() {
        if refused(line).is_some() {
            if let Some(hint) = packets_hint(packets.as_bytes()) {
                writeln!(said, "hint: {hint}").expect(rt, "memory");
            }
            return;
        }
    }
}

// What the program says of this text of packets, in a file of this name, is what the plain form says.
fn is_as_plain(rt: &impl Host, front: &str, name: &str, counted: &str, text: &str) {
    let script = joined(rt, &[front, "=== ", name, "\n", text]);
    let answer = told_bytes(rt, script.as_bytes());
    let requests = if counted == "line" { text } else { "" };
    let mut said = all_said(rt, [name, counted, requests], &answer);
    if counted == "packet" {
        push_whole(rt, &mut said, text, answer.out.as_str());
    }
    holds(rt, text, &answer, answer.err.as_str() == said.as_str());
}

#[test]
fn refused_lines_are_told_as_by_a_plain_form(rt: HostRuntime) {
    let alloc = rt.alloc();
    let asked = joined(&rt, &["ask S P\n=== S\n", SCI]);
    let mut state = 1;
    for lines in [0, 1, 2, 3, 10, 90, 91, 92, 200, 350] {
        let mut text = String::new(alloc);
        made(&rt, &mut text, lines, &mut state);
        is_as_plain(&rt, "read P\n", "P", "packet", text.as_str());
        is_as_plain(&rt, asked.as_str(), "P", "line", text.as_str());
    }
}

// Eleven lines that are no packet, an answer of another refusal, and a twelfth. What is said of the tenth, and after
// it.
const TWELVE: &str = "y\ny\ny\ny\ny\ny\ny\ny\ny\ny\ny\n1.1 refused 24 Exists\ny\n";

const AFTER_NINE: &str = "\
P, packet 10: expected one packet in hexadecimal digits, two for each octet, and nothing after it; write one packet a \
    line, and compare its packet data length with its octets
P, packet 1, instruction 1: expected an identifier that no store has yet; choose another identifier, or delete that \
    store with subtype 21
P: more of the same refusals: 2; standard output has them all
";

#[test]
fn ten_lines_are_told_of_a_refusal(rt: HostRuntime) {
    let answer = told(&rt, &["read P\n=== P\n", TWELVE]);
    let lines = answer.err.as_str().lines().count();
    let is_told = answer.err.as_str().ends_with(AFTER_NINE);
    holds(&rt, TWELVE, &answer, lines == 12 && is_told);
}

// An answer of `ask`, which `read` prints as it stands, with status 0. What is said of it, by the pieces that standard
// error takes.
const ANSWERED: &str = "read P\n=== P\n8.1 refused 18 Busy\n";

static SAID: [&str; 13] = pieces! {
    "P", ", ", "packet", " ", "8", ", instruction ", "1", ": ", "expected ", "a store with no retrieval on", "; ",
    "abort the retrieval with subtype 17", "\n"
};

// What a writer does with the first write that passes a byte, or with each that does.
#[derive(Clone, Copy, Debug, PartialEq, Eq)]
enum Turn {
    Refused,
    Interrupted,
    TakenNone,
    TakenSingly,
}

// A writer that does so at this byte, and takes all else.
#[derive(Drop)]
struct Fickle {
    taken: Vec<u8>,
    turn: Option<Turn>,
    at: usize,
}

impl Fickle {
    fn take(&mut self, bytes: &[u8]) -> io::Result<()> {
        match self.taken.extend_from_slice(bytes) {
            Ok(()) => Ok(()),
            Err(_) => Err(io::Error::from(ErrorKind::OutOfMemory)),
        }
    }
}

impl Write for Fickle {
    fn write(&mut self, buf: &[u8]) -> io::Result<usize> {
        let passes = self.at.saturating_sub(self.taken.len()) < buf.len();
        let turn = if passes { self.turn } else { None };
        match turn {
            None => {
                self.take(buf)?;
                Ok(buf.len())
            }
            Some(Turn::TakenSingly) => {
                let count = buf.len().min(1);
                self.take(&buf[..count])?;
                Ok(count)
            }
            Some(turn) => {
                self.turn = None;
                match turn {
                    Turn::Refused => Err(io::Error::from(ErrorKind::BrokenPipe)),
                    Turn::Interrupted => Err(io::Error::from(ErrorKind::Interrupted)),
                    _ => Ok(0),
                }
            }
        }
    }

    fn flush(&mut self) -> io::Result<()> {
        Ok(())
    }
}

// How many bytes the pieces have that end at this byte or before it.
fn whole_pieces(at: usize) -> usize {
    let mut whole: usize = 0;
    for piece in &SAID {
        if whole.saturating_add(piece.len()) > at {
            return whole;
        }
        whole = whole.saturating_add(piece.len());
    }
    whole
}

// A write that is refused, or of which nothing is taken, ends what is said, and the status is 1. Any other changes
// nothing.
fn is_said_as_far(rt: &impl Host, said: &[u8], turn: Turn, at: usize) {
    let alloc = rt.alloc();
    let mut out = Vec::new(alloc);
    let mut err = Fickle {
        taken: Vec::new(alloc),
        turn: Some(turn),
        at,
    };
    let status = run_script(rt, alloc, ANSWERED.as_bytes(), &mut out, &mut err);
    let is_ended = matches!(turn, Turn::Refused | Turn::TakenNone) && at < said.len();
    let len = if is_ended {
        whole_pieces(at)
    } else {
        said.len()
    };
    assert!(rt;
        (status, err.taken.as_slice()) == (u8::from(is_ended), &said[..len.min(said.len())]),
        "{turn:?} at {at}"
    );
}

#[test]
fn a_refused_write_on_standard_error_is_told(rt: HostRuntime) {
    let said = joined(&rt, &SAID);
    for at in 0..said.len() + 2 {
        for turn in [
            Turn::Refused,
            Turn::Interrupted,
            Turn::TakenNone,
            Turn::TakenSingly,
        ] {
            is_said_as_far(&rt, said.as_bytes(), turn, at);
        }
    }
}
