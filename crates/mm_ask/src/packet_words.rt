//! Packets, requests and reports as lines of words and numbers.
ghost use Rattle.std.specs.Prelude.{◌≡◌, ◌<◌, [], ◌∷◌, ◌++◌, length, OnOk};
ghost use Rattle.mm_base.specs.Characters.{line_feed};
ghost use Rattle.mm_packet.specs.Spelling.{data_length};
ghost use Rattle.mm_st15.specs.Request.{HasCount, kind_of, count_of};
ghost use Rattle.mm_ask.specs.PacketWords.{type_word, low_word, type_fields, primary_words, secondary_words, header_line, title_line, instruction_line, instruction_lines, entry_line, entry_lines, titled_entries, titled_instructions, request_lines, control_line, report_lines};

use crate::entry_words::{InWords, push_id, push_named};
use crate::text::{Pushed, end_line, push_place};
use mm_base::numbers::push_number;
use mm_packet::Packet;
use mm_st15::{Entries, Report, Request};
use std::alloc::Global;

// The octets of the data field, less 1.
fn data_length(packet: &Packet) -> u64
    ensures { result ≡ data_length packet.now }
{
    let header = if packet.is_telecommand() { 4 } else { 14 };
    header + packet.body().len() as u64
}

fn type_word(packet: &Packet) -> &'static [u8]
    ensures { result.now ≡ type_word packet.now.kind }
{
    if packet.is_telecommand() {
        b" telecommand".as_slice()
    } else {
        b" telemetry".as_slice()
    }
}

fn low_word(packet: &Packet) -> &'static [u8]
    ensures { result.now ≡ low_word packet.now.kind }
{
    if packet.is_telecommand() {
        b" acknowledgement ".as_slice()
    } else {
        b" reference ".as_slice()
    }
}

// Writes the fields that only packets of this type have.
#[tactic(auto, using(std::proofs::Common::append_assoc, crate::proofs::HeaderLemmas::telecommand_words))]
fn push_type_fields(text: &mut Vec<u8>, packet: &Packet) -> Pushed
    ensures { OnOk result (text.new.items ≡ text.old.items ++ type_fields packet.now.kind) }
{
    if packet.is_telecommand() {
        return push_named(text, b" source ", u64::from(packet.source()));
    }
    push_named(text, b" counter ", u64::from(packet.counter()))?;
    push_named(text, b" destination ", u64::from(packet.destination()))?;
    push_named(text, b" time ", packet.time())
}

// Writes the fields of the primary header.
#[tactic(auto, using(std::proofs::Common::append_assoc), unfolding(crate::specs::PacketWords::primary_words))]
fn push_primary(text: &mut Vec<u8>, packet: &Packet) -> Pushed
    ensures { OnOk result (text.new.items ≡ text.old.items ++ primary_words packet.now) }
{
    text.extend_from_slice(type_word(packet))?;
    push_named(text, b" apid ", u64::from(packet.apid()))?;
    push_named(text, b" count ", u64::from(packet.count()))?;
    push_named(text, b" length ", data_length(packet))
}

// Writes the fields of the secondary header.
#[tactic(auto, using(std::proofs::Common::append_assoc), unfolding(crate::specs::PacketWords::secondary_words))]
fn push_secondary(text: &mut Vec<u8>, packet: &Packet) -> Pushed
    ensures { OnOk result (text.new.items ≡ text.old.items ++ secondary_words packet.now) }
{
    push_named(text, low_word(packet), u64::from(packet.low()))?;
    push_named(text, b" service ", u64::from(packet.service()))?;
    push_named(text, b" subtype ", u64::from(packet.subtype()))?;
    push_type_fields(text, packet)
}

/// Writes the line on the headers of a packet.
#[tactic(auto, using(std::proofs::Common::append_assoc))]
pub(crate) fn push_header_line(text: &mut Vec<u8>, number: u64, packet: &Packet) -> Pushed
    ensures { OnOk result (text.new.items ≡ text.old.items ++ header_line number packet.now) }
{
    push_number(text, number)?;
    push_primary(text, packet)?;
    push_secondary(text, packet)?;
    end_line(text)
}

// Writes the line that says what a request asks, or what a report tells.
#[tactic(auto, using(std::proofs::Common::append_assoc))]
fn push_title(text: &mut Vec<u8>, title: &[u8]) -> Pushed
    ensures { OnOk result (text.new.items ≡ text.old.items ++ title_line title.now) }
{
    text.extend_from_slice(b"  ")?;
    text.extend_from_slice(title)?;
    end_line(text)
}

// Writes the words of an instruction or an entry, and ends its line.
#[tactic(auto, using(std::proofs::Common::append_assoc))]
fn push_words<E: InWords>(alloc: Global, text: &mut Vec<u8>, entry: &E) -> Pushed
    ensures { OnOk result (text.new.items ≡ text.old.items ++ E.words entry.now ++ line_feed ∷ []) }
{
    entry.push(alloc, text)?;
    end_line(text)
}

// Writes the line on an instruction.
#[tactic(auto, using(std::proofs::Common::append_assoc))]
fn push_instruction<E: InWords>(
    alloc: Global,
    text: &mut Vec<u8>,
    number: u64,
    place: u64,
    entry: &E,
) -> Pushed
    ensures { OnOk result (text.new.items
        ≡ text.old.items ++ instruction_line number place (E.words entry.now)) }
{
    text.extend_from_slice(b"    ")?;
    push_place(text, number, place)?;
    text.push(b' ')?;
    push_words(alloc, text, entry)
}

// Writes the lines on the instructions of a request, whose places count from 1.
#[tactic(auto, using(std::proofs::Common::append_assoc))]
fn push_instructions<E: InWords>(
    alloc: Global,
    text: &mut Vec<u8>,
    number: u64,
    entries: &[E],
) -> Pushed
    requires { length entries.now < 256 }
    ensures { OnOk result (text.new.items
        ≡ text.old.items ++ instruction_lines E.words number 1 entries.now) }
{
    let mut rest = entries;
    let mut place: u64 = 1;
    while let [entry, after @ ..] = rest {
        push_instruction(alloc, text, number, place, entry)?;
        rest = after;
        place += 1;
    }
    Ok(())
}

// Writes what a request asks, and its instructions.
#[tactic(auto, using(std::proofs::Common::append_assoc))]
fn push_titled<E: InWords>(
    alloc: Global,
    text: &mut Vec<u8>,
    title: &[u8],
    number: u64,
    entries: &Entries<E>,
) -> Pushed
    requires { length entries.now < 256 }
    ensures { OnOk result (text.new.items
        ≡ text.old.items ++ titled_instructions title.now E.words number entries.now) }
{
    push_title(text, title)?;
    push_instructions(alloc, text, number, entries.as_slice())
}

/// Writes the lines on a request.
pub(crate) fn push_request(alloc: Global, text: &mut Vec<u8>, n: u64, request: &Request) -> Pushed
    requires { HasCount (kind_of request.now) (count_of request.now) }
    ensures { OnOk result (text.new.items ≡ text.old.items ++ request_lines n request.now) }
{
    match request {
        Request::EnableStorage(e) => push_titled(alloc, text, b"enable storage", n, e),
        Request::DisableStorage(e) => push_titled(alloc, text, b"disable storage", n, e),
        Request::AddReportTypes(e) => push_titled(alloc, text, b"add report types", n, e),
        Request::DeleteReportTypes(e) => push_titled(alloc, text, b"delete report types", n, e),
        Request::ReportControl(e) => push_titled(alloc, text, b"report the storage control", n, e),
        Request::StartRetrieval(e) => push_titled(alloc, text, b"start retrieval", n, e),
        Request::DeleteContent(e) => push_titled(alloc, text, b"delete content", n, e),
        Request::SummariseContent(e) => push_titled(alloc, text, b"summarise content", n, e),
        Request::AbortRetrieval(e) => push_titled(alloc, text, b"abort retrieval", n, e),
        Request::ReportStatus => push_title(text, b"report the status of each store"),
        Request::CreateStores(e) => push_titled(alloc, text, b"create stores", n, e),
        Request::DeleteStores(e) => push_titled(alloc, text, b"delete stores", n, e),
        Request::ReportConfiguration => push_title(text, b"report the configuration of each store"),
        Request::ResizeStores(e) => push_titled(alloc, text, b"resize stores", n, e),
        Request::ChangeToCircular(e) => push_titled(alloc, text, b"change to circular", n, e),
        Request::ChangeToBounded(e) => push_titled(alloc, text, b"change to bounded", n, e),
        Request::ChangeChannel(e) => push_titled(alloc, text, b"change the channel", n, e),
    }
}

// Writes the line on an entry of a report.
#[tactic(auto, using(std::proofs::Common::append_assoc))]
fn push_entry<E: InWords>(alloc: Global, text: &mut Vec<u8>, entry: &E) -> Pushed
    ensures { OnOk result (text.new.items ≡ text.old.items ++ entry_line (E.words entry.now)) }
{
    text.extend_from_slice(b"    ")?;
    push_words(alloc, text, entry)
}

// Writes the lines on the entries of a report.
#[tactic(auto, using(std::proofs::Common::append_assoc))]
fn push_entries<E: InWords>(alloc: Global, text: &mut Vec<u8>, entries: &Entries<E>) -> Pushed
    ensures { OnOk result (text.new.items ≡ text.old.items ++ entry_lines E.words entries.now) }
{
    let mut rest = entries.as_slice();
    while let [entry, after @ ..] = rest {
        push_entry(alloc, text, entry)?;
        rest = after;
    }
    Ok(())
}

// Writes what a report tells, and its entries.
#[tactic(auto, using(std::proofs::Common::append_assoc))]
fn push_titled_entries<E: InWords>(
    alloc: Global,
    text: &mut Vec<u8>,
    title: &[u8],
    entries: &Entries<E>,
) -> Pushed
    ensures { OnOk result (text.new.items
        ≡ text.old.items ++ titled_entries title.now E.words entries.now) }
{
    push_title(text, title)?;
    push_entries(alloc, text, entries)
}

// Writes the line on the store whose storage control is told.
#[tactic(auto, using(std::proofs::Common::append_assoc))]
fn push_control(alloc: Global, text: &mut Vec<u8>, id: &[u8; 8]) -> Pushed
    ensures { OnOk result (text.new.items ≡ text.old.items ++ control_line id.now) }
{
    text.extend_from_slice(b"  storage control of ")?;
    push_id(alloc, text, id)?;
    end_line(text)
}

/// Writes the lines on a report.
#[tactic(auto, using(std::proofs::Common::append_assoc))]
pub(crate) fn push_report(alloc: Global, text: &mut Vec<u8>, report: &Report) -> Pushed
    ensures { OnOk result (text.new.items ≡ text.old.items ++ report_lines report.now) }
{
    match report {
        Report::Control { id, rows, .. } => {
            push_control(alloc, text, id)?;
            push_entries(alloc, text, rows)
        }
        Report::Summaries { entries, .. } => push_titled_entries(alloc, text, b"content", entries),
        Report::Statuses { entries, .. } => push_titled_entries(alloc, text, b"status", entries),
        Report::Configurations { entries, .. } => {
            push_titled_entries(alloc, text, b"configuration", entries)
        }
    }
}
