//! Packets in hexadecimal digits, read in words and numbers.
ghost use Rattle.std.specs.Prelude.{◌≡◌, ◌∷◌, ◌++◌, [], IfOk, OnOk};
ghost use Rattle.mm_base.specs.Characters.{line_feed};
ghost use Rattle.mm_base.specs.Reading.{Gives};
ghost use Rattle.mm_st15.specs.Report.{report_fault};
ghost use Rattle.mm_st15.specs.Request.{HasCount, count_of, kind_of, request_fault};
ghost use Rattle.mm_ask.specs.PacketWords.{request_lines};
ghost use Rattle.mm_ask.specs.Line.{packet_of};
ghost use Rattle.mm_ask.specs.Reads.{Reads, without_spaces};

use crate::answering::Outcome;
use crate::fault::LineFault;
use crate::label::{is_answer, labelled, refused_in};
use crate::line::packet_of;
use crate::lines::{TakeLine, take_lines};
use crate::packet_words::{push_header_line, push_report, push_request};
use crate::refusals::{Place, Refusals, Replies};
use crate::text::push_refused_line;
use mm_base::lines::cut_word;
use mm_base::{NoMemory, Refused};
use mm_packet::Packet;
use mm_st15::{Report, Request};
use std::alloc::{AllocError, Global};
use std::marker::Model;

/// What is read so far.
#[derive(Drop)]
struct Reading {
    text: Vec<u8>,
    outcome: Outcome,
    // What is told in addition to the text. No contract speaks of it.
    refused: Refusals,
}

impl Model for Reading {
    ghost use Rattle.mm_ask.specs.Reads.{SoFar};

    ghost Value = { SoFar };

    ghost view = { λ r. record { text = r.text.items; outcome = r.outcome } };
}

// The digits without the spaces between them.
fn without_spaces(alloc: Global, digits: &[u8]) -> Result<Vec<u8>, AllocError>
    ensures { IfOk result (λ kept. kept.items ≡ without_spaces digits.now) }
{
    digits
        .iter()
        .copied()
        .filter(|digit| *digit != b' ')
        .collect(alloc)
}

// The packet that the digits spell, with spaces between them or none.
#[tactic(auto, using(crate::proofs::SpaceLemmas::no_space))]
fn spaced_packet(alloc: Global, digits: &[u8]) -> Result<Packet, LineFault>
    ensures { Gives LineFault.NoMemory (λ packet. packet) result (packet_of (without_spaces digits.now)) }
{
    let Some(_) = cut_word(digits) else {
        return packet_of(alloc, digits);
    };
    let Ok(digits) = without_spaces(alloc, digits) else {
        return Err(LineFault::NoMemory);
    };
    packet_of(alloc, &digits)
}

impl Reading {
    ghost use Rattle.mm_ask.specs.Reads.{nothing, with_lines, with_refused, ShowsRequest, ShowsReport, ShowsOr};
    ghost use Rattle.mm_ask.specs.Reads.{ShowsPacket, ShowsResult};

    fn new(alloc: Global) -> Reading
        ensures { result ≡ nothing }
    {
        Reading {
            text: Vec::new(alloc),
            outcome: Outcome::AllDone,
            refused: Refusals::new(alloc),
        }
    }

    // Prints the first test that a line or its packet fails.
    fn refuse(&mut self, number: u64, fault: LineFault) -> Result<(), NoMemory>
        ensures { OnOk result (self.new ≡ with_refused number fault self.old) }
    {
        self.outcome = Outcome::SomeRefused;
        push_refused_line(&mut self.text, number, fault)?;
        self.refused.add(Place::Line(number), fault.refusal())?;
        Ok(())
    }

    // Prints an answer of `ask` as it stands.
    #[tactic(auto, using(std::proofs::Common::append_assoc))]
    fn repeat(&mut self, alloc: Global, line: &[u8]) -> Result<(), NoMemory>
        ensures { OnOk result (self.new ≡ with_lines (line.now ++ line_feed ∷ []) self.old) }
    {
        self.text.extend_from_slice(line)?;
        self.text.push(b'\n')?;
        self.refused.add_said(alloc, refused_in(line))?;
        Ok(())
    }

    // Prints a request.
    fn print_request(
        &mut self,
        alloc: Global,
        number: u64,
        request: &Request,
    ) -> Result<(), NoMemory>
        requires { HasCount (kind_of request.now) (count_of request.now) }
        ensures { OnOk result (self.new ≡ with_lines (request_lines number request.now) self.old) }
    {
        push_request(alloc, &mut self.text, number, request)?;
        Ok(())
    }

    // Prints the request that a telecommand spells.
    fn request(&mut self, alloc: Global, number: u64, packet: &Packet) -> Result<(), NoMemory>
        ensures { OnOk result (ShowsOr number (request_fault packet.now)
            (ShowsRequest number packet.now) self.old self.new) }
    {
        match Request::read(alloc, packet) {
            Ok(request) => self.print_request(alloc, number, &request),
            Err(mm_st15::Fault::NoMemory) => Err(NoMemory),
            Err(fault) => self.refuse(number, LineFault::from(fault)),
        }
    }

    // Prints the report that telemetry spells.
    fn report(&mut self, alloc: Global, number: u64, packet: &Packet) -> Result<(), NoMemory>
        ensures { OnOk result (ShowsOr number (report_fault packet.now)
            (ShowsReport packet.now) self.old self.new) }
    {
        match Report::read(alloc, packet) {
            Ok(report) => {
                push_report(alloc, &mut self.text, &report)?;
                Ok(())
            }
            Err(mm_st15::Fault::NoMemory) => Err(NoMemory),
            Err(fault) => self.refuse(number, LineFault::from(fault)),
        }
    }

    // Prints the headers of a packet, and then what it spells.
    fn packet(&mut self, alloc: Global, number: u64, packet: &Packet) -> Result<(), NoMemory>
        ensures { OnOk result (ShowsPacket number packet.now self.old self.new) }
    {
        push_header_line(&mut self.text, number, packet)?;
        if packet.is_telecommand() {
            self.request(alloc, number, packet)
        } else {
            self.report(alloc, number, packet)
        }
    }

    // Reads a packet from its digits.
    fn digits(&mut self, alloc: Global, number: u64, digits: &[u8]) -> Result<(), NoMemory>
        ensures { OnOk result (ShowsResult number (packet_of (without_spaces digits.now))
            self.old self.new) }
    {
        match spaced_packet(alloc, digits) {
            Ok(packet) => self.packet(alloc, number, &packet),
            Err(LineFault::NoMemory) => Err(NoMemory),
            Err(fault) => self.refuse(number, fault),
        }
    }
}

impl TakeLine for Reading {
    ghost use Rattle.mm_ask.specs.Reads.{Shows};

    ghost leaves = { Shows };

    fn take(&mut self, alloc: Global, line: u64, octets: &[u8]) -> Result<(), NoMemory> {
        if is_answer(octets) {
            self.repeat(alloc, octets)
        } else {
            let (number, digits) = labelled(line, octets);
            self.digits(alloc, number, digits)
        }
    }
}

/// The text that says in words and numbers what packets are, one a line in hexadecimal digits, or after the words with
/// which `ask` prints a report; whether each was a packet of the storage service, and what was refused.
pub fn read_bytes(alloc: Global, packets: &[u8]) -> Result<Replies, NoMemory>
    ensures reads { IfOk result (λ r. Reads packets.now r.outcome r.text.items) }
{
    let mut reading = Reading::new(alloc);
    take_lines(alloc, &mut reading, packets)?;
    let Reading {
        outcome,
        text,
        refused,
    } = reading;
    Ok(Replies {
        outcome,
        text,
        refused,
    })
}
