//! Answering one line.
ghost use Rattle.std.specs.Prelude.{◌≡◌, ◌⊎◌, fold, All, OnOk};
ghost use Rattle.mm_packet.specs.Packet.{IsTelecommand};
ghost use Rattle.mm_st15.specs.Report.{HasCount};
ghost use Rattle.mm_st15.specs.Request.{IsRequest, SpellsRequest};

use crate::counters::Counters;
use crate::fault::LineFault;
use crate::line::{Asked, request_of};
use crate::lines::TakeLine;
use crate::refusals::{Place, Refusals, Replies};
use crate::telemetry::telemetry_octets;
use crate::text::{push_answer_lines, push_refused_line, push_report_line};
use mm_base::{NoMemory, Refused};
use mm_memory::{Answer, Memory};
use mm_packet::Packet;
use mm_st15::Report;
use std::alloc::Global;
use std::marker::Model;

/// Whether all was done that the lines asked.
#[derive(Clone, Copy, Debug, PartialEq, Eq)]
pub enum Outcome {
    /// No line and no instruction was refused.
    AllDone,
    /// A line or an instruction was refused.
    SomeRefused,
}

/// A conversation with a memory, as far as it has come.
#[derive(Drop)]
pub(crate) struct Conversation {
    memory: Memory,
    counters: Counters,
    text: Vec<u8>,
    outcome: Outcome,
    // What is told in addition to the text. No contract speaks of it.
    refused: Refusals,
}

impl Model for Conversation {
    ghost use Rattle.mm_ask.specs.Answering.{Standing};

    ghost Value = { Standing };

    ghost view = { λ c. record {
      memory = c.memory;
      counts = c.counters;
      text = c.text.items;
      outcome = c.outcome;
    } };
}

impl Outcome {
    ghost use Rattle.mm_ask.specs.Answering.{outcome_after};

    // The outcome after these answers.
    fn after(self, answers: &[Answer]) -> Outcome
        ensures { result ≡ fold outcome_after self answers.now }
    {
        let mut outcome = self;
        for answer in answers {
            if let Answer::Refused(_) = answer {
                outcome = Outcome::SomeRefused;
            }
        }
        outcome
    }
}

impl Conversation {
    ghost use Rattle.mm_ask.specs.Answering.{Applied, opened, with_answers, with_report, with_reports, refused_whole};

    /// A conversation that begins.
    pub(crate) fn new(alloc: Global, memory: Memory) -> Conversation
        ensures { result ≡ opened memory }
    {
        Conversation {
            memory,
            counters: Counters::new(),
            text: Vec::new(alloc),
            outcome: Outcome::AllDone,
            refused: Refusals::new(alloc),
        }
    }

    /// Its outcome and its text.
    pub(crate) fn into_replies(self) -> Replies
        ensures outcome { result.outcome ≡ self.outcome }
        ensures text { result.text.items ≡ self.text }
    {
        let Conversation {
            outcome,
            text,
            refused,
            ..
        } = self;
        Replies {
            outcome,
            text,
            refused,
        }
    }

    // Says that a line is refused whole.
    fn refuse(&mut self, line: u64, fault: LineFault) -> Result<(), NoMemory>
        ensures { OnOk result (self.new ≡ refused_whole line fault self.old) }
    {
        self.outcome = Outcome::SomeRefused;
        push_refused_line(&mut self.text, line, fault)?;
        self.refused.add(Place::Line(line), fault.refusal())?;
        Ok(())
    }

    // Prints a report on the request of this packet.
    fn report(
        &mut self,
        alloc: Global,
        line: u64,
        asked: &Packet,
        report: &Report,
    ) -> Result<(), NoMemory>
        requires telecommand { IsTelecommand asked.now.kind }
        requires count { HasCount report.now }
        ensures { OnOk result (self.new ≡ with_report line asked.now self.old report.now) }
    {
        let numbers = self.counters.next(report.kind());
        let octets = telemetry_octets(alloc, asked, numbers, report)?;
        push_report_line(alloc, &mut self.text, line, &octets)?;
        Ok(())
    }

    // Prints reports on the request of this packet.
    fn report_all(
        &mut self,
        alloc: Global,
        line: u64,
        asked: &Packet,
        reports: &[Report],
    ) -> Result<(), NoMemory>
        requires telecommand { IsTelecommand asked.now.kind }
        requires counts { All HasCount reports.now }
        ensures { OnOk result (self.new ≡ with_reports line asked.now reports.now self.old) }
    {
        for report in reports {
            self.report(alloc, line, asked, report)?;
        }
        Ok(())
    }

    // Prints the answers to the instructions of a request.
    fn answer_all(&mut self, line: u64, answers: &[Answer]) -> Result<(), NoMemory>
        ensures { OnOk result (self.new ≡ with_answers line answers.now self.old) }
    {
        self.outcome = self.outcome.after(answers);
        push_answer_lines(&mut self.text, line, answers)?;
        self.refused.add_answers(line, answers)?;
        Ok(())
    }

    // Applies a request at the moment that is its line's number, and prints its answers and its reports.
    fn apply(&mut self, alloc: Global, line: u64, asked: &Asked) -> Result<(), NoMemory>
        requires request { IsRequest asked.now.request }
        requires spelled { SpellsRequest asked.now.packet asked.now.request }
        ensures { OnOk result (Applied line asked.now.packet self.old self.new
            ⊎ (self.new ≡ refused_whole line LineFault.NoMemory self.old)) }
    {
        match self.memory.apply(alloc, line, &asked.request) {
            Ok(answers) => {
                self.answer_all(line, &answers.each)?;
                self.report_all(alloc, line, &asked.packet, &answers.reports)
            }
            Err(NoMemory) => self.refuse(line, LineFault::NoMemory),
        }
    }
}

impl TakeLine for Conversation {
    ghost use Rattle.mm_ask.specs.Answering.{Follows};

    ghost leaves = { Follows };

    fn take(&mut self, alloc: Global, line: u64, octets: &[u8]) -> Result<(), NoMemory> {
        match request_of(alloc, octets) {
            Ok(asked) => self.apply(alloc, line, &asked),
            Err(fault) => self.refuse(line, fault),
        }
    }
}
