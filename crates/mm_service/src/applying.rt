//! Requests that are applied to the memory.
ghost use Rattle.std.specs.Prelude.{◌≡◌, ◌≢◌, ◌↔◌, ◌+◌, ◌*◌, ◌<◌, ◌≤◌, length, fold, All, Err};
ghost use Rattle.std.specs.Prelude.{MatchResult, OnOk, OnErr};
ghost use Rattle.std.specs.VecDeque.{deque_len, deque_capacity};
ghost use Rattle.mm_packet.specs.Packet.{IsTelecommand};
ghost use Rattle.mm_st15.specs.Report.{HasCount};
ghost use Rattle.mm_service.specs.declared.answers.TheConstants.{INSTRUCTIONS};
ghost use Rattle.mm_service.specs.declared.fault.Fault.TheVariants.{NoMemory, TooManyReports};
ghost use Rattle.mm_service.specs.Queue.{queue_of, with_report};

use crate::answers::{INSTRUCTIONS, tell_answers};
use crate::bounding::most_reports;
use crate::fault::Fault;
use crate::reading::request_of;
use crate::service::Service;
use crate::waiting::Waiting;
use mm_ask::{Counters, lent_alone};
use mm_packet::Packet;
use mm_st15::{Report, RequestKind};
use std::alloc::Global;
use std::collections::VecDeque;

// Lets a report on the request of this packet wait.
fn wait_for(
    counters: &mut Counters,
    waiting: &mut VecDeque<Waiting>,
    asked: &Packet,
    report: Report,
)
    requires telecommand { IsTelecommand asked.now.kind }
    requires count { HasCount report }
    requires room { deque_len waiting.old < deque_capacity waiting.old }
    ensures after { queue_of counters.new waiting.new.items
        ≡ with_report asked.now (queue_of counters.old waiting.old.items) report }
    ensures len { deque_len waiting.new ≡ deque_len waiting.old + 1 }
    ensures capacity { deque_capacity waiting.new ≡ deque_capacity waiting.old }
{
    let numbers = counters.next(report.kind());
    let waits = Waiting::new(asked.apid(), asked.source(), numbers, report);
    waiting.push_back_reserved(waits);
}

// Lets reports on the request of this packet wait, in order.
fn wait_for_all(
    counters: &mut Counters,
    waiting: &mut VecDeque<Waiting>,
    asked: &Packet,
    reports: Vec<Report>,
)
    requires telecommand { IsTelecommand asked.now.kind }
    requires counts { All HasCount reports.items }
    requires room { deque_len waiting.old + length reports.items ≤ deque_capacity waiting.old }
    ensures after { queue_of counters.new waiting.new.items
        ≡ fold (with_report asked.now) (queue_of counters.old waiting.old.items) reports.items }
{
    for report in reports {
        wait_for(counters, waiting, asked, report);
    }
}

// Makes room for this number of further reports. If there is not enough, the room at least doubles, so that few calls
// ask for memory.
fn make_room(waiting: &mut VecDeque<Waiting>, most: usize) -> Result<(), mm_base::NoMemory>
    ensures same { waiting.new.items ≡ waiting.old.items }
    ensures room { OnOk result (deque_len waiting.new + most ≤ deque_capacity waiting.new) }
    ensures doubled { deque_capacity waiting.new ≢ deque_capacity waiting.old
        → 2 * deque_capacity waiting.old ≤ deque_capacity waiting.new }
{
    let (held, room) = (waiting.len(), waiting.capacity());
    if room - held < most {
        waiting.reserve_exact(INSTRUCTIONS.max(most).max(2 * room - held))?;
    }
    Ok(())
}

// Whether the octets are a request that leaves nothing in memory.
fn leaves_nothing(octets: &[u8]) -> bool {
    let Ok(packet) = lent_alone(octets) else {
        return false;
    };
    matches!(
        RequestKind::of_code(packet.header().subtype),
        Some(
            RequestKind::EnableStorage
                | RequestKind::DisableStorage
                | RequestKind::DeleteReportTypes
                | RequestKind::StartRetrieval
                | RequestKind::DeleteContent
                | RequestKind::AbortRetrieval
                | RequestKind::DeleteStores
                | RequestKind::ChangeChannel
        )
    )
}

impl Service {
    ghost use Rattle.mm_service.specs.Applying.{Applies, RefusesRequest, PassesBound};

    // Applies a request in the memory that there is.
    fn apply_in_memory(
        &mut self,
        alloc: Global,
        now: u64,
        packet: &[u8],
        each: &mut [u8],
    ) -> Result<usize, Fault>
        requires room { INSTRUCTIONS ≤ length each.old }
        ensures applied { MatchResult result
            (λ count. Applies packet.now now self.old self.new count each.old each.new)
            (RefusesRequest packet.now self.old) }
        ensures bound { result ≢ Err NoMemory → (result ≡ Err TooManyReports) ↔ PassesBound packet.now self.old }
        ensures err { OnErr result (self.new ≡ self.old) }
        ensures left { OnErr result (each.new ≡ each.old) }
    {
        let asked = request_of(alloc, packet)?;
        self.admit(&asked.request)?;
        make_room(&mut self.waiting, most_reports(&asked.request))?;
        let answers = self.memory.apply(alloc, now, &asked.request)?;
        tell_answers(&answers.each, each);
        let count = answers.each.len();
        wait_for_all(
            &mut self.counters,
            &mut self.waiting,
            &asked.packet,
            answers.reports,
        );
        Ok(count)
    }

    /// Applies the request of the packet that the octets are, at a moment in ticks. The codes of the answers to its
    /// instructions, in order, are then at the head of a buffer with room for each request's, and their number is
    /// given; its reports wait after those that waited. Where they may not wait within the bound, the request is
    /// refused. A refusal has changed nothing. A request that leaves nothing in memory (it changes a switch, a channel
    /// or a retrieval, or deletes) is applied in the memory that is kept for it if there is no other.
    pub fn apply(
        &mut self,
        alloc: Global,
        now: u64,
        packet: &[u8],
        each: &mut [u8],
    ) -> Result<usize, Fault>
        requires room { INSTRUCTIONS ≤ length each.old }
        ensures applied { MatchResult result
            (λ count. Applies packet.now now self.old self.new count each.old each.new)
            (RefusesRequest packet.now self.old) }
        ensures bound { result ≢ Err NoMemory → (result ≡ Err TooManyReports) ↔ PassesBound packet.now self.old }
        ensures err { OnErr result (self.new ≡ self.old) }
        ensures left { OnErr result (each.new ≡ each.old) }
    {
        let result = match self.apply_in_memory(alloc, now, packet, each) {
            Err(Fault::NoMemory) if leaves_nothing(packet) => {
                self.reserve.release();
                self.apply_in_memory(alloc, now, packet, each)
            }
            result => result,
        };
        let _filled = self.reserve.fill(alloc);
        result
    }
}
