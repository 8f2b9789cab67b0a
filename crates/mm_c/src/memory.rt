//! A memory with its storage service, behind a handle.
ghost use Rattle.std.specs.Prelude.{◌≡◌, ⊤, IsTrue, None};
ghost use denote.RawPtr.{null_ptr};
ghost use Rattle.mm_base.specs.Reading.{Gives};
ghost use Rattle.mm_problem.specs.declared.fault.Fault.TheVariants.{NoMemory};
ghost use Rattle.mm_service.specs.Serving.{opened_of};
ghost use Rattle.mm_told.specs.Telling.{refused_answer};
ghost use Rattle.mm_c.specs.Serving.{no_fate, fate_told, no_tally, tally_told, ended, of_call, Opens, OnOpen, Offers};
ghost use Rattle.mm_c.specs.Serving.{Records, IsApplied, IsReported, IsGiven, Bounds};

use crate::handle::MemoryHandle;
use mm_base::Refused;
use mm_packet::BLOCK;
use mm_service::{Fate, Fault, INSTRUCTIONS, Reported, Service, Tally};
use mm_told::{Answer, Reason, Spot, Status};
use std::alloc::Global;

/// What became of a packet that was offered: its kind, and its storage time where it is kept.
#[repr(C)]
#[derive(Clone, Copy, Debug, PartialEq, Eq)]
pub struct FateTold {
    pub kind: u32,
    pub time: u64,
}

/// What became of a packet in the stores that it is routed to.
#[repr(C)]
#[derive(Clone, Copy, Debug, PartialEq, Eq)]
pub struct TallyTold {
    pub kept: u32,
    pub lost: u32,
    pub refused: u32,
}

impl FateTold {
    // What is told where nothing became of the packet.
    fn nothing() -> FateTold
        ensures { result ≡ no_fate }
    {
        FateTold { kind: 0, time: 0 }
    }

    // What became of a packet.
    fn of(fate: Fate) -> FateTold
        ensures { result ≡ fate_told fate }
    {
        match fate {
            Fate::Kept(time) => FateTold { kind: 1, time },
            Fate::KeptOver(time) => FateTold { kind: 2, time },
            Fate::Lost => FateTold { kind: 3, time: 0 },
        }
    }
}

impl TallyTold {
    // What is told where nothing became of the packet.
    fn nothing() -> TallyTold
        ensures { result ≡ no_tally }
    {
        TallyTold {
            kept: 0,
            lost: 0,
            refused: 0,
        }
    }

    // What became of a packet in these stores.
    fn of(tally: Tally) -> TallyTold
        ensures { result ≡ tally_told tally }
    {
        TallyTold {
            kept: tally.kept,
            lost: tally.lost,
            refused: tally.refused,
        }
    }
}

// What an open handle holds. A call on a closed one ends here, and is answered so.
macro_rules! taken {
    ($memory:ident, $alloc:ident, $answer:ident) => {{
        if !$memory.is_open {
            *$answer = ended(Status::Closed);
            return;
        }
        $memory.take($alloc)
    }};
}

pub(crate) use taken;

// The answer that a call ended so, with no text.
pub(crate) fn ended(status: Status) -> Answer
    ensures { result ≡ ended status }
{
    Answer::with_length(status, 0)
}

// The answer that a call is refused for this fault.
pub(crate) fn refused(fault: Fault) -> Answer
    ensures { result ≡ refused_answer (of_call fault) }
{
    Answer::refused(Reason {
        refusal: fault.refusal(),
        spot: Spot::Whole,
    })
}

// The service of a setup's memory, in a box.
fn opened(alloc: Global, setup: &[u8]) -> Result<Box<Service>, mm_problem::Fault>
    ensures { Gives NoMemory (λ service. service.value) result (opened_of setup.now) }
{
    let service = Service::open(alloc, setup)?;
    match Box::new(alloc, service) {
        Ok(service) => Ok(service),
        Err(_) => Err(mm_problem::Fault::NoMemory),
    }
}

/// Opens a closed handle: it then holds the memory of a setup. An open one stays as it is.
#[unsafe(no_mangle)]
pub extern "C" fn rudlayog_memory_open(
    alloc: Global,
    memory: &mut MemoryHandle,
    setup: &[u8],
    answer: &mut Answer,
)
    ensures opened { Opens setup.now memory.old.loose.service memory.new.loose.service answer.new }
{
    if memory.is_open {
        *answer = ended(Status::Open);
        return;
    }
    match opened(alloc, setup) {
        Ok(service) => {
            memory.put(service);
            *answer = ended(Status::Written);
        }
        Err(fault) => *answer = Answer::refused(Reason::of_setup(fault)),
    }
}

/// Offers a packet at a moment, in ticks, to the store with an identifier, as `Service::offer` of `mm_service` does.
#[unsafe(no_mangle)]
pub extern "C" fn rudlayog_memory_offer(
    alloc: Global,
    memory: &mut MemoryHandle,
    id: &[u8],
    now: u64,
    packet: &[u8],
    fate: &mut FateTold,
    answer: &mut Answer,
)
    ensures offered { OnOpen (Offers id.now packet.now now fate.new answer.new) (fate.new ≡ no_fate)
        memory.old.loose.service memory.new.loose.service answer.new }
{
    *fate = FateTold::nothing();
    let mut service = taken!(memory, alloc, answer);
    match service.offer(alloc, id, now, packet) {
        Ok(became) => {
            *fate = FateTold::of(became);
            *answer = ended(Status::Written);
        }
        Err(fault) => *answer = refused(fault),
    }
    memory.put(service);
}

/// Offers a packet at a moment, in ticks, to each store that its report type is routed to, as `Service::record` of
/// `mm_service` does.
#[unsafe(no_mangle)]
pub extern "C" fn rudlayog_memory_record(
    alloc: Global,
    memory: &mut MemoryHandle,
    now: u64,
    packet: &[u8],
    tally: &mut TallyTold,
    answer: &mut Answer,
)
    ensures recorded { OnOpen (Records packet.now now tally.new answer.new) (tally.new ≡ no_tally)
        memory.old.loose.service memory.new.loose.service answer.new }
{
    *tally = TallyTold::nothing();
    let mut service = taken!(memory, alloc, answer);
    match service.record(alloc, now, packet) {
        Ok(became) => {
            *tally = TallyTold::of(became);
            *answer = ended(Status::Written);
        }
        Err(fault) => *answer = refused(fault),
    }
    memory.put(service);
}

/// Applies a request at a moment, in ticks, as `Service::apply` of `mm_service` does. A buffer of `INSTRUCTIONS` octets
/// has room for the codes of each request's answers; with less nothing is done.
#[unsafe(no_mangle)]
pub extern "C" fn rudlayog_memory_apply(
    alloc: Global,
    memory: &mut MemoryHandle,
    now: u64,
    request: &[u8],
    each: &mut [u8],
    answer: &mut Answer,
)
    ensures applied { OnOpen (IsApplied request.now now each.old each.new answer.new) (each.new ≡ each.old)
        memory.old.loose.service memory.new.loose.service answer.new }
{
    if !memory.is_open {
        *answer = ended(Status::Closed);
        return;
    }
    if each.len() < INSTRUCTIONS {
        *answer = Answer::with_length(Status::TooSmall, INSTRUCTIONS);
        return;
    }
    let mut service = memory.take(alloc);
    *answer = match service.apply(alloc, now, request, each) {
        Ok(count) => Answer::with_length(Status::Written, count),
        Err(fault) => refused(fault),
    };
    memory.put(service);
}

/// Gives the report that waits longest, as `Service::report` of `mm_service` does.
#[unsafe(no_mangle)]
pub extern "C" fn rudlayog_memory_report(
    alloc: Global,
    memory: &mut MemoryHandle,
    out: &mut [u8],
    answer: &mut Answer,
)
    ensures reported { OnOpen (IsReported out.old out.new answer.new) (out.new ≡ out.old)
        memory.old.loose.service memory.new.loose.service answer.new }
{
    let mut service = taken!(memory, alloc, answer);
    *answer = match service.report(alloc, out) {
        Ok(Reported::Written(len)) => Answer::with_length(Status::Written, len),
        Ok(Reported::TooSmall(len)) => Answer::with_length(Status::TooSmall, len),
        Ok(Reported::End) => ended(Status::End),
        Err(_) => Answer::refused(Reason::no_memory()),
    };
    memory.put(service);
}

/// Gives the next packet of the retrieval from the store with an identifier, as `Service::next` of `mm_service` does. A
/// buffer of `BLOCK` octets has room for each packet; with less nothing is done.
#[unsafe(no_mangle)]
pub extern "C" fn rudlayog_memory_next(
    alloc: Global,
    memory: &mut MemoryHandle,
    id: &[u8],
    out: &mut [u8],
    time: &mut u64,
    answer: &mut Answer,
)
    ensures given { OnOpen (IsGiven id.now time.new out.old out.new answer.new) ((time.new ≡ 0) × (out.new ≡ out.old))
        memory.old.loose.service memory.new.loose.service answer.new }
{
    *time = 0;
    if !memory.is_open {
        *answer = ended(Status::Closed);
        return;
    }
    if out.len() < BLOCK {
        *answer = Answer::with_length(Status::TooSmall, BLOCK);
        return;
    }
    let mut service = memory.take(alloc);
    match service.next(id, out) {
        Ok(Some(given)) => {
            *time = given.time;
            *answer = Answer::with_length(Status::Written, given.len);
        }
        Ok(None) => *answer = ended(Status::End),
        Err(fault) => *answer = refused(fault),
    }
    memory.put(service);
}

/// Sets how many reports may wait from now on, as `Service::bound_waiting` of `mm_service` does.
#[unsafe(no_mangle)]
pub extern "C" fn rudlayog_memory_bound(
    alloc: Global,
    memory: &mut MemoryHandle,
    reports: u64,
    answer: &mut Answer,
)
    ensures bounded { OnOpen (Bounds reports answer.new) ⊤
        memory.old.loose.service memory.new.loose.service answer.new }
{
    let mut service = taken!(memory, alloc, answer);
    service.bound_waiting(Some(reports as usize));
    *answer = ended(Status::Written);
    memory.put(service);
}

/// Closes a handle, and frees what it held: its pointer is null then. A closed one stays closed.
#[unsafe(no_mangle)]
pub extern "C" fn rudlayog_memory_close(alloc: Global, memory: &mut MemoryHandle)
    ensures closed { memory.new.loose.service ≡ None }
    ensures cleared { IsTrue memory.old.is_open → memory.new.loose.at ≡ null_ptr }
{
    if memory.is_open {
        memory.close(alloc);
    }
}
