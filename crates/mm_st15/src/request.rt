//! Requests of service 15.
ghost use Rattle.std.specs.Prelude.{◌≡◌, ◌<◌, ◌≤◌, ◌^◌, length, is_some, IfOk, MatchBool, MatchResult, MatchOption, IsOkUnless};
ghost use Rattle.mm_packet.specs.declared.header.TheConstants.{IDLE_APID, TELECOMMAND_BODY};
ghost use Rattle.mm_packet.specs.declared.header.PacketType.TheVariants.{Telecommand};
ghost use Rattle.mm_st15.specs.RequestKind.{code_of, width_of};
ghost use Rattle.mm_st15.specs.Request.{IsRequest, SpellsRequest, request_fault};

use crate::counted::{counted_entries, counted_octets};
use crate::entries::Entries;
use crate::fault::Fault;
use crate::instruction::{Channel, Configuration, ReportType, Size, Target, TimeLimit, TimeRange};
use crate::request_kind::RequestKind;
use crate::service::SERVICE;
use crate::table::requests;
use mm_base::NoMemory;
use mm_packet::{Header, Octets, Packet};
use std::alloc::{AllocError, Global};

/// A request: a case for each subtype, with its instructions in order.
#[derive(Debug, Drop)]
pub enum Request {
    /// Subtype 1: enable storage.
    EnableStorage(Entries<Target>),
    /// Subtype 2: disable storage.
    DisableStorage(Entries<Target>),
    /// Subtype 3: add report types to the storage control.
    AddReportTypes(Entries<ReportType>),
    /// Subtype 4: delete report types from the storage control.
    DeleteReportTypes(Entries<ReportType>),
    /// Subtype 5: report the storage control of stores.
    ReportControl(Entries<Target>),
    /// Subtype 9: start by-time-range retrieval.
    StartRetrieval(Entries<TimeRange>),
    /// Subtype 11: delete content up to a storage time.
    DeleteContent(Entries<TimeLimit>),
    /// Subtype 12: report a summary of the content.
    SummariseContent(Entries<Target>),
    /// Subtype 17: abort by-time-range retrieval.
    AbortRetrieval(Entries<Target>),
    /// Subtype 18: report the status of each store.
    ReportStatus,
    /// Subtype 20: create packet stores.
    CreateStores(Entries<Configuration>),
    /// Subtype 21: delete packet stores.
    DeleteStores(Entries<Target>),
    /// Subtype 22: report the configuration of each store.
    ReportConfiguration,
    /// Subtype 25: resize packet stores.
    ResizeStores(Entries<Size>),
    /// Subtype 26: change the type to circular.
    ChangeToCircular(Entries<Target>),
    /// Subtype 27: change the type to bounded.
    ChangeToBounded(Entries<Target>),
    /// Subtype 28: change the virtual channel.
    ChangeChannel(Entries<Channel>),
}

// The request of a kind with these data.
macro_rules! with_data {
    (($kind:expr, $alloc:expr, $octets:expr)
     listed { $($number:literal $name:ident $entry:ident,)* }
     bare { $($other:literal $bare:ident,)* }) => {
        match $kind {
            $(RequestKind::$name => counted_entries($alloc, 1, $octets).map(Request::$name),)*
            $(RequestKind::$bare if $octets.is_empty() => Ok(Request::$bare),)*
            $(RequestKind::$bare => Err(Fault::CountMismatch),)*
        }
    };
}

// What a request asks.
macro_rules! kind {
    (($request:expr)
     listed { $($number:literal $name:ident $entry:ident,)* }
     bare { $($other:literal $bare:ident,)* }) => {
        match $request {
            $(Request::$name(_) => RequestKind::$name,)*
            $(Request::$bare => RequestKind::$bare,)*
        }
    };
}

// The data of a request.
macro_rules! data {
    (($request:expr, $alloc:expr)
     listed { $($number:literal $name:ident $entry:ident,)* }
     bare { $($other:literal $bare:ident,)* }) => {
        match $request {
            $(Request::$name(entries) => counted_octets($alloc, entries),)*
            $(Request::$bare => Ok(Vec::new($alloc)),)*
        }
    };
}

impl RequestKind {
    ghost use Rattle.mm_st15.specs.Request.{instructions_at, data_of, kind_of, IsRequest};

    // The request with these data.
    fn with_data(self, alloc: Global, octets: &[u8]) -> Result<Request, Fault>
        ensures kind { IfOk result (λ request. kind_of request ≡ self) }
        ensures data { IfOk result (λ request. data_of request ≡ octets.now) }
        ensures fits { IfOk result IsRequest }
        ensures refused { MatchBool (is_some (instructions_at (width_of self) octets.now))
            (IsOkUnless result Fault.NoMemory) (result ≡ Err Fault.CountMismatch) }
    {
        requests!(with_data(self, alloc, octets))
    }
}

impl Request {
    ghost use Rattle.mm_packet.specs.Packet.{SpacePacket};
    ghost use Rattle.mm_st15.specs.Request.{kind_of, count_of, data_of, HasCount, IsRequest, SpellsRequest, request_fault};

    /// The telecommand that spells the request.
    pub fn write(
        &self,
        alloc: Global,
        apid: u16,
        count: u16,
        low: u8,
        source: u16,
    ) -> Result<Packet, NoMemory>
        requires apid { apid < IDLE_APID }
        requires count { count < 2 ^ 14 }
        requires low { low < 2 ^ 4 }
        requires instructions { HasCount (kind_of self.now) (count_of self.now) }
        ensures spelled { IfOk result (λ packet. SpellsRequest packet self.now) }
        ensures fits { IfOk result (λ _. IsRequest self.now) }
        ensures apid { IfOk result (λ packet. packet.header.apid ≡ apid) }
        ensures count { IfOk result (λ packet. packet.header.count ≡ count) }
        ensures low { IfOk result (λ packet. packet.header.low ≡ low) }
        ensures source { IfOk result (λ packet. packet.kind ≡ Telecommand source) }
    {
        let header = Header {
            apid,
            count,
            low,
            service: SERVICE,
            subtype: self.subtype(),
        };
        let body = Octets::new(self.data(alloc)?)?;
        Ok(Packet::tc(header, source, body))
    }

    /// The request that a packet spells.
    pub fn read(alloc: Global, packet: &Packet) -> Result<Request, Fault>
        // The packet spells the request.
        ensures found { IfOk result (λ request. IsRequest request
            × SpellsRequest packet.now request) }
        // A request that the packet spells is read, unless memory runs out.
        ensures only { (request : Request) → IsRequest request → SpellsRequest packet.now request
            → MatchResult result (λ read. read ≡ request) (λ fault. fault ≡ Fault.NoMemory) }
        // Which refusal it is: the first test that fails.
        ensures refused { MatchOption (request_fault packet.now) (IsOkUnless result Fault.NoMemory)
            (λ fault. result ≡ Err fault) }
    {
        request_in(alloc, packet)
    }

    /// The subtype.
    #[must_use]
    pub fn subtype(&self) -> u8
        ensures code { result ≡ code_of (kind_of self.now) }
    {
        self.kind().code()
    }

    /// What the request asks.
    #[must_use]
    pub fn kind(&self) -> RequestKind
        ensures kind { result ≡ kind_of self.now }
    {
        requests!(kind(self))
    }

    // The number of instructions, and their octets; nothing where the request has no data.
    fn data(&self, alloc: Global) -> Result<Vec<u8>, AllocError>
        requires { HasCount (kind_of self.now) (count_of self.now) }
        ensures data { IfOk result (λ octets. octets.items ≡ data_of self.now) }
        ensures room { IfOk result (λ octets. length octets.items ≤ TELECOMMAND_BODY) }
        ensures fits { IfOk result (λ _. IsRequest self.now) }
    {
        requests!(data(self, alloc))
    }
}

// The request that a packet spells.
fn request_in(alloc: Global, packet: &Packet) -> Result<Request, Fault>
    ensures found { IfOk result (λ request. IsRequest request × SpellsRequest packet.now request) }
    ensures refused { MatchOption (request_fault packet.now) (IsOkUnless result Fault.NoMemory)
        (λ fault. result ≡ Err fault) }
{
    if !packet.is_telecommand() || packet.service() != SERVICE {
        return Err(Fault::NotSt15);
    }
    let kind = RequestKind::of_code(packet.subtype()).ok_or(Fault::UnknownSubtype)?;
    kind.with_data(alloc, packet.body())
}
