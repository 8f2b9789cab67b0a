//! Requests from lines of hexadecimal digits.
ghost use Rattle.std.specs.Prelude.{◌≡◌, ◌≢◌, ◌*◌, ◌≤◌, length, take, Ok, Err, MatchResult, IfOk, IfErr, IsTrue};
ghost use Rattle.std.specs.Char.{is_ascii_hexdigit};
ghost use Rattle.std.specs.List.{list_all};
ghost use Rattle.mm_base.specs.Reading.{Gives};
ghost use Rattle.mm_st15.specs.Request.{IsRequest, SpellsRequest, request_fault};
ghost use Rattle.mm_ask.specs.declared.fault.LineFault.TheVariants.{NoMemory, HexLine};
ghost use Rattle.mm_ask.specs.Line.{has_digits, octets_in, packet_alone, packet_of, request_alone, request_of};
ghost use Rattle.mm_ask.specs.Line.{request_tested};

use crate::fault::LineFault;
use mm_base::passed_on;
use mm_packet::{BLOCK, LentPacket, Packet};
use mm_st15::Request;
use std::alloc::Global;

/// A request with the packet that asks it.
#[derive(Debug, Drop)]
pub struct Asked {
    pub packet: Packet,
    pub request: Request,
}

fn are_digits(line: &[u8]) -> bool
    ensures { result ≡ list_all is_ascii_hexdigit line.now }
{
    line.iter().all(|digit| digit.is_ascii_hexdigit())
}

// Whether the line is hexadecimal digits alone, an even number of them.
#[tactic(auto, using(crate::proofs::DigitLemmas::same_digits))]
fn has_digits(line: &[u8]) -> bool
    ensures { result ≡ has_digits line.now }
{
    line.len() % 2 == 0 && are_digits(line)
}

// The octets that the digits spell.
fn octets_in(alloc: Global, line: &[u8]) -> Result<Vec<u8>, LineFault>
    ensures octets { Gives NoMemory (λ octets. octets.items) result (octets_in line.now) }
    ensures memory { IfErr result (λ fault. fault ≡ NoMemory → IsTrue (has_digits line.now)) }
    ensures digits { IfOk result (λ _. IsTrue (has_digits line.now)) }
{
    if !has_digits(line) {
        return Err(LineFault::HexLine);
    }
    match hex::decode(alloc, line) {
        Ok(octets) => Ok(octets),
        Err(_) => Err(LineFault::NoMemory),
    }
}

impl From<mm_packet::Fault> for LineFault {
    ghost use Rattle.mm_ask.specs.Fault.{of_packet};

    ghost from_gives = { λ fault e. e ≡ of_packet fault };

    fn from(fault: mm_packet::Fault) -> LineFault {
        passed_on!(fault; mm_packet as Packet)
    }
}

/// The packet that the octets are, with nothing after it, read without memory.
pub fn lent_alone(octets: &[u8]) -> Result<LentPacket<'_>, LineFault>
    ensures exact { MatchResult result (λ packet. packet_alone octets.now ≡ Ok packet)
        (λ fault. packet_alone octets.now ≡ Err fault) }
    ensures no_memory { IfErr result (λ fault. fault ≢ NoMemory) }
{
    let (packet, rest) = LentPacket::parse(octets)?;
    if rest.is_empty() {
        Ok(packet)
    } else {
        Err(LineFault::HexLine)
    }
}

/// The packet that the octets are, with nothing after it.
pub fn packet_alone(alloc: Global, octets: &[u8]) -> Result<Packet, LineFault>
    ensures { Gives NoMemory (λ packet. packet) result (packet_alone octets.now) }
{
    let (packet, rest) = Packet::parse(alloc, octets)?;
    if rest.is_empty() {
        Ok(packet)
    } else {
        Err(LineFault::HexLine)
    }
}

// Writes the octets that the digits spell at the head of a room, and gives how many they are.
#[tactic(auto, using(crate::proofs::DigitLemmas::spelled))]
fn octets_within(room: &mut [u8], digits: &[u8]) -> Result<usize, LineFault>
    requires { length digits.now ≤ 2 * length room.old }
    ensures octets { IfOk result (λ count. octets_in digits.now ≡ Ok (take count room.new)) }
    ensures count { IfOk result (λ count. count ≤ length room.new) }
    ensures digits { IfOk result (λ _. IsTrue (has_digits digits.now)) }
    ensures refused { IfErr result (λ fault. (fault ≡ HexLine) × (octets_in digits.now ≡ Err HexLine)) }
{
    let count = digits.len() / 2;
    match hex::decode_to_slice(digits, &mut room[..count]) {
        Ok(()) => Ok(count),
        Err(_) => Err(LineFault::HexLine),
    }
}

// The packet that these digits spell, if they are no more than those of the longest stored packet. Its octets take no
// memory.
#[tactic(auto, unfolding(crate::specs::Line::packet_of))]
fn short_packet_of(alloc: Global, digits: &[u8]) -> Result<Packet, LineFault>
    requires { length digits.now ≤ 2 * BLOCK }
    ensures packet { Gives NoMemory (λ packet. packet) result (packet_of digits.now) }
    ensures memory { IfErr result (λ fault. fault ≡ NoMemory → IsTrue (has_digits digits.now)) }
    ensures digits { IfOk result (λ _. IsTrue (has_digits digits.now)) }
{
    let mut room = [0; BLOCK];
    let count = octets_within(&mut room, digits)?;
    packet_alone(alloc, &room[..count])
}

// The packet of any number of digits.
#[tactic(auto, unfolding(crate::specs::Line::packet_of))]
fn long_packet_of(alloc: Global, digits: &[u8]) -> Result<Packet, LineFault>
    ensures packet { Gives NoMemory (λ packet. packet) result (packet_of digits.now) }
    ensures memory { IfErr result (λ fault. fault ≡ NoMemory → IsTrue (has_digits digits.now)) }
    ensures digits { IfOk result (λ _. IsTrue (has_digits digits.now)) }
{
    let octets = octets_in(alloc, digits)?;
    packet_alone(alloc, &octets)
}

/// The packet that hexadecimal digits spell, with nothing after it. The tests come in this order: the digits, the
/// packet, octets after it.
pub fn packet_of(alloc: Global, digits: &[u8]) -> Result<Packet, LineFault>
    ensures packet { Gives NoMemory (λ packet. packet) result (packet_of digits.now) }
    // An allocation is refused only where the digits are good.
    ensures memory { IfErr result (λ fault. fault ≡ NoMemory → IsTrue (has_digits digits.now)) }
    ensures digits { IfOk result (λ _. IsTrue (has_digits digits.now)) }
{
    if digits.len() <= 2 * BLOCK {
        short_packet_of(alloc, digits)
    } else {
        long_packet_of(alloc, digits)
    }
}

impl From<mm_st15::Fault> for LineFault {
    ghost use Rattle.mm_ask.specs.Fault.{of_request};

    ghost from_gives = { λ fault e. e ≡ of_request fault };

    fn from(fault: mm_st15::Fault) -> LineFault {
        passed_on!(fault; mm_st15 as Request)
    }
}

// The request that a packet asks.
fn asked_of(alloc: Global, packet: Packet) -> Result<Asked, LineFault>
    ensures asked { Gives NoMemory (λ asked. asked.packet) result (request_tested packet (request_fault packet)) }
    ensures spelled { IfOk result (λ asked. IsRequest asked.request
        × SpellsRequest asked.packet asked.request) }
{
    let request = Request::read(alloc, &packet)?;
    Ok(Asked { packet, request })
}

/// The request of the packet that the octets are, with nothing after it. The tests come in this order: the packet,
/// octets after it, the request.
pub fn request_alone(alloc: Global, octets: &[u8]) -> Result<Asked, LineFault>
    ensures asked { Gives NoMemory (λ asked. asked.packet) result (request_alone octets.now) }
    ensures spelled { IfOk result (λ asked. IsRequest asked.request
        × SpellsRequest asked.packet asked.request) }
{
    let packet = packet_alone(alloc, octets)?;
    asked_of(alloc, packet)
}

/// The request that a line of hexadecimal digits asks. The tests come in this order: the digits,
/// the packet, octets after it, the request.
#[tactic(auto, using(crate::proofs::DigitLemmas::request_of_packet))]
pub fn request_of(alloc: Global, line: &[u8]) -> Result<Asked, LineFault>
    // The packet of the line, which passes every test.
    ensures found { IfOk result (λ asked. request_of line.now ≡ Ok asked.packet) }
    // The packet spells the request.
    ensures spelled { IfOk result (λ asked. IsRequest asked.request
        × SpellsRequest asked.packet asked.request) }
    // Which refusal it is: the first test that fails.
    ensures refused { Gives NoMemory (λ asked. asked.packet) result (request_of line.now) }
    // An allocation is refused only where the digits are good, the one test before the first allocation.
    ensures memory { IfErr result (λ fault. fault ≡ NoMemory → IsTrue (has_digits line.now)) }
    ensures digits { IfOk result (λ _. IsTrue (has_digits line.now)) }
{
    let packet = packet_of(alloc, line)?;
    asked_of(alloc, packet)
}
