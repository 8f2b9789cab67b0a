//! Packets as octets in a buffer of the caller's, without memory.
ghost use Rattle.std.specs.Prelude.{◌≡◌, ◌+◌, ◌≤◌, ◌↔◌, length, IsOk, OnOk, OnErr, MatchResult};
ghost use Rattle.mm_packet.specs.Buffer.{over, Writes};
ghost use Rattle.mm_packet.specs.Spelling.{type_fields, spelling};

use crate::header::PacketType;
use crate::packet::Packet;

/// A buffer too small for a packet, whose spelling has `len` octets.
#[derive(Clone, Copy, Debug, PartialEq, Eq)]
pub struct TooSmall {
    pub len: usize,
}

// Writes octets into a buffer from a place on, and gives the place after them. The octets before that place stay.
fn put(out: &mut [u8], at: usize, octets: &[u8]) -> usize
    requires room { at + length octets.now ≤ length out.old }
    ensures written { Writes at octets.now out.old out.new }
    ensures after { result ≡ at + length octets.now }
{
    let end = at + octets.len();
    out[at..end].copy_from_slice(octets);
    end
}

// Writes the fields of a packet type, in the same way.
fn put_type_fields(out: &mut [u8], at: usize, kind: PacketType) -> usize
    requires room { at + length (type_fields kind) ≤ length out.old }
    ensures written { Writes at (type_fields kind) out.old out.new }
    ensures after { result ≡ at + length (type_fields kind) }
{
    match kind {
        PacketType::Telecommand { source } => put(out, at, &source.to_be_bytes()),
        PacketType::Telemetry {
            counter,
            destination,
            time,
        } => {
            let at = put(out, at, &counter.to_be_bytes());
            let at = put(out, at, &destination.to_be_bytes());
            put(out, at, &time.to_be_bytes())
        }
    }
}

impl Packet {
    // Writes the packet's spelling at the head of a buffer.
    fn put_all(&self, out: &mut [u8])
        requires room { length (spelling self.now) ≤ length out.old }
        ensures written { out.new ≡ over (spelling self.now) out.old }
    {
        let header = self.header;
        let first = self.first_octet();
        let at = put(out, 0, &self.identification().to_be_bytes());
        let at = put(out, at, &self.sequence_control().to_be_bytes());
        let at = put(out, at, &self.data_length().to_be_bytes());
        let at = put(out, at, &[first, header.service, header.subtype]);
        let at = put_type_fields(out, at, self.kind);
        let _end = put(out, at, self.body());
    }

    /// Writes the packet's spelling at the head of a buffer, and gives its length. A buffer that is too small for all of it stays as it was.
    pub fn write_to(&self, out: &mut [u8]) -> Result<usize, TooSmall>
        ensures ok { IsOk result ↔ (length (spelling self.now) ≤ length out.old) }
        ensures len { MatchResult result (λ len. len ≡ length (spelling self.now))
            (λ fault. fault.len ≡ length (spelling self.now)) }
        ensures written { OnOk result (out.new ≡ over (spelling self.now) out.old) }
        ensures left { OnErr result (out.new ≡ out.old) }
    {
        let len = self.spelled_len();
        if len > out.len() {
            return Err(TooSmall { len });
        }
        self.put_all(out);
        Ok(len)
    }
}
