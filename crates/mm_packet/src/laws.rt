//! Laws over the spelling of packets. Each function is a law, which its contract states.
ghost use Rattle.std.specs.Prelude.{◌≡◌};
ghost use Rattle.mm_packet.specs.Laws.{OnePacketOneSpelling, WrittenIsRead};
ghost use Rattle.mm_packet.specs.declared.block.TheConstants.{BLOCK};
ghost use Rattle.mm_packet.specs.declared.header.TheConstants.{IDLE_APID, SEQUENCE_COUNTS, TELECOMMAND_BODY, TELEMETRY_BODY};

/// One packet has one spelling, and no packet's spelling begins that of another.
pub fn one_packet_one_spelling()
    ensures law { OnePacketOneSpelling }
{}

/// A packet that was written is read again, whatever follows it.
pub fn written_is_read()
    ensures law { WrittenIsRead }
{}

/// The public constants, as numbers.
pub fn constants_are()
    ensures block { BLOCK ≡ 1024 }
    ensures idle_apid { IDLE_APID ≡ 2047 }
    ensures sequence_counts { SEQUENCE_COUNTS ≡ 16384 }
    ensures telecommand_body { TELECOMMAND_BODY ≡ 65531 }
    ensures telemetry_body { TELEMETRY_BODY ≡ 65521 }
{}
