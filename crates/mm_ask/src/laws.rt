//! Laws over the numbers of reports, and over what packets read as.
ghost use Rattle.std.specs.Prelude.{◌≡◌, ◌+◌, ◌%◌};
ghost use Rattle.mm_ask.specs.Counting.{next_counter};
ghost use Rattle.mm_ask.specs.Laws.{NumbersCountReports, ConversationsCount, ReportsCount};
ghost use Rattle.mm_ask.specs.Reads.{PacketsReadOneWay};
ghost use Rattle.mm_packet.specs.declared.header.TheConstants.{SEQUENCE_COUNTS};

use mm_st15::laws::{one_packet_one_report, one_packet_one_request};

/// A report's sequence count is the number of the reports before it, and its message type counter
/// the number of those of its subtype, as far as the fields go.
pub fn numbers_count_reports()
    ensures law { NumbersCountReports }
{}

/// The counts from which the reports of a conversation have their numbers are those of the reports
/// that it printed before: after each line, and after each report on a request.
pub fn conversations_count_their_reports()
    ensures lines { ConversationsCount }
    ensures reports { ReportsCount }
{}

/// What `reads` of `read_bytes` says fixes each character of the text, and the outcome.
pub fn packets_read_one_way()
    ensures law { PacketsReadOneWay }
{
    one_packet_one_request();
    one_packet_one_report();
}

/// The numbers of the constants: how many sequence counts there are, and how many message type
/// counters.
pub fn constants_are()
    ensures sequence { SEQUENCE_COUNTS ≡ 16384 }
    ensures counter { (n : _) → next_counter n ≡ (n + 1) % 65536 }
{}
