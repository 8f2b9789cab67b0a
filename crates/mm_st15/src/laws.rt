//! Laws over the spelling of requests and reports.
ghost use Rattle.std.specs.Prelude.{◌≡◌};
ghost use Rattle.mm_st15.specs.declared.report.TheConstants.{MOST_ROWS};
ghost use Rattle.mm_st15.specs.declared.service.TheConstants.{SERVICE};
ghost use Rattle.mm_st15.specs.Laws.{OnePacketOneRequest, RequestIsNotRefused, OnePacketOneReport, ReportIsNotRefused};

/// A packet spells at most one request.
pub fn one_packet_one_request()
    ensures law { OnePacketOneRequest }
{}

/// No test refuses a packet that spells a request.
pub fn request_is_not_refused()
    ensures law { RequestIsNotRefused }
{}

/// A packet spells at most one report.
pub fn one_packet_one_report()
    ensures law { OnePacketOneReport }
{}

/// No test refuses a packet that spells a report.
pub fn report_is_not_refused()
    ensures law { ReportIsNotRefused }
{}

/// The numbers of the constants.
pub fn constants_are()
    ensures service { SERVICE ≡ 15 }
    ensures rows { MOST_ROWS ≡ 16377 }
{}
