//! Reports, to the octet, and their numbers.
use super::{Talk, each_answers};
use crate::tests::samples::{Host, holds};
use mm_ask::Outcome::{AllDone, SomeRefused};
use mm_ask::{Counters, Numbers, request_of};
use mm_st15::ReportKind;

const EVERY_REQUEST: &str = "\
1864C000000D200F010000015343492020202020
1864C0000011200F03000001534349202020202000650319
1864C000000D200F050000015343492020202020
1864C0000011200F04000001534349202020202000650319
1864C000001D200F090000015343492020202020000000000000000100000000000000FF
1864C0000004200F120000
1864C000000D200F110000015343492020202020
1864C0000015200F0B000001534349202020202000000000000000FF
1864C000000D200F0C0000015343492020202020
1864C0000013200F14000001484B202020202020000000020003
1864C000000D200F020000015343492020202020
1864C0000011200F19000001534349202020202000000005
1864C000000D200F1A0000015343492020202020
1864C000000D200F1B000001484B202020202020
1864C000000E200F1C000001534349202020202005
1864C000000D200F15000001484B202020202020
1864C0000004200F160000
";

const EVERY_ANSWER: &str = "\
1.1 done
2.1 done
3.1 done
3 report 0864C0000020200F0600000000000000000000000353434920202020200002\
0064031900650319
4.1 done
5.1 done
6 report 0864C0010019200F130000000000000000000000060153434920202020200101
7.1 done
8.1 done
9.1 done
9 report 0864C002002B200F0D0000000000000000000000090153434920202020200000000000000000\
000000000000000000000000
10.1 done
11.1 done
12.1 done
13.1 done
14.1 done
15.1 done
16.1 done
17 report 0864C003001D200F17000000000000000000000011015343492020202020000000050005
";

static REPORTS: [Talk; 6] = wanted! {
    // The report is sent from the request's APID; acknowledgement flags and sequence count are not repeated.
    "a report goes to the request's source", "187BC00500042F0F161234", AllDone
    => "1 report 087BC000001D200F17000012340000000000000001015343492020202020000000040100\n";
    // The sequence count runs over all reports, the message type counter over those of a subtype.
    "numbers of reports rise",
    "1864C0000004200F160000\n1864C0000004200F160000\n1864C0000004200F120000\n1864C0000004200F160000\n", AllDone
    => "1 report 0864C000001D200F17000000000000000000000001015343492020202020000000040100\n\
    2 report 0864C001001D200F17000100000000000000000002015343492020202020000000040100\n\
    3 report 0864C0020019200F130000000000000000000000030153434920202020200100\n\
    4 report 0864C003001D200F17000200000000000000000004015343492020202020000000040100\n";
    // Request 5 is answered by report 6, 12 by 13, 18 by 19, and 22 by 23.
    "every request once", EVERY_REQUEST, AllDone => EVERY_ANSWER;
    // What is refused is left out; where each instruction is, the summary is empty.
    "reports on the stores that are there",
    "1864C000001D200F0C000003736369202020202053434920202020204E4F4E4520202020\n\
    1864C000000D200F0C0000014E4F4E4520202020\n\
    1864C000001D200F05000003736369202020202053434920202020204E4F4E4520202020\n", SomeRefused
    => "1.1 refused 15 BadId\n1.2 done\n1.3 refused 23 NoSuchStore\n\
    1 report 0864C000002B200F0D000000000000000000000001015343492020202020\
    0000000000000000000000000000000000000000\n\
    2.1 refused 23 NoSuchStore\n2 report 0864C001000F200F0D00010000000000000000000200\n\
    3.1 refused 15 BadId\n3.2 done\n3.3 refused 23 NoSuchStore\n\
    3 report 0864C002001C200F060000000000000000000000035343492020202020000100640319\n";
    // SCI has its storage and a retrieval on, READ a retrieval, and HK neither.
    "a store for each pair of statuses",
    "1864C0000021200F140000025245414420202020000000040100484B202020202020000000020003\n\
    1864C000001D200F090000015245414420202020000000000000000100000000000000FF\n\
    1864C000001D200F090000015343492020202020000000000000000100000000000000FF\n\
    1864C0000004200F120000\n", AllDone
    => "1.1 done\n1.2 done\n2.1 done\n3.1 done\n\
    4 report 0864C000002D200F1300000000000000000000000403\
    5343492020202020010152454144202020200001484B2020202020200000\n";
    // Two reports on one request; the refused instruction between them has none.
    "a report for each accepted instruction",
    "1864C000001D200F050000035343492020202020484B2020202020205343492020202020\n", SomeRefused
    => "1.1 done\n1.2 refused 23 NoSuchStore\n1.3 done\n\
    1 report 0864C000001C200F060000000000000000000000015343492020202020000100640319\n\
    1 report 0864C001001C200F060001000000000000000000015343492020202020000100640319\n";
};

#[test]
fn reports_are_printed(rt: HostRuntime) {
    each_answers(&rt, &REPORTS);
}

// The sequence count and the message type counter of the next report of a kind are these.
fn numbered(rt: &impl Host, counters: &mut Counters, kind: ReportKind, want: (u16, u16)) {
    let Numbers { sequence, counter } = counters.next(kind);
    holds(rt, sequence == want.0 && counter == want.1, "the numbers");
}

#[test]
fn counters_by_kind(rt: HostRuntime) {
    let mut counters = Counters::new();
    numbered(&rt, &mut counters, ReportKind::Control, (0, 0));
    numbered(&rt, &mut counters, ReportKind::Summaries, (1, 0));
    numbered(&rt, &mut counters, ReportKind::Control, (2, 1));
}

// After the greatest number comes 0: after 65,536 reports of a subtype, which are four times 16,384.
#[test]
fn counters_begin_again(rt: HostRuntime) {
    let mut counters = Counters::new();
    for _ in 0..65_535u32 {
        let _ = counters.next(ReportKind::Statuses);
    }
    numbered(&rt, &mut counters, ReportKind::Statuses, (16_383, 65_535));
    numbered(&rt, &mut counters, ReportKind::Statuses, (0, 0));
}

#[test]
fn a_line_s_request(rt: HostRuntime) {
    let asked = request_of(rt.alloc(), b"1864C0000004200F160000").expect(&rt, "a request");
    holds(
        &rt,
        asked.request.subtype() == 22 && asked.packet.apid() == 100,
        "the request",
    );
}
