//! Packets as lines of digits, and the lines that say them in words and numbers, worked out by hand.
use crate::tests::samples::{Host, is_told};
use mm_ask::{Outcome, read_bytes};

// Texts of packets, and the lines that each reads as.
macro_rules! read_as {
    ($($packets:literal => $($line:literal)*;)*) => { [$(($packets, concat!($($line, "\n"),*))),*] };
}

// Texts by the refusal of their first line.
macro_rules! refused {
    ($($why:literal => $($packets:literal)*;)*) => { [$($(($packets, concat!("1 refused ", $why, "\n"))),*),*] };
}

// Telecommands of the service by the numbers of their headers: the line of the text, and then those that are told in
// this order; and the lines on their data.
macro_rules! telecommands {
    ($($packets:literal => $line:literal: $apid:literal $count:literal $length:literal $flags:literal $subtype:literal
        $source:literal $($data:literal)*;)*) => {
        [$(($packets, concat!($line, " telecommand apid ", $apid, " count ", $count, " length ", $length,
            " acknowledgement ", $flags, " service 15 subtype ", $subtype, " source ", $source, "\n"
            $(, $data, "\n")*))),*]
    };
}

// Reports of the service, in the same way.
macro_rules! reports {
    ($($packets:literal => $line:literal: $apid:literal $count:literal $length:literal $reference:literal
        $subtype:literal $counter:literal $destination:literal $time:literal $($data:literal)*;)*) => {
        [$(($packets, concat!($line, " telemetry apid ", $apid, " count ", $count, " length ", $length, " reference ",
            $reference, " service 15 subtype ", $subtype, " counter ", $counter, " destination ", $destination,
            " time ", $time, "\n" $(, $data, "\n")*))),*]
    };
}

// Each of these texts reads as the lines beside it, with this outcome.
fn each_reads(rt: &impl Host, outcome: Outcome, packets: &[(&str, &str)]) {
    for (packets, want) in packets {
        let told = read_bytes(rt.alloc(), packets.as_bytes()).expect(rt, packets);
        is_told(rt, packets, &told, outcome, want);
    }
}

// One request for the status of each store, in several places and spellings.
static SPELLED: [(&str, &str); 5] = telecommands! {
    "\n\n1864C0010004200F120007" => 3: 100 1 4 0 18 7 "  report the status of each store";
    "1864c0010004200f120007\n" => 1: 100 1 4 0 18 7 "  report the status of each store";
    " 1864 C001 0004  20 0F 12 0 0 0 7 " => 1: 100 1 4 0 18 7 "  report the status of each store";
    "18446744073709551615 report 1864 C001 0004 20 0F 12 0007" =>
        18446744073709551615: 100 1 4 0 18 7 "  report the status of each store";
    "7 report 1864C0000017200F1C000702534349202020202003484B20202020202000" =>
        7: 100 0 23 0 28 7 "  change the channel" "    7.1 SCI channel 3" "    7.2 HK channel 0";
};

// Texts without packets.
static NO_DIGITS: [(&str, &str); 3] = read_as! {
    "" => ;
    "\n\n" => ;
    "3.1 done\n4.1 refused 24 Exists\n4.2 refused 16 BadEnum\n13 refused 14 CountMismatch\n" =>
        "3.1 done" "4.1 refused 24 Exists" "4.2 refused 16 BadEnum" "13 refused 14 CountMismatch";
};

// Lines that are refused with no more told, the first of a text: those that are nearly lines of `ask`, and those that
// are no packets, by the first test that fails.
static REFUSED: [(&str, &str); 15] = refused! {
    "49 HexLine" => "1 refused" "9 report" "1 Report 1864C0010004200F120007" "09 report 1864C0010004200F120007"
        "18446744073709551616 report 1864C0010004200F120007" "hello" "1864C0010004200F1200070"
        "1864C0010004200F120007\r\n" "1864C0010004200F12000700";
    "1 Short" => "1864C0010004200F1200";
    "2 Version" => "3864C0010004200F120007";
    "3 NoSecondaryHeader" => "1064C0010004200F120007";
    "4 PusVersion" => "1864C0010004100F120007";
    "5 Segmented" => "186440010004200F120007";
    "6 Idle" => "1FFFC0010004200F120007";
};

// The same with other lines.
static OTHER_LINES: [(&str, &str); 2] = read_as! {
    "\n1.1 done " => "2 refused 49 HexLine"; "9 report 1864" => "9 refused 1 Short";
};

// Packets whose headers are told, and then why they are no request or report.
static NOT_OF_THE_SERVICE: [(&str, &str); 5] = read_as! {
    "0864C000000E200319000000000000000000000000" =>
        "1 telemetry apid 100 count 0 length 14 reference 0 service 3 subtype 25 counter 0 destination 0 time 0"
        "1 refused 12 NotSt15";
    "1864C000000420110100AB" =>
        "1 telecommand apid 100 count 0 length 4 acknowledgement 0 service 17 subtype 1 source 171"
        "1 refused 12 NotSt15";
    "1864C0000005200F13000000" =>
        "1 telecommand apid 100 count 0 length 5 acknowledgement 0 service 15 subtype 19 source 0"
        "1 refused 13 UnknownSubtype";
    "1864C000000D200F010000025343492020202020" =>
        "1 telecommand apid 100 count 0 length 13 acknowledgement 0 service 15 subtype 1 source 0"
        "1 refused 14 CountMismatch";
    "0864C000000F200F1300000000000000000000000001" =>
        "1 telemetry apid 100 count 0 length 15 reference 0 service 15 subtype 19 counter 0 destination 0 time 0"
        "1 refused 14 CountMismatch";
};

// A line that is refused, and one that is read after it.
static TWO_LINES: [(&str, &str); 1] = read_as! {
    "1864\n1864C0010004200F120007\n" =>
        "1 refused 1 Short" "2 telecommand apid 100 count 1 length 4 acknowledgement 0 service 15 subtype 18 source 7"
        "  report the status of each store";
};

// A request of each subtype: digits, and the lines on them.
static REQUESTS: [(&str, &str); 17] = telecommands! {
    "1864C005000D200F0100070143414D2020202020" => 1: 100 5 13 0 1 7 "  enable storage" "    1.1 CAM";
    "1801C000000D210F02000001484B202020202020" => 1: 1 0 13 1 2 0 "  disable storage" "    1.1 HK";
    "1864C0040011200F0300070143414D2020202020006E0319" =>
        1: 100 4 17 0 3 7 "  add report types" "    1.1 CAM apid 110 service 3 subtype 25";
    "1864C0040011200F0400070143414D202020202007FE0100" =>
        1: 100 4 17 0 4 7 "  delete report types" "    1.1 CAM apid 2046 service 1 subtype 0";
    "1864C004000D200F050007015343492020202020" => 1: 100 4 13 0 5 7 "  report the storage control" "    1.1 SCI";
    "1864C006001D200F090007015343492020202020000000000000000100000000000000FF" =>
        1: 100 6 29 0 9 7 "  start retrieval" "    1.1 SCI from 1 to 255";
    "1864C0070015200F0B0007015343492020202020FFFFFFFFFFFFFFFF" =>
        1: 100 7 21 0 11 7 "  delete content" "    1.1 SCI up to 18446744073709551615";
    "1864C000000D200F0C0007015343492020202020" => 1: 100 0 13 0 12 7 "  summarise content" "    1.1 SCI";
    "1864C000000D200F110007015343492020202020" => 1: 100 0 13 0 17 7 "  abort retrieval" "    1.1 SCI";
    "1FFEFFFF00042F0F12FFFF" => 1: 2046 16383 4 15 18 65535 "  report the status of each store";
    "1864C0030021200F140007025343492020202020000000040100484B322020202020FFFFFFFF0002" =>
        1: 100 3 33 0 20 7 "  create stores" "    1.1 SCI size 4 type bounded channel 0"
            "    1.2 HK2 size 4294967295 type circular channel 2";
    "1864C000000D200F150007015343492020202020" => 1: 100 0 13 0 21 7 "  delete stores" "    1.1 SCI";
    "1864C0000004200F160007" => 1: 100 0 4 0 22 7 "  report the configuration of each store";
    "1864C0000011200F19000701534349202020202000000002" => 1: 100 0 17 0 25 7 "  resize stores" "    1.1 SCI size 2";
    "1864C000000D200F1A0007015343492020202020" => 1: 100 0 13 0 26 7 "  change to circular" "    1.1 SCI";
    "1864C000000D200F1B0007015343492020202020" => 1: 100 0 13 0 27 7 "  change to bounded" "    1.1 SCI";
    "1864C000000E200F1C000701534349202020202003" => 1: 100 0 14 0 28 7 "  change the channel" "    1.1 SCI channel 3";
};

// Fields that are not allowed, as their numbers or digits: an identifier of small letters, one that is not padded with
// spaces, a type 2.
static NOT_ALLOWED: [(&str, &str); 2] = telecommands! {
    "1864C0000015200F01000702736369202020202053434900000000AB" =>
        1: 100 0 21 0 1 7 "  enable storage" "    1.1 7363692020202020" "    1.2 53434900000000AB";
    "1864C0000013200F1400070153434920202020200000000002FF" =>
        1: 100 0 19 0 20 7 "  create stores" "    1.1 SCI size 0 type 2 channel 255";
};

// A report of each subtype, and reports without an entry: digits, and the lines on them.
static REPORTS: [(&str, &str); 7] = reports! {
    "0864C0000020200F06000000070000000000000009534349202020202000020064031907FE0100" =>
        1: 100 0 32 0 6 0 7 9 "  storage control of SCI" "    apid 100 service 3 subtype 25"
            "    apid 2046 service 1 subtype 0";
    "0864C0000018200F0600010007000000000000000953434920202020200000" =>
        1: 100 0 24 0 6 1 7 9 "  storage control of SCI";
    "0864C002002B2F0F0DFFFFFFFEFFFFFFFFFFFFFFFF0153434920202020200000000000000001000000000000000500000004" =>
        1: 100 2 43 15 13 65535 65534 18446744073709551615 "  content" "    SCI oldest 1 newest 5 held 4";
    "0864C0010023200F130000000700000000000000020253434920202020200100484B2020202020200001" =>
        1: 100 1 35 0 19 0 7 2 "  status" "    SCI storage on retrieval off" "    HK storage off retrieval on";
    "0864C0010019200F130000000700000000000000020153434920202020200205" =>
        1: 100 1 25 0 19 0 7 2 "  status" "    SCI storage 2 retrieval 5";
    "0864C000002B200F17000000070000000000000001025343492020202020000000040100484B202020202020000000020001" =>
        1: 100 0 43 0 23 0 7 1 "  configuration" "    SCI size 4 type bounded channel 0"
            "    HK size 2 type circular channel 1";
    "0864C001000F200F1700000007000000000000000200" => 1: 100 1 15 0 23 0 7 2 "  configuration";
};

#[test]
fn what_is_read_is_told_in_words(rt: HostRuntime) {
    each_reads(&rt, Outcome::AllDone, &NO_DIGITS);
    each_reads(&rt, Outcome::AllDone, &SPELLED);
    each_reads(&rt, Outcome::AllDone, &REQUESTS);
    each_reads(&rt, Outcome::AllDone, &NOT_ALLOWED);
    each_reads(&rt, Outcome::AllDone, &REPORTS);
}

#[test]
fn what_is_refused_is_told_with_its_refusal(rt: HostRuntime) {
    each_reads(&rt, Outcome::SomeRefused, &REFUSED);
    each_reads(&rt, Outcome::SomeRefused, &OTHER_LINES);
    each_reads(&rt, Outcome::SomeRefused, &NOT_OF_THE_SERVICE);
    each_reads(&rt, Outcome::SomeRefused, &TWO_LINES);
}
