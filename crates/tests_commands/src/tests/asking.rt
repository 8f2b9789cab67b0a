//! What `ask` prints.

use crate::tests::samples::{SCI, prints, refuses};

// Requests for the store SCI, what is printed for them, and the status.
struct Asked {
    example: &'static str,
    requests: &'static str,
    prints: &'static str,
    status: u8,
}

static ASKED: [Asked; 12] = table! { Asked;
    example "no_request", requests "", prints "", status 0;
    example "enable_one_store", requests "1864C000000D200F010000015343492020202020\n",
        prints "1.1 done\n", status 0;
    example "enable_one_store, its last octet cut",
        requests "1864C000000D200F0100000153434920202020\n", prints "1 refused 1 Short\n", status 1;
    example "create_two_stores",
        requests "1864C0000021200F140000025343492020202020000000040100484B202020202020000000020001\n",
        prints "1.1 refused 24 Exists\n1.2 done\n", status 1;
    example "retrieval_makes_busy",
        requests "\
            1864C000001D200F090000015343492020202020000000000000000100000000000000FF\n\
            1864C0000015200F0B000001534349202020202000000000000000FF\n1864C000000D200F110000015343492020202020\n\
            1864C0000015200F0B000001534349202020202000000000000000FF\n",
        prints "1.1 done\n2.1 refused 18 Busy\n3.1 done\n4.1 done\n", status 1;
    // The storage is on, and then it is turned off. The route is gone, also for a new store with the identifier.
    example "delete_store_with_routes",
        requests "\
            1864C000000D200F150000015343492020202020\n1864C000000D200F020000015343492020202020\n\
            1864C000000D200F150000015343492020202020\n1864C000000D200F010000015343492020202020\n\
            1864C0000013200F140000015343492020202020000000040100\n1864C000000D200F050000015343492020202020\n",
        prints "\
            1.1 refused 26 StorageOn\n2.1 done\n3.1 done\n4.1 refused 23 NoSuchStore\n5.1 done\n6.1 done\n\
            6 report 0864C0000018200F0600000000000000000000000653434920202020200000\n",
        status 1;
    example "delete_store_with_routes, a store of no size",
        requests "1864C0000013200F14000001484B202020202020000000000001",
        prints "1.1 refused 48 BadSize\n", status 1;
    // With the store of the setup there are 16 after the fifteenth.
    example "delete_store_with_routes, a seventeenth store",
        requests "1864C00000E5200F14000010\
            41202020202020200000000100004220202020202020000000010000\
            43202020202020200000000100004420202020202020000000010000\
            45202020202020200000000100004620202020202020000000010000\
            47202020202020200000000100004820202020202020000000010000\
            49202020202020200000000100004A20202020202020000000010000\
            4B202020202020200000000100004C20202020202020000000010000\
            4D202020202020200000000100004E20202020202020000000010000\
            4F202020202020200000000100005020202020202020000000010000\n",
        prints "\
            1.1 done\n1.2 done\n1.3 done\n1.4 done\n1.5 done\n1.6 done\n1.7 done\n1.8 done\n1.9 done\n1.10 done\n\
            1.11 done\n1.12 done\n1.13 done\n1.14 done\n1.15 done\n1.16 refused 25 TooManyStores\n",
        status 1;
    example "delete_store_with_routes, an identifier in small letters beside a good one",
        requests "1864C0000015200F0100000273636920202020205343492020202020",
        prints "1.1 refused 15 BadId\n1.2 done\n", status 1;
    example "configuration_report", requests "1864C0000004200F160000",
        prints "1 report 0864C000001D200F17000000000000000000000001015343492020202020000000040100\n",
        status 0;
    example "request_lines_refused",
        requests "\
            1864C00000042011010000\n1864C0000004200F0E0000\n1864C0000004200F010000\n1864C0000005200F12000000\n\
            1864C0000005200F01000000\n186\n1864C0000004200F16000000\n\
            1864C0000013200F14000001484B202020202020000000020200\n",
        prints "\
            1 refused 12 NotSt15\n2 refused 13 UnknownSubtype\n3 refused 14 CountMismatch\n\
            4 refused 14 CountMismatch\n5 refused 14 CountMismatch\n6 refused 49 HexLine\n7 refused 49 HexLine\n\
            8.1 refused 16 BadEnum\n",
        status 1;
    example "channel_of_a_store_changed",
        requests "\
            1864C000000E200F1C000001534349202020202005\n1864C000000D200F020000015343492020202020\n\
            1864C000000E200F1C000001534349202020202005\n1864C0000004200F160000\n",
        prints "\
            1.1 refused 26 StorageOn\n2.1 done\n3.1 done\n\
            4 report 0864C000001D200F17000000000000000000000004015343492020202020000000040105\n",
        status 1;
};

#[test]
fn answers_to_requests(rt: HostRuntime) {
    for row in &ASKED {
        let script = ["ask S R\n=== S\n", SCI, "=== R\n", row.requests];
        prints(&rt, row.example, &script, row.prints, row.status);
    }
}

static REFUSED: [(&str, &str); 3] = [
    ("ask S R\n=== S\n[[store\n=== R\n", "refused 27 SetupText\n"),
    ("ask S R\n=== S\n[[store\n", "refused 50 NotRead name R\n"),
    ("ask S R\n=== R\n", "refused 50 NotRead name S\n"),
];

#[test]
fn files_of_ask_refused(rt: HostRuntime) {
    refuses(&rt, &REFUSED);
}
