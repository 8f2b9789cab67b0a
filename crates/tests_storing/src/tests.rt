//! Tests of the crates that store packets, of what all crates share, and of the words for people.

// Some octets are refused as a request or report with this fault.
macro_rules! refuses {
    ($rt:expr, $octets:expr, $message:ident, $fault:expr) => {{
        let packet = packet_of($rt, $octets);
        let refusal = $message::read($rt.alloc(), &packet).expect_err($rt, "a refusal");
        holds($rt, refusal == $fault, "the refusal");
    }};
}

// The octets of packets, by the fault with which each is refused.
macro_rules! refused {
    ($($fault:ident: $($octets:expr),+;)+) => { [$($(($octets, Fault::$fault)),+),+] };
}

// Tables of cases: what each row gives, and what is wanted.
macro_rules! wanted {
    ($($($given:expr),+ => $want:expr;)*) => { [$(($($given),+, $want)),*] };
}

// A struct by its fields, and tables of structs: the fields of each row.
macro_rules! row {
    ($kind:ident; $($field:ident $value:expr),+) => { $kind { $($field: $value),+ } };
}

macro_rules! table {
    ($kind:ident; $($($field:ident $value:expr),+;)+) => { [$(row!($kind; $($field $value),+)),+] };
}

mod bases;
mod controls;
mod hinting;
mod packets;
mod reports;
mod requests;
mod samples;
mod stores;
mod words;
