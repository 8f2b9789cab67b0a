//! The worked examples, each through the whole program, and the program's answers to files and writers that fail.

// Tables of cases: what each row gives, and what is wanted.
macro_rules! wanted {
    ($($($given:expr),+ => $want:expr;)*) => { [$(($($given),+, $want)),*] };
}

// Tables of structs: the fields of each row.
macro_rules! table {
    ($kind:ident; $($($field:ident $value:expr),+;)+) => { [$($kind { $($field: $value),+ }),+] };
}

// The same, where a row has the other fields of one with a name.
macro_rules! based {
    ($kind:ident; $($base:ident: $($field:ident $value:expr),+;)+) => {
        [$($kind { $($field: $value,)+ ..$base }),+]
    };
}

// Lines, each with its line feed.
macro_rules! lines {
    ($($line:literal),+) => { [$(concat!($line, "\n")),+] };
}

mod advising;
mod asking;
mod charting;
mod checking;
mod failing;
mod failing_system;
mod flags;
mod flying;
mod hinting;
mod in_order;
mod inputs;
mod keeping;
mod kinds;
mod memory;
mod missions;
mod planning;
mod progressing;
mod reading;
mod refusing;
mod resting;
mod samples;
mod storing;
mod streams;
mod tabling;
mod weighing;
mod words;
