//! Tests of desks and shared stores, recorders, dump workers, whole runs, and the callers of docs/LIBRARY.md.

// Tables of cases: what each row gives, and what is wanted.
macro_rules! wanted {
    ($($($given:expr),+ => $want:expr;)*) => { [$(($($given),+, $want)),*] };
}

// Tables of structs: the fields of each row.
macro_rules! table {
    ($kind:ident; $($($field:ident $value:expr),+;)+) => { [$($kind { $($field: $value),+ }),+] };
}

mod calls;
mod desks;
mod dumps;
mod first_calls;
mod gates;
mod links;
mod noting;
mod prepared;
mod records;
mod reports;
mod runs;
mod samples;
mod scripts;
mod shared;
mod sources;
mod states;
