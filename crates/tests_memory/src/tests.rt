//! Tests of mm_memory and mm_ask.

// Tables of cases: what each row gives, and what is wanted.
macro_rules! wanted {
    ($($($given:expr),+ => $want:expr;)*) => { [$(($($given),+, $want)),*] };
}

// Tables of structs: the fields of each row.
macro_rules! table {
    ($kind:ident; $($($field:ident $value:expr),+;)+) => { [$($kind { $($field: $value),+ }),+] };
}

mod lines;
mod memories;
mod reads;
mod samples;
mod spares;
