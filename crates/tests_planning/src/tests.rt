//! Tests of the crates that read problems, plan dumping, judge plans and draw them.

// Tables of cases: what each row gives, and what is wanted.
macro_rules! wanted {
    ($($($given:expr),+ => $want:expr;)*) => { [$(($($given),+, $want)),*] };
}

// Tables of structs: the fields of each row.
macro_rules! table {
    ($kind:ident; $($($field:ident $value:expr),+;)+) => { [$($kind { $($field: $value),+ }),+] };
}

mod charts;
mod cuts;
mod flows;
mod in_order;
mod kinds;
mod planners;
mod plans;
mod problems;
mod samples;
mod twins;
mod worth_by_step;
mod worths;
