//! The shortest caller of each crate that can be used by itself, as docs/LIBRARY.md shows them.
#![tactic(auto)]

pub mod checker;
pub mod data;
pub mod ends;
pub mod flight;
pub mod flow;
pub mod halt;
pub mod instrument;
pub mod memory;
pub mod packets;
pub mod radio;
pub mod requests;
pub mod rest;
pub mod service;
pub mod stores;
