//! The texts of a mission, whose stores are S0, S1, ..

use anyhow::Result;
use std::alloc::Global;
use std::io::Write;

/// Writes the table of a store: its number, its type, its size, and how many packets it has at the start.
pub fn write_store(
    text: &mut Vec<u8>,
    store: u32,
    kind: &str,
    size: u32,
    start: u32,
) -> Result<()> {
    Ok(write!(
        text,
        "[[store]]\nid = \"S{store}\"\nsize = {size}\ntype = \"{kind}\"\nchannel = 0\nstart = {start}\n\n"
    )?)
}

/// Writes the table of a route: the telemetry of this APID, service 3, subtype 25 goes to the store of this number.
pub fn write_route(text: &mut Vec<u8>, apid: u32, store: u32) -> Result<()> {
    Ok(write!(
        text,
        "[[route]]\napid = {apid}\nservice = 3\nsubtype = 25\nstore = \"S{store}\"\n\n"
    )?)
}

// Writes the names of the stores, each after this text.
fn write_names(text: &mut Vec<u8>, before: &str, stores: u32) -> Result<()> {
    for store in 0..stores {
        write!(text, "{before}S{store}")?;
    }
    Ok(writeln!(text)?)
}

// Writes the rest of a line: numbers, each after this text.
fn write_row(text: &mut Vec<u8>, before: &str, row: &[u32]) -> Result<()> {
    for number in row {
        write!(text, "{before}{number}")?;
    }
    Ok(writeln!(text)?)
}

/// The forecast of what comes to this many stores in each step, with windows for what is dumped in it.
pub fn forecast(
    alloc: Global,
    stores: u32,
    came: &[Vec<u32>],
    dumped: &[Vec<u32>],
) -> Result<Vec<u8>> {
    let mut text = Vec::from_slice(alloc, b"step,window")?;
    write_names(&mut text, ",", stores)?;
    let mut step = 0u32;
    for (row, amounts) in came.iter().zip(dumped) {
        step = step.saturating_add(1);
        let mut window = 0u32;
        for amount in amounts {
            window = window.saturating_add(*amount);
        }
        write!(text, "{step},{window}")?;
        write_row(&mut text, ",", row)?;
    }
    Ok(text)
}

/// The plan text by which these amounts are dumped in each step.
pub fn plan(alloc: Global, stores: u32, dumped: &[Vec<u32>]) -> Result<Vec<u8>> {
    let mut text = Vec::from_slice(alloc, b"mmplan 1\nstores")?;
    write_names(&mut text, " ", stores)?;
    let mut step = 0u32;
    for row in dumped {
        step = step.saturating_add(1);
        write!(text, "dump {step}")?;
        write_row(&mut text, " ", row)?;
    }
    text.extend_from_slice(b"loss 0\nbound 0\nend\n")?;
    Ok(text)
}
