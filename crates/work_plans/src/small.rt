//! A small run, whose answers can be worked out by hand.

use crate::propose;
use crate::study::{Answers, study};
use anyhow::Result;
use mm_chart::table_bytes;
use mm_cut::check_bytes;
use mm_planner::plan_bytes;
use std::alloc::Global;

const SETUP: &[u8] = b"[[store]]\nid = \"SCI\"\nsize = 4\ntype = \"bounded\"\nchannel = 0\n";

// Ten blocks come, four can leave and four can stay.
const FORECAST: &[u8] = b"step,window,SCI\n1,2,3\n2,2,3\n3,0,4\n";

const PROBLEMS: u32 = 16;

/// The verdict and the table of a tiny problem, and how many of eight plans are shown to lose least, which are all.
pub fn small(alloc: Global) -> Result<String> {
    let plan = plan_bytes(alloc, SETUP, FORECAST)?;
    let (_, mut text) = check_bytes(alloc, SETUP, FORECAST, &plan)?;
    text.extend_from_slice(&table_bytes(alloc, SETUP, FORECAST, &plan)?)?;
    let text = std::str::from_utf8(&text)?;
    let Answers { checked, least, .. } = study(alloc, 1, PROBLEMS)?;
    let proposed = propose::counted(alloc, PROBLEMS, 1)?;
    let by_kind = propose::counted_by_kind(alloc, PROBLEMS, 1)?;
    Ok(format!(in alloc;
        "{text}{least} of {checked} plans are shown to lose least\n{proposed}\n{by_kind}"
    )?)
}
