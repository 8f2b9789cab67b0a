//! A memory with a problem and a plan that is carried out.

use crate::bursts::Bursts;
use crate::meter::{meters, octets_of};
use anyhow::Result;
use mm_base::StoreId;
use mm_dump::{SendFailed, may_fail};
use mm_exec::carry_out;
use mm_memory::Memory;
use mm_plan::Sheet;
use mm_problem::{Problem, Setup};
use mm_report::Report;
use std::alloc::Global;
use std::sync::Wait;
use std::thread::Threads;

/// A memory, and a problem with a plan that is carried out on it.
#[derive(Drop)]
pub struct Mission {
    pub memory: Memory,
    problem: Problem,
    sheet: Sheet,
}

/// What a run tells: its report, and the octets that its links sent.
#[derive(Drop)]
pub struct Carried {
    pub report: Report,
    pub octets: u64,
}

impl Mission {
    /// The mission of these texts.
    pub fn read(alloc: Global, setup: &[u8], forecast: &[u8], plan: &[u8]) -> Result<Mission> {
        let setup = Setup::read(alloc, setup)?;
        Ok(Mission {
            memory: Memory::of_setup(alloc, &setup)?,
            problem: Problem::read(alloc, &setup, forecast)?,
            sheet: Sheet::parse(alloc, plan)?,
        })
    }

    /// Carries out the plan: these sources give packets, which are dumped over this many links.
    pub fn carry_out<R: Threads + Wait + Sync>(
        &mut self,
        rt: &R,
        alloc: Global,
        sources: Vec<Bursts>,
        links: u32,
    ) -> Result<Carried> {
        let links = meters(alloc, links)?;
        if !may_fail(&links) {
            return Err(SendFailed.into());
        }
        let (memory, plan) = (&mut self.memory, self.sheet.plan());
        match carry_out(rt, alloc, memory, &self.problem, plan, sources, links, 0) {
            Err(halted) => Err(halted.cause.into()),
            Ok(ended) => Ok(Carried {
                octets: octets_of(&ended.links),
                report: ended.report,
            }),
        }
    }
}

/// Deletes all that the stores S0, S1, .. hold, of which there are this many.
pub fn delete(alloc: Global, memory: &mut Memory, stores: u32) -> Result<()> {
    for store in 0..stores {
        let name = format!(in alloc; "S{store}")?;
        if let Ok(id) = StoreId::of_text(name.as_bytes()) {
            if let Some(state) = memory.state_mut(&id) {
                let _deleted = state.delete(u64::MAX);
            }
        }
    }
    Ok(())
}
