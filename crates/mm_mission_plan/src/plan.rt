//! The plan of a mission.
ghost use Rattle.std.specs.Prelude.{IfOk};
ghost use Rattle.mm_base.specs.Reading.{IfRefused};
ghost use Rattle.mm_mission_plan.specs.Names.{AreNames};
ghost use Rattle.mm_mission_plan.specs.Plans.{PlansRows, PlansMission, IsFaultOf, PlansText, IsFaultOfText};
ghost use Rattle.mm_mission_plan.specs.Rows.{texts_of};
ghost use Rattle.mm_mission_plan.specs.Units.{IsInUnit, IsUnitFault};
ghost use Rattle.mm_mission_plan.specs.declared.fault.Fault.TheVariants as fault;

use crate::fault::Fault;
use crate::names::{names_of, pass_names};
use crate::rows::{Tables, all_rows};
use crate::texts::{amounts_of, problem_texts};
use crate::unit::{InUnit, in_unit};
use mm_base::NoMemory;
use mm_mission::{PacketStep, in_packets, timeline};
use mm_mission_exact::Rows;
use mm_mission_sheet::laws::{plans_fit, timelines_fit};
use mm_mission_sheet::{PassName, sheet_csv, timeline_csv};
use mm_mission_text::{MissionText, mission};
use mm_plan::loss_of;
use mm_planner::print_plan;
use std::alloc::Global;

/// A mission that was planned, and what is printed of it.
#[derive(Debug, Drop)]
pub struct PlannedMission {
    /// How many of the longest packets are counted as one in setup, forecast and plan.
    pub unit: u64,
    /// What the plan loses, in units, which is also its bound: no plan loses less.
    pub loss: u64,
    /// What each step does to each store, in packets: store by store, and of a store step by step.
    pub steps: Vec<PacketStep>,
    pub setup: Vec<u8>,
    pub forecast: Vec<u8>,
    pub plan: Vec<u8>,
    /// What each pass does to each store, in UTC (CSV).
    pub sheet: Vec<u8>,
    /// When what is sent is sent, in UTC (CSV).
    pub timeline: Vec<u8>,
}

// The plan of a mission in its unit, with passes that have these names.
fn planned(
    alloc: Global,
    rows: &Rows<'_>,
    found: &InUnit,
    names: &[PassName<'_>],
) -> Result<PlannedMission, NoMemory>
    requires unit { IsInUnit rows.now found.now.unit found.now.tried }
    requires names { AreNames rows.now.passes.now found.now.tried.flown.places.items names.now }
    ensures { IfOk result (PlansRows rows.now) }
{
    let tried = &found.tried;
    let mission = &tried.flown.mission;
    let edges = tried.edges.as_slice();
    // Its numbers are within their ranges, as `passes` ensures.
    let _passes = mission.passes();
    let texts = problem_texts(alloc, mission, edges, &tried.problem)?;
    let printed = print_plan(alloc, &tried.problem)?;
    let plan = printed.sheet.plan();
    let amounts = amounts_of(alloc, &tried.problem, plan)?;
    let steps = in_packets(alloc, mission, edges, &amounts)?;
    let dumps = timeline(alloc, mission, edges, &steps)?;
    timelines_fit();
    plans_fit();
    let begin = tried.flown.begin;
    let timeline = timeline_csv(alloc, begin, mission, names, &dumps)?;
    let sheet = sheet_csv(alloc, begin, mission, names, edges, &steps)?;
    Ok(PlannedMission {
        unit: found.unit,
        loss: loss_of(&tried.problem, plan),
        steps,
        setup: texts.setup,
        forecast: texts.forecast,
        plan: printed.text,
        sheet,
        timeline,
    })
}

// The plan of these rows.
fn plan_rows(alloc: Global, rows: &Rows<'_>) -> Result<PlannedMission, Fault>
    ensures planned { IfOk result (PlansRows rows.now) }
    ensures refused { IfRefused fault.NoMemory result (IsUnitFault rows.now) }
{
    let found = in_unit(alloc, rows)?;
    let places = found.tried.flown.places.as_slice();
    let names = names_of(alloc, rows.passes, places)?;
    let names = pass_names(alloc, rows.passes, places, &names)?;
    Ok(planned(alloc, rows, &found, &names)?)
}

/// A plan of a mission that loses least, from the mission as its text says it and the texts of the CSV files that it
/// names to what is printed. Otherwise the first fault, in the order of the faults.
///
/// The unit is the mission's own, if it can be planned in it. Otherwise it is 1, or no size, window, limit or arrival
/// is above 1,000,000 while one is in the next lower unit.
pub fn plan_mission(
    alloc: Global,
    said: MissionText,
    tables: &Tables<'_>,
) -> Result<PlannedMission, Fault>
    ensures planned { IfOk result (PlansMission said (texts_of tables.now)) }
    ensures refused { IfRefused fault.NoMemory result (IsFaultOf said (texts_of tables.now)) }
{
    let all = all_rows(alloc, said, tables)?;
    let rows = all.lent();
    plan_rows(alloc, &rows)
}

/// The same from the text of the mission (TOML), whose own fault comes first.
pub fn plan_mission_text(
    alloc: Global,
    text: &[u8],
    tables: &Tables<'_>,
) -> Result<PlannedMission, Fault>
    ensures planned { IfOk result (PlansText text.now (texts_of tables.now)) }
    ensures refused { IfRefused fault.NoMemory result (IsFaultOfText text.now (texts_of tables.now)) }
{
    let said = mission(alloc, text)?;
    plan_mission(alloc, said, tables)
}
