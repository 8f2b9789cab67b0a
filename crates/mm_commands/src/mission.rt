//! A mission is planned: its tables are read after it, and a part of its plan is printed.
ghost use Rattle.std.specs.Prelude.{◌≡◌, ◌≢◌, ◌∷◌, ℕ, List, [], Option, IfOk, IfErr, IfSome, IsFalse, Ok};
ghost use Rattle.std.specs.Prelude.{option_map, string_bytes};
ghost use Rattle.std.specs.Io.KnownBytes.{Appends};
ghost use Rattle.mm_command_line.specs.Names.{names_in};
ghost use Rattle.mm_command_line.specs.declared.task.Task.TheVariants.{Mission};
ghost use Rattle.mm_files.specs.Contents.{Contents, Reading, WereRead, reading, seen};
ghost use Rattle.mm_mission_plan.specs.Faults.{refusal_of};
ghost use Rattle.mm_mission_text.specs.Missions.{mission_in};
ghost use Rattle.mm_commands.specs.Answers.{Gives};
ghost use Rattle.mm_commands.specs.Faults.{refused_line};
ghost use Rattle.mm_commands.specs.Missions.{part_text, told_fault};
ghost use Rattle.mm_commands.specs.Reading.{readings_of};
ghost use Rattle.mm_commands.specs.Refusing.{Settles};
ghost use Rattle.mm_commands.specs.Streams.{file_of};
ghost use Rattle.mm_commands.specs.Tables.{AreApart, AreNames, readings_at};
ghost use Rattle.mm_commands.specs.declared.status.Status.TheVariants.{BadCommandLine, Done, Refused};

use crate::fault::Fault;
use crate::status::{Status, Unwritten};
use crate::tables::{MissionTables, ReadTables, TableNames};
use crate::tasks::{refuse, store_unless};
use crate::texts::TaskTexts;
use mm_base::Refusal;
use mm_command_line::{MissionPart, Task};
use mm_files::{Files, is_stream};
use mm_mission_plan::{PlannedMission, plan_mission};
use mm_mission_text::{MissionText, mission};
use std::alloc::Global;
use std::fmt;
use std::io::{self, Write};

/// A mission that is to be planned, by the name of its text: what is printed of it, into which file.
#[derive(Clone, Copy)]
pub(crate) struct AskedMission<'a> {
    pub(crate) name: &'a str,
    pub(crate) part: MissionPart,
    pub(crate) output: Option<&'a str>,
}

impl<'a> AskedMission<'a> {
    fn task(self) -> Task<'a>
        ensures { result ≡ Mission self.entry.name self.entry.part self.entry.output }
    {
        Task::Mission {
            mission: self.name,
            part: self.part,
            output: self.output,
        }
    }
}

// The text of a part of a planned mission.
fn part_text(part: MissionPart, planned: &PlannedMission) -> &[u8]
    ensures { result.now ≡ part_text part planned.now }
{
    match part {
        MissionPart::Sheet => &planned.sheet,
        MissionPart::Setup => &planned.setup,
        MissionPart::Forecast => &planned.forecast,
        MissionPart::Plan => &planned.plan,
        MissionPart::Timeline => &planned.timeline,
    }
}

// Which refusal a fault of a mission is.
fn refusal_of(fault: &mm_mission_plan::Fault) -> Refusal
    ensures { result ≡ refusal_of fault.now }
{
    match fault {
        mm_mission_plan::Fault::NoMemory => Refusal::NoMemory,
        mm_mission_plan::Fault::Text(_) | mm_mission_plan::Fault::Table { .. } => {
            Refusal::MissionText
        }
        mm_mission_plan::Fault::NotGiven { .. } | mm_mission_plan::Fault::NotNamed { .. } => {
            Refusal::MissionTable
        }
        mm_mission_plan::Fault::Exact(_) | mm_mission_plan::Fault::Mission(_) =>
            Refusal::MissionRow,
    }
}

// The fault that is told of a mission.
fn told_fault(fault: &mm_mission_plan::Fault) -> Fault<'static>
    ensures { result ≡ told_fault fault.now }
{
    match fault {
        mm_mission_plan::Fault::NoMemory => Fault::NoMemory,
        fault => Fault::Mission(refusal_of(fault)),
    }
}

// So many of something.
#[derive(Clone, Copy)]
struct Counted(u64, &'static str);

impl fmt::Display for Counted {
    fn fmt<W: fmt::Write>(&self, f: &mut fmt::Formatter<W>) -> fmt::Result {
        let Counted(count, what) = *self;
        match count {
            1 => write!(f, "1 {what}"),
            _ => write!(f, "{count} {what}s"),
        }
    }
}

// Says how many packets a plan loses, and that no plan loses fewer.
fn tell_loss<E: Write>(planned: &PlannedMission, err: &mut E) -> io::Result<()> {
    let mut lost: u128 = 0;
    for step in &planned.steps {
        lost = lost.saturating_add(step.lost);
    }
    let (loss, unit) = (planned.loss, planned.unit);
    match lost {
        0 => return writeln!(err, "note: no packet will be lost"),
        1 => write!(err, "note: 1 packet will be lost")?,
        _ => write!(err, "note: {lost} packets will be lost")?,
    }
    if unit == 1 && lost == u128::from(loss) {
        return writeln!(err, "; no plan loses fewer");
    }
    let (units, of) = (Counted(loss, "unit"), Counted(unit, "packet"));
    writeln!(
        err,
        ", counted as {units} of {of}, of the longest that there are; no plan loses fewer units"
    )
}

// Says why a mission is refused, where that is and what is found there.
fn refuse_mission<W: Write, E: Write>(
    asked: AskedMission<'_>,
    fault: mm_mission_plan::Fault,
    out: &mut W,
    err: &mut E,
) -> Result<Status, Unwritten>
    ensures line { IfOk result (λ status. Appends (W.contents out.old) (W.contents out.new)
        (refused_line (told_fault fault))) }
    ensures status { IfOk result (λ status. status ≡ Refused) }
{
    let status = refuse(Some(asked.task()), told_fault(&fault), None, out, err)?;
    if !matches!(&fault, mm_mission_plan::Fault::NoMemory) {
        writeln!(err, "hint: {fault}").map_err(|_| Unwritten::Messages)?;
    }
    Ok(status)
}

// Whether the file of this name is known to be that of a table, if the mission names one.
fn is_table<F: Files>(files: &F, table: &Option<String>, name: &str) -> bool
    ensures other { IsFalse result → IfSome (option_map string_bytes table.now) (λ table. table ≢ name.now) }
{
    match table {
        Some(table) => files.is_same_file(table.as_str(), name),
        None => false,
    }
}

// Whether the file of this name is known to be the mission's, or that of one of its tables.
fn is_among<F: Files>(files: &F, mission: &str, tables: &TableNames, name: &str) -> bool
    ensures others { IsFalse result → AreApart mission.now tables.now name.now }
{
    files.is_same_file(mission, name)
        || is_table(files, &tables.stores, name)
        || is_table(files, &tables.stations, name)
        || is_table(files, &tables.passes, name)
        || is_table(files, &tables.observations, name)
}

// Gives the part that is asked of a planned mission to its writer or its file, and says what the plan loses. Into a
// file it goes last: where a write fails, no file is changed.
fn give<F: Files, W: Write, E: Write>(
    alloc: Global,
    asked: AskedMission<'_>,
    planned: &PlannedMission,
    tables: &TableNames,
    files: &mut F,
    out: &mut W,
    err: &mut E,
) -> Result<Status, Unwritten>
    ensures given { IfOk result (λ status. Gives (file_of F.has_streams asked.entry.output)
        (part_text asked.entry.part planned.now)
        (F.content files.old) (F.content files.new) (W.contents out.old) (W.contents out.new)) }
    ensures others { IfOk result (λ status. IfSome (file_of F.has_streams asked.entry.output)
        (λ name. AreApart asked.entry.name.now tables.now name.now)) }
    ensures status { IfOk result (λ status. status ≡ Done) }
    ensures kept { IfErr result (λ _. F.content files.new ≡ F.content files.old) }
    ensures unread { F.readings files.new ≡ F.readings files.old }
{
    let text = part_text(asked.part, planned);
    match asked.output {
        Some(name) if !is_stream(F::has_streams(), name) => {
            tell_loss(planned, err).map_err(|_| Unwritten::Messages)?;
            let is_read = is_among(files, asked.name, tables, name);
            store_unless(alloc, files, is_read, name, text, err)?;
        }
        _ => {
            out.write_all(text).map_err(|_| Unwritten::Output)?;
            tell_loss(planned, err).map_err(|_| Unwritten::Messages)?;
        }
    }
    Ok(Status::Done)
}

// Plans a mission whose tables were read.
fn plan_read<F: Files, W: Write, E: Write>(
    alloc: Global,
    asked: AskedMission<'_>,
    said: MissionText,
    tables: ReadTables<'_>,
    files: &mut F,
    out: &mut W,
    err: &mut E,
) -> Result<Status, Unwritten>
    requires names { AreNames asked.name.now said tables.names.now }
    ensures prints { (contents : Contents) (readings : Option (List Reading)) (text : List ℕ) → mission_in text ≡ Ok said
        → F.content files.old ≡ contents
        → WereRead contents readings (F.readings files.old)
        (reading asked.entry.name.now text ∷ readings_at tables.entry.names.now tables.entry.texts.now)
        → IfOk result (λ status. Settles (seen F.has_streams contents readings)
        (seen F.has_streams (F.content files.new) (F.readings files.new))
        (Mission asked.entry.name asked.entry.part asked.entry.output) status
        (W.contents out.old) (W.contents out.new)) }
    ensures status { IfOk result (λ status. status ≢ BadCommandLine) }
    ensures kept { IfErr result (λ _. F.content files.new ≡ F.content files.old) }
{
    match plan_mission(alloc, said, &tables.given()) {
        Ok(planned) => give(alloc, asked, &planned, tables.names, files, out, err),
        Err(fault) => refuse_mission(asked, fault, out, err),
    }
}

// Reads the tables of a mission, and plans it.
fn plan_said<F: Files, W: Write, E: Write>(
    alloc: Global,
    asked: AskedMission<'_>,
    said: MissionText,
    files: &mut F,
    out: &mut W,
    err: &mut E,
) -> Result<Status, Unwritten>
    ensures prints { (contents : Contents) (readings : Option (List Reading)) (text : List ℕ) → mission_in text ≡ Ok said
        → F.content files.old ≡ contents
        → WereRead contents readings (F.readings files.old) (reading asked.entry.name.now text ∷ [])
        → IfOk result (λ status. Settles (seen F.has_streams contents readings)
        (seen F.has_streams (F.content files.new) (F.readings files.new))
        (Mission asked.entry.name asked.entry.part asked.entry.output) status
        (W.contents out.old) (W.contents out.new)) }
    ensures status { IfOk result (λ status. status ≢ BadCommandLine) }
    ensures kept { IfErr result (λ _. F.content files.new ≡ F.content files.old) }
{
    let Ok(names) = TableNames::of(alloc, asked.name, &said) else {
        return refuse(Some(asked.task()), Fault::NoMemory, None, out, err);
    };
    match MissionTables::read(alloc, files, &names) {
        Ok(texts) => {
            let tables = ReadTables {
                names: &names,
                texts: &texts,
            };
            plan_read(alloc, asked, said, tables, files, out, err)
        }
        Err(fault) => refuse(Some(asked.task()), fault, None, out, err),
    }
}

// Plans a mission whose text was read.
fn plan_text<F: Files, W: Write, E: Write>(
    alloc: Global,
    asked: AskedMission<'_>,
    texts: &TaskTexts,
    files: &mut F,
    out: &mut W,
    err: &mut E,
) -> Result<Status, Unwritten>
    ensures prints { (contents : Contents) (readings : Option (List Reading)) → F.content files.old ≡ contents
        → WereRead contents readings (F.readings files.old)
        (readings_of (names_in (Mission asked.entry.name asked.entry.part asked.entry.output)) texts.now)
        → IfOk result (λ status. Settles (seen F.has_streams contents readings)
        (seen F.has_streams (F.content files.new) (F.readings files.new))
        (Mission asked.entry.name asked.entry.part asked.entry.output) status
        (W.contents out.old) (W.contents out.new)) }
    ensures status { IfOk result (λ status. status ≢ BadCommandLine) }
    ensures kept { IfErr result (λ _. F.content files.new ≡ F.content files.old) }
{
    match mission(alloc, &texts.other) {
        Ok(said) => plan_said(alloc, asked, said, files, out, err),
        Err(fault) => refuse_mission(asked, mm_mission_plan::Fault::from(fault), out, err),
    }
}

/// Plans a mission, and prints the part of it that is asked for: its text is read, and then the tables that it names.
pub(crate) fn do_mission<F: Files, W: Write, E: Write>(
    alloc: Global,
    asked: AskedMission<'_>,
    files: &mut F,
    out: &mut W,
    err: &mut E,
) -> Result<Status, Unwritten>
    ensures prints { IfOk result (λ status. Settles (seen F.has_streams (F.content files.old) (F.readings files.old))
        (seen F.has_streams (F.content files.new) (F.readings files.new))
        (Mission asked.entry.name asked.entry.part asked.entry.output) status
        (W.contents out.old) (W.contents out.new)) }
    ensures status { IfOk result (λ status. status ≢ BadCommandLine) }
    ensures kept { IfErr result (λ _. F.content files.new ≡ F.content files.old) }
{
    let task = asked.task();
    match TaskTexts::read(alloc, files, task.names()) {
        Ok(texts) => plan_text(alloc, asked, &texts, files, out, err),
        Err(fault) => refuse(Some(task), fault, None, out, err),
    }
}
