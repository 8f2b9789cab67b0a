//! What passes are called.
ghost use Rattle.std.specs.Prelude.{◌≡◌, map, string_bytes, IfOk};
ghost use Rattle.mm_mission_plan.specs.Names.{comes_before, is_counted, number_of, own_name, name_of, station_of};
ghost use Rattle.mm_mission_plan.specs.Names.{AreNames};

use mm_base::NoMemory;
use mm_mission_sheet::PassName;
use mm_mission_text::Pass;
use std::alloc::Global;

// Whether a pass in a row comes before another one in a row: by begin, then by end, and then by row.
fn comes_before(row: usize, pass: &Pass, other_row: usize, other: &Pass) -> bool
    ensures { result ≡ comes_before row pass.now other_row other.now }
{
    pass.begin < other.begin
        || pass.begin == other.begin
            && (pass.end < other.end || pass.end == other.end && row < other_row)
}

// Whether another pass is over the station of a pass in a row, and comes no later.
fn is_counted(row: usize, pass: &Pass, other_row: usize, other: &Pass) -> bool
    ensures { result ≡ is_counted row pass.now (other_row, other.now) }
{
    pass.station.as_str() == other.station.as_str() && !comes_before(row, pass, other_row, other)
}

// The how manieth pass over its station a pass in a row is.
#[tactic(auto, unfolding(crate::specs::Names::number_of))]
fn number_of(passes: &[Pass], row: usize, pass: &Pass) -> usize
    ensures { result ≡ number_of passes.now row pass.now }
{
    let mut number = 0;
    'passes: for (other_row, other) in passes.iter().enumerate() {
        if is_counted(row, pass, other_row, other) {
            number += 1;
        }
    }
    number
}

// The name of a pass in a row: its own, or that of its station and a number.
fn own_name(alloc: Global, passes: &[Pass], row: usize, pass: &Pass) -> Result<String, NoMemory>
    ensures { IfOk result (λ name. string_bytes name ≡ own_name passes.now row pass.now) }
{
    match &pass.name {
        Some(name) => Ok(String::from_str(alloc, name.as_str())?),
        None => {
            let station = pass.station.as_str();
            let number = number_of(passes, row, pass);
            Ok(format!(in alloc; "{station} {number}")?)
        }
    }
}

// The name of the pass in a row, if there is one.
fn name_of(alloc: Global, passes: &[Pass], row: usize) -> Result<String, NoMemory>
    ensures { IfOk result (λ name. string_bytes name ≡ name_of passes.now row) }
{
    match passes.get(row) {
        Some(pass) => own_name(alloc, passes, row, pass),
        None => Ok(String::new(alloc)),
    }
}

// The names of the passes in these rows.
pub(crate) fn names_of(
    alloc: Global,
    passes: &[Pass],
    rows: &[usize],
) -> Result<Vec<String>, NoMemory>
    ensures { IfOk result (λ names. map string_bytes names.items ≡ map (name_of passes.now) rows.now) }
{
    let mut names = Vec::new(alloc);
    'rows: for row in rows {
        let name = name_of(alloc, passes, *row)?;
        names.push(name)?;
    }
    Ok(names)
}

// The station of the pass in a row, if there is one.
fn station_of(passes: &[Pass], row: usize) -> &str
    ensures { result.now ≡ station_of passes.now row }
{
    match passes.get(row) {
        Some(pass) => pass.station.as_str(),
        None => "",
    }
}

// The stations and the names of the passes in these rows.
pub(crate) fn pass_names<'a>(
    alloc: Global,
    passes: &'a [Pass],
    rows: &[usize],
    names: &'a [String],
) -> Result<Vec<PassName<'a>>, NoMemory>
    requires { map string_bytes names.now ≡ map (name_of passes.now) rows.now }
    ensures { IfOk result (λ found. AreNames passes.now rows.now found.items) }
{
    let mut found = Vec::new(alloc);
    'rows: for (place, row) in rows.iter().enumerate() {
        found.push(PassName {
            station: station_of(passes, *row),
            name: names[place].as_str(),
        })?;
    }
    Ok(found)
}
