//! The timeline of a plan as a table.
ghost use Rattle.std.specs.Prelude.{◌≡◌, ◌+◌, ◌<◌, ◌++◌, [], length, map, All, IfOk, OnOk};
ghost use Rattle.mm_utc.specs.declared.moment.TheConstants.{MOMENTS};
ghost use Rattle.mm_mission_sheet.specs.Cells.{csv_line, csv_text};
ghost use Rattle.mm_mission_sheet.specs.Rows.{sent_header};
ghost use Rattle.mm_mission_sheet.specs.Timelines.{pass_of, sent_by, dump_key, dump_cells, IsDump, AreOrdered};
ghost use Rattle.mm_mission_sheet.specs.Timelines.{IsTimelineText};

use crate::cell::{Pushed, push_line};
use crate::flight::{Flight, PassName, Sent};
use mm_base::NoMemory;
use mm_mission::{Dump, Mission, Pass, Span};
use mm_utc::Moment;
use std::alloc::{AllocError, Global};

// The pass in which a time lies, if there is one.
fn pass_of(passes: &[Pass], span: &Span) -> Option<usize>
    ensures { result ≡ pass_of passes.now span.now }
{
    passes.iter().position(|pass| pass.span.begin <= span.begin && span.end <= pass.span.end)
}

fn dump_key(dump: &Dump) -> (u64, usize)
    ensures { result ≡ dump_key dump.now }
{
    (dump.span.begin, dump.store)
}

// The dumps by their begins, and then by their stores.
fn ordered(alloc: Global, dumps: &[Dump]) -> Result<Vec<Dump>, AllocError>
    ensures { IfOk result (λ ordered. AreOrdered dumps.now ordered.items) }
{
    let mut ordered = Vec::from_slice(alloc, dumps)?;
    ordered.sort_unstable_by_key(|dump| dump_key(dump));
    Ok(ordered)
}

#[tactic(auto, using(crate::proofs::CellLemmas::no_cells))]
fn push_dump(alloc: Global, text: &mut Vec<u8>, flight: &Flight<'_>, dump: &Dump) -> Pushed
    requires { IsDump flight.now.mission.now dump.now }
    ensures { OnOk result (text.new.items ≡ text.old.items
        ++ csv_line (dump_cells flight.now.begin flight.now.mission.now flight.now.names.now dump.now)) }
{
    let sent = Sent {
        pass: pass_of(flight.mission.passes(), &dump.span),
        span: dump.span,
        store: dump.store,
        packets: u128::from(dump.packets),
    };
    push_line(alloc, text, &flight.sent_cells("", &sent), &[])
}

fn push_dumps(alloc: Global, text: &mut Vec<u8>, flight: &Flight<'_>, dumps: &[Dump]) -> Pushed
    requires { All (IsDump flight.now.mission.now) dumps.now }
    ensures { OnOk result (text.new.items ≡ text.old.items
        ++ csv_text (map (dump_cells flight.now.begin flight.now.mission.now flight.now.names.now) dumps.now)) }
{
    for dump in dumps {
        push_dump(alloc, text, flight, dump)?;
    }
    Ok(())
}

/// The table of dumps, in the order of their begins and then of their stores: comma separated values, a header and a
/// line for each dump. Its rate is rounded down to whole bits a second.
pub fn timeline_csv<'a>(
    alloc: Global,
    begin: Moment,
    mission: &'a Mission,
    names: &'a [PassName<'a>],
    dumps: &[Dump],
) -> Result<Vec<u8>, NoMemory>
    requires names { length names.now ≡ length mission.now.passes }
    requires in_years { begin + mission.now.lasts < MOMENTS }
    requires dumps { All (IsDump mission.now) dumps.now }
    ensures { IfOk result (λ text. IsTimelineText begin mission.now names.now dumps.now text.items) }
{
    let flight = Flight {
        begin,
        mission,
        names,
    };
    let dumps = ordered(alloc, dumps)?;
    let mut text = Vec::new(alloc);
    text.extend_from_slice(b"pass,station,begin,end,store,packets,octets,bit/s\n")?;
    push_dumps(alloc, &mut text, &flight, &dumps)?;
    Ok(text)
}
