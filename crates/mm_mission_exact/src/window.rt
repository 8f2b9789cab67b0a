//! When a mission begins and ends.
ghost use Rattle.std.specs.Prelude.{◌≡◌, min, max, map, option_map, ◌<◌, IfOk};
ghost use Rattle.std.specs.List.{fold};
ghost use Rattle.std.specs.Option.{option_or};
ghost use Rattle.mm_mission_exact.specs.Windows.{pass_window, observation_window, widened, extent_of, window_of};
ghost use Rattle.mm_mission_exact.specs.Windows.{part_in, meet};

use crate::fault::Fault;
use crate::rows::Rows;
use mm_mission::Span;
use mm_mission_text::{Observation, Pass};
use mm_utc::Moment;

// From one moment to another.
#[derive(Clone, Copy)]
pub(crate) struct Window {
    pub begin: Moment,
    pub end: Moment,
}

fn earlier(a: Moment, b: Moment) -> Moment
    ensures { result ≡ min a b }
{
    if a < b { a } else { b }
}

fn later(a: Moment, b: Moment) -> Moment
    ensures { result ≡ max a b }
{
    if a < b { b } else { a }
}

// When a pass begins and ends.
pub(crate) fn pass_window(pass: &Pass) -> Window
    ensures { result ≡ pass_window pass.now }
{
    Window {
        begin: pass.begin,
        end: pass.end,
    }
}

pub(crate) fn observation_window(one: &Observation) -> Window
    ensures { result ≡ observation_window one.now }
{
    Window {
        begin: one.begin,
        end: one.end,
    }
}

// From the earlier begin to the later end.
fn widened(extent: Option<Window>, other: Window) -> Option<Window>
    ensures { result ≡ widened extent other }
{
    match extent {
        Some(extent) => Some(Window {
            begin: earlier(extent.begin, other.begin),
            end: later(extent.end, other.end),
        }),
        None => Some(other),
    }
}

// From the first begin of passes to their last end.
fn passes_extent(passes: &[Pass]) -> Option<Window>
    ensures { result ≡ fold widened None (map pass_window passes.now) }
{
    let mut extent = None;
    for pass in passes {
        extent = widened(extent, pass_window(pass));
    }
    extent
}

// The same of these passes and of observations.
fn extent_of(passes: &[Pass], observations: &[Observation]) -> Option<Window>
    ensures { result ≡ extent_of passes.now observations.now }
{
    let mut extent = passes_extent(passes);
    for one in observations {
        extent = widened(extent, observation_window(one));
    }
    extent
}

// When the mission begins, if that is said, or else with the first of its rows.
fn begin_of(rows: &Rows<'_>, extent: &Option<Window>) -> Option<Moment>
    ensures { result ≡ option_or rows.now.whole.now.begin (option_map (λ w. w.begin) extent.now) }
{
    match (rows.whole.begin, extent) {
        (Some(begin), _) => Some(begin),
        (None, Some(extent)) => Some(extent.begin),
        (None, None) => None,
    }
}

fn end_of(rows: &Rows<'_>, extent: &Option<Window>) -> Option<Moment>
    ensures { result ≡ option_or rows.now.whole.now.end (option_map (λ w. w.end) extent.now) }
{
    match (rows.whole.end, extent) {
        (Some(end), _) => Some(end),
        (None, Some(extent)) => Some(extent.end),
        (None, None) => None,
    }
}

// When the mission begins and ends.
#[tactic(auto, unfolding(crate::specs::Windows::window_of))]
pub(crate) fn window_of(rows: &Rows<'_>) -> Result<Window, Fault>
    ensures window { result ≡ window_of rows.now }
    ensures later { IfOk result (λ mission. mission.begin < mission.end) }
{
    let extent = extent_of(rows.passes, rows.observations);
    let begin = begin_of(rows, &extent).ok_or(Fault::NoTime)?;
    let end = end_of(rows, &extent).ok_or(Fault::NoTime)?;
    if begin < end {
        Ok(Window { begin, end })
    } else {
        Err(Fault::NotLater)
    }
}

impl Window {
    // The part of a span that lies in the mission, if any does, in microseconds from its begin on.
    pub(crate) fn part_of(&self, span: Window) -> Option<Span>
        ensures { result ≡ part_in self.now span }
    {
        let begin = later(self.begin, span.begin);
        let end = earlier(self.end, span.end);
        if begin < end {
            let start = self.begin.microseconds();
            Some(Span {
                begin: begin.microseconds() - start,
                end: end.microseconds() - start,
            })
        } else {
            None
        }
    }

    // Whether two spans have a time of the mission in common.
    pub(crate) fn meet(&self, one: Window, other: Window) -> bool
        ensures { result ≡ meet self.now one other }
    {
        let begin = later(self.begin, later(one.begin, other.begin));
        let end = earlier(self.end, earlier(one.end, other.end));
        begin < end
    }
}
