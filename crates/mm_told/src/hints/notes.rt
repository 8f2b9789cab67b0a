//! Notes on the setup and the forecast of a task that is done: what in them has no effect.
ghost use Rattle.std.specs.Prelude.{◌<◌, length};

use crate::hints::ends::is_reached;
use crate::hints::excerpt::Excerpt;
use mm_base::{MAX_STORES, NoMemory, StoreId};
use mm_problem::{Problem, Setup};
use std::alloc::Global;
use std::fmt;

/// What in a setup or a forecast has no effect. It is shown in one line without its end.
#[derive(Clone, Copy)]
pub enum Note {
    /// A limit is of a channel that no store has.
    LimitOfNone { channel: u8 },
    /// A column of the forecast has limits of a channel that no store has.
    ColumnOfNone { channel: u8 },
    /// A column of the forecast has sizes that are nowhere below the setup's.
    ColumnOfMore { store: StoreId },
    /// No route leads to a store.
    Unreached { store: StoreId },
}

impl fmt::Display for Note {
    fn fmt<W: fmt::Write>(&self, f: &mut fmt::Formatter<W>) -> fmt::Result {
        match self {
            Note::LimitOfNone { channel } =>
                write! { f, "the setup has a limit for channel {channel}, on which no store is" },
            Note::ColumnOfNone { channel } =>
                write! { f, "the forecast has a column limit:{channel}, and no store is on that channel" },
            Note::ColumnOfMore { store } =>
                write! { f, "the column size: of {} is never below the setup's size, so it changes nothing",
                    Excerpt::of_id(store) },
            Note::Unreached { store } =>
                write! { f, "no route of the setup leads to {}, so nothing arrives there", Excerpt::of_id(store) },
        }
    }
}

// Whether a store of the setup is on this channel.
fn is_used(setup: &Setup, channel: u8) -> bool {
    setup.stores().iter().any(|row| row.channel == channel)
}

fn push_limits(notes: &mut Vec<Note>, setup: &Setup) -> Result<(), NoMemory> {
    for limit in setup.limits() {
        let channel = limit.channel;
        if !is_used(setup, channel) {
            notes.push(Note::LimitOfNone { channel })?;
        }
    }
    Ok(())
}

fn push_stores(notes: &mut Vec<Note>, setup: &Setup) -> Result<(), NoMemory> {
    for row in setup.stores() {
        if !is_reached(setup.routes(), row.id) {
            notes.push(Note::Unreached { store: row.id })?;
        }
    }
    Ok(())
}

fn push_columns(notes: &mut Vec<Note>, setup: &Setup, problem: &Problem) -> Result<(), NoMemory> {
    for channel in problem.limited() {
        if !is_used(setup, *channel) {
            notes.push(Note::ColumnOfNone { channel: *channel })?;
        }
    }
    Ok(())
}

// Whether the sizes of a column are nowhere below the setup's size of its store.
fn is_never_below(problem: &Problem, column: usize, store: usize) -> bool
    requires column { column < length problem.now.sized }
    requires store { store < length problem.now.rows }
{
    let size = problem.setup_size(store);
    (1..problem.steps() + 1).all(|step| size <= problem.column_size(column, step))
}

// The store of a column with sizes that have no effect.
fn column_of_more(problem: &Problem, column: usize) -> Option<StoreId>
    requires { column < length problem.now.sized }
{
    // The store is one of the problem.
    prove!(problem.stores() <= MAX_STORES);
    let store = problem.sized()[column] as usize;
    if is_never_below(problem, column, store) {
        Some(problem.id(store))
    } else {
        None
    }
}

fn push_sizes(notes: &mut Vec<Note>, problem: &Problem) -> Result<(), NoMemory> {
    for column in 0..problem.sized().len() {
        if let Some(store) = column_of_more(problem, column) {
            notes.push(Note::ColumnOfMore { store })?;
        }
    }
    Ok(())
}

/// What has no effect in the setup and the forecast of a task that is done, which say this problem: limits, in a run
/// also stores, and columns with limits or with sizes.
pub fn notes_on(
    alloc: Global,
    is_run: bool,
    setup: &Setup,
    problem: &Problem,
) -> Result<Vec<Note>, NoMemory> {
    let mut notes = Vec::new(alloc);
    push_limits(&mut notes, setup)?;
    if is_run {
        push_stores(&mut notes, setup)?;
    }
    push_columns(&mut notes, setup, problem)?;
    push_sizes(&mut notes, problem)?;
    Ok(notes)
}
