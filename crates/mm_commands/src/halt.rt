//! What the program says of a halt on standard error: which links failed, what was sent in the halted step, and what to
//! do.

use mm_base::StoreId;
use mm_run::{Cause, StoppedRun};
use std::fmt;
use std::io::{self, Write};

/// The identifier of a store, shown without padding.
#[derive(Clone, Copy)]
pub(crate) struct Id(pub(crate) StoreId);

impl fmt::Display for Id {
    fn fmt<W: fmt::Write>(&self, f: &mut fmt::Formatter<W>) -> fmt::Result {
        match std::str::from_utf8(self.0.text()) {
            Ok(text) => write!(f, "{text}"),
            Err(_) => Ok(()),
        }
    }
}

// Says how many packets were sent in a step, of one store where it is known. The line does not end.
fn tell_sent<E: Write>(
    count: u64,
    store: Option<StoreId>,
    step: u32,
    err: &mut E,
) -> io::Result<()> {
    let (packets, were) = match count {
        1 => ("packet", "was"),
        _ => ("packets", "were"),
    };
    write!(err, "note: {count} {packets}")?;
    if let Some(store) = store {
        write!(err, " of {}", Id(store))?;
    }
    write!(err, " {were} sent in step {step}")
}

// The step in which a run was halted, if it was halted in one, and whether a link halted it.
fn halted_step(cause: &Cause) -> Option<(u32, bool)> {
    match *cause {
        Cause::NoMemory { step } | Cause::LogMismatch { step } if step > 0 => Some((step, false)),
        Cause::LinkFailed { step } if step > 0 => Some((step, true)),
        _ => None,
    }
}

// Says which links failed, each at which of its sends. The store whose order broke off, where one link alone failed.
fn tell_failures<E: Write>(run: &StoppedRun, err: &mut E) -> io::Result<Option<StoreId>> {
    let (mut number, mut failures): (u64, u64) = (0, 0);
    let mut broken = None;
    for link in &run.halted.links {
        number = number.saturating_add(1);
        if let Some(failed) = link.last_failure() {
            let (send, store) = (failed.send, Id(failed.store));
            writeln!(
                err,
                "note: link {number} failed at its send {send}, a packet of {store}"
            )?;
            failures = failures.saturating_add(1);
            broken = Some(failed.store);
        }
    }
    Ok(if failures == 1 { broken } else { None })
}

// Says how many packets were sent of orders that broke off, of one store where it is known; and how many there were.
fn tell_held<E: Write>(
    run: &StoppedRun,
    store: Option<StoreId>,
    step: u32,
    err: &mut E,
) -> io::Result<u64> {
    let held = run.still_held();
    if held > 0 {
        tell_sent(held, store, step, err)?;
        let again = match held {
            1 => "is still stored; it",
            _ => "are still stored; they",
        };
        writeln!(err, " and {again} would be sent again")?;
    }
    Ok(held)
}

// Says how many packets were sent of whole orders, store by store, and whether there were any.
fn tell_dumped<E: Write>(run: &StoppedRun, step: u32, err: &mut E) -> io::Result<bool> {
    let mut is_any = false;
    for (place, held) in run.memory.stores().iter().enumerate() {
        let count = run.dumped(place);
        if count > 0 {
            tell_sent(count, Some(held.id), step, err)?;
            writeln!(err, " and deleted")?;
            is_any = true;
        }
    }
    Ok(is_any)
}

// Says what each store holds, one after another.
fn tell_volumes<E: Write>(run: &StoppedRun, err: &mut E) -> io::Result<()> {
    let mut before = "";
    for place in 0..run.memory.stores().len() {
        if let Some(volume) = run.volume(place) {
            write!(err, "{before} {} {}", Id(volume.store), volume.blocks)?;
            before = ",";
        }
    }
    Ok(())
}

// Says from where to plan again: the halted step goes on with what is left of its window, without the arrivals that are
// stored, and each store begins with what it holds.
fn tell_again<E: Write>(
    run: &StoppedRun,
    step: u32,
    is_recorded: bool,
    err: &mut E,
) -> io::Result<()> {
    let window = run.window_left(step);
    let arrivals = match is_recorded {
        true => "none of its arrivals",
        false => "those of its arrivals that are not stored yet",
    };
    write!(
        err,
        "hint: plan again from step {step}, with a window of {window} in that step and {arrivals}; start volumes:"
    )?;
    tell_volumes(run, err)?;
    if run.is_limited() {
        write!(err, "; each limit in that step: less what its channel sent")?;
    }
    writeln!(err)
}

/// Says of a run that was halted in a step which links failed, what was sent in that step, and from where to plan
/// again.
pub(crate) fn tell_halt<E: Write>(run: &StoppedRun, err: &mut E) -> io::Result<()> {
    let Some((step, is_broken)) = halted_step(&run.halted.cause) else {
        return Ok(());
    };
    let store = tell_failures(run, err)?;
    let held = tell_held(run, if is_broken { store } else { None }, step, err)?;
    let is_dumped = tell_dumped(run, step, err)?;
    if !is_dumped && held == 0 {
        writeln!(err, "note: no packet was sent in step {step}")?;
    }
    // Nothing is spent before all that arrives is recorded.
    let is_recorded = is_broken || run.halted.spent > 0;
    if !is_recorded {
        writeln!(
            err,
            "note: perhaps not every packet of step {step} is stored"
        )?;
    }
    tell_again(run, step, is_recorded, err)
}
