//! Names of what is opened.
ghost use Rattle.std.specs.Prelude.{List, []};
ghost use Rattle.mm_desk.specs.Machine.{State};

use std::marker::Brand;

/// A name of desks that are opened together, whose ghost states are the opening states by place. A call with `Brand` picks
/// them; a function generic in the name opens and closes its desks.
pub trait Opening {
    ghost states: { List State };
}

impl Opening for Brand {
    ghost states = { [] };
}
