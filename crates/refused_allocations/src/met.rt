//! What the calls of a part met.
use std::fmt;

/// What the calls of a part answered, where one allocation may be refused.
#[derive(Clone, Copy)]
pub enum Met {
    /// Memory lacked for what the calls are made on.
    Unready,
    /// A call answered that memory was wanted.
    Wanted,
    /// No plan was made, out of memory, and nothing was done.
    Unplanned,
    /// A run was halted, out of memory, before its first step.
    Halted,
    /// All is as with ample memory.
    Whole,
    /// What none of the calls may answer or leave.
    Wrong(&'static str),
}

impl Met {
    // Itself where it is wrong, and otherwise the other one.
    fn if_wrong_or(self, other: Met) -> Met {
        match self {
            Met::Wrong(_) => self,
            _ => other,
        }
    }

    /// What came of these calls and of those after them.
    pub(crate) fn and(self, after: Met) -> Met {
        match self {
            Met::Whole => after,
            _ => self.if_wrong_or(after.if_wrong_or(self)),
        }
    }

    /// The same, where what was seen is right.
    pub(crate) fn provided(self, right: bool, wrong: &'static str) -> Met {
        if right {
            self
        } else {
            self.and(Met::Wrong(wrong))
        }
    }
}

/// Shown as the line that `bench/refused-allocations` reads.
impl fmt::Display for Met {
    fn fmt<W: fmt::Write>(&self, f: &mut fmt::Formatter<W>) -> fmt::Result {
        match *self {
            Met::Unready => write!(f, "there was no memory to begin the calls"),
            Met::Wanted => write!(f, "memory was wanted"),
            Met::Unplanned => write!(f, "there was no memory to plan"),
            Met::Halted => write!(f, "halted in step 0"),
            Met::Whole => write!(f, "all was as with ample memory"),
            Met::Wrong(told) => write!(f, "wrong: {told}"),
        }
    }
}
