//! Progress of a long computation.

/// A receiver of progress, which decides whether to show it.
pub trait Progress {
    /// Of `all` records, windows or other parts, `parts` are done.
    fn done(&mut self, parts: usize, all: usize);
}

/// Shows nothing.
#[derive(Clone, Copy, Debug)]
pub struct Silent;

impl Progress for Silent {
    fn done(&mut self, _parts: usize, _all: usize) {}
}
