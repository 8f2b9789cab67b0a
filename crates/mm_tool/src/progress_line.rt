//! How far a long answer has come, on one line of a terminal.

use mm_commands::Progress;
use std::io::{IsTerminal, Write};
use std::time::{Clock, Duration, Instant};

/// How many milliseconds an answer may take before it is shown how far it has come.
const SILENCE: u64 = 1000;

/// How many milliseconds a line stays before the next one takes its place.
const TURN: u64 = 100;

/// Shows on standard error, where that is a terminal, how far an answer has come that takes longer than a second. The
/// line is cleared at the end of the answer, so that nothing of it remains.
#[derive(Drop)]
pub(crate) struct ProgressLine<'a, C, E> {
    clock: &'a C,
    err: E,
    // When the program began; none where nothing is to be shown.
    began: Option<Instant>,
    // When the next line is shown.
    next: Duration,
    is_shown: bool,
}

impl<'a, C: Clock, E: Write + IsTerminal> ProgressLine<'a, C, E> {
    pub(crate) fn new(clock: &'a C, err: E) -> ProgressLine<'a, C, E> {
        let began = if err.is_terminal() {
            Instant::now(clock).ok()
        } else {
            None
        };
        ProgressLine {
            clock,
            err,
            began,
            next: Duration::from_millis(SILENCE),
            is_shown: false,
        }
    }

    // Shows how many hundredths of the answer are done, where it is time for that.
    fn show(&mut self, hundredths: u128) {
        let Some(began) = self.began else {
            return;
        };
        let Ok(elapsed) = began.elapsed(self.clock) else {
            return;
        };
        if elapsed >= self.next {
            self.next = elapsed.saturating_add(Duration::from_millis(TURN));
            self.is_shown = true;
            let _told = write!(self.err, "\rmm_tool: {hundredths} %");
        }
    }

    // Clears the line.
    fn clear(&mut self) {
        if self.is_shown {
            self.is_shown = false;
            let _told = write!(self.err, "\r               \r");
        }
    }
}

impl<C: Clock, E: Write + IsTerminal> Progress for ProgressLine<'_, C, E> {
    fn done(&mut self, parts: usize, all: usize) {
        if parts < all {
            self.show(parts as u128 * 100 / all as u128);
        } else {
            self.clear();
        }
    }
}
