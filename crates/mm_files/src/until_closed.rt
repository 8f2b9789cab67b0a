//! Writing to a pipe whose reader may leave.

use std::io::{self, ErrorKind, Write};

/// A writer to a pipe. Once nobody reads the pipe any more, what is written is dropped, and no write or flush fails for
/// that.
#[derive(Drop)]
pub struct UntilClosed<W> {
    writer: W,
    is_closed: bool,
}

// Whether an error says that nobody reads the pipe any more.
fn is_closing(error: &io::Error) -> bool {
    error.kind() == ErrorKind::BrokenPipe
}

impl<W> UntilClosed<W> {
    pub fn new(writer: W) -> UntilClosed<W> {
        UntilClosed {
            writer,
            is_closed: false,
        }
    }
}

impl<W: Write + Drop> Write for UntilClosed<W> {
    fn write(&mut self, buf: &[u8]) -> io::Result<usize> {
        if self.is_closed {
            return Ok(buf.len());
        }
        match self.writer.write(buf) {
            Err(error) if is_closing(&error) => {
                self.is_closed = true;
                Ok(buf.len())
            }
            written => written,
        }
    }

    fn flush(&mut self) -> io::Result<()> {
        if self.is_closed {
            return Ok(());
        }
        match self.writer.flush() {
            Err(error) if is_closing(&error) => {
                self.is_closed = true;
                Ok(())
            }
            flushed => flushed,
        }
    }
}
