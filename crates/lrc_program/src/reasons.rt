//! A writer that keeps why it failed.
ghost use Rattle.std.specs.Io.{WritesAtMost};
ghost use Rattle.std.specs.Io.KnownBytes.{Keeps, WriteAppends};

use std::alloc::{AllocError, Global};
use std::io;
use std::io::Write;

/// Passes on what is written, and keeps the system's reason if that fails.
#[derive(Drop)]
pub struct KeepsReason<W> {
    writer: W,
    reason: Option<io::Error>,
}

impl<W: Write> KeepsReason<W> {
    /// Over this writer, which hasn't failed yet.
    pub fn new(writer: W) -> KeepsReason<W> {
        KeepsReason {
            writer,
            reason: None,
        }
    }

    /// The last reason, or None if no write failed.
    pub fn reason(&self) -> Option<io::Error> {
        self.reason
    }
}

impl<W: Write> Write for KeepsReason<W> {
    ghost contents = { λ w. W.contents w.writer };

    fn write(&mut self, bytes: &[u8]) -> io::Result<usize>
        ensures bound { WritesAtMost result bytes.now }
        ensures bytes { WriteAppends (W.contents self.old.writer) (W.contents self.new.writer) result bytes.now }
    {
        let written = self.writer.write(bytes);
        if let Err(reason) = written {
            self.reason = Some(reason);
        }
        written
    }

    fn flush(&mut self) -> io::Result<()>
        ensures bytes { Keeps (W.contents self.old.writer) (W.contents self.new.writer) }
    {
        let flushed = self.writer.flush();
        if let Err(reason) = flushed {
            self.reason = Some(reason);
        }
        flushed
    }
}

/// The line that tells why standard output failed, behind the one that says that it did. It begins with two spaces.
fn reason_line(alloc: Global, reason: io::Error) -> Result<String, AllocError> {
    format!(in alloc; "  standard output: {reason}\n")
}

/// Says on `err` in one write why standard output failed, if the system gave a reason and there is memory for the line.
pub fn say_reason<E: Write>(alloc: Global, reason: Option<io::Error>, err: &mut E) {
    if let Some(reason) = reason {
        if let Ok(line) = reason_line(alloc, reason) {
            // If standard error takes nothing, the status still tells.
            let _ = err.write_all(line.as_bytes());
        }
    }
}
