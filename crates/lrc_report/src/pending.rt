//! Bytes that wait to be written, so that many pieces of text are one write.
ghost use Rattle.std.specs.Prelude.{ℕ, ◌≡◌, ◌≤◌, ◌++◌, ◌-◌, [], List, length, take, OnOk};
ghost use Rattle.lrc_report.specs.Prelude.{WritesThroughOrFails, WritesThrough, most_pending};

use crate::render::OutFault;
use std::io::Write;
use std::marker::Model;

/// How many bytes wait at most.
const ROOM: usize = 8192;

/// Bytes that wait to be written, at most `most_pending`. Contracts see them as a list.
#[derive(Drop)]
pub struct Pending {
    bytes: [u8; ROOM],
    count: usize,
}

impl Model for Pending {
    ghost use Rattle.std.specs.Prelude.{ℕ, ◌≡◌, ◌≤◌, List, length, take};
    ghost use Rattle.lrc_report.specs.WritesThrough.{most_pending};

    ghost Value = { List ℕ };

    ghost view = { λ p. take p.count p.bytes };

    ghost invariant = { λ p. (length p.bytes ≡ most_pending) × (p.count ≤ most_pending) };
}

/// Writes the bytes. After OutFault a beginning of them was written.
pub fn write_bytes<W: Write>(out: &mut W, bytes: &[u8]) -> Result<(), OutFault>
    ensures { WritesThroughOrFails (W.contents out.old) (W.contents out.new) bytes.now result }
{
    let mut rest = bytes;
    while !rest.is_empty() {
        match out.write(rest) {
            Ok(0) | Err(_) => return Err(OutFault),
            Ok(count) => rest = &rest[count..],
        }
    }
    Ok(())
}

impl Pending {
    /// No bytes.
    pub fn new() -> Pending
        ensures { result ≡ [] }
    {
        Pending {
            bytes: [0; ROOM],
            count: 0,
        }
    }

    /// How many more bytes may wait.
    fn room(&self) -> usize
        ensures { result ≡ most_pending - length self.now }
    {
        ROOM - self.count
    }

    /// Adds the bytes at the end.
    fn push(&mut self, bytes: &[u8])
        requires { length bytes.now ≤ most_pending - length self.old }
        ensures { self.new ≡ self.old ++ bytes.now }
    {
        let end = self.count + bytes.len();
        self.bytes[self.count..end].copy_from_slice(bytes);
        self.count = end;
    }

    /// Writes the bytes that wait; then none do. After OutFault a beginning of them was written.
    pub fn flush<W: Write>(&mut self, out: &mut W) -> Result<(), OutFault>
        ensures writes { WritesThroughOrFails (W.contents out.old) (W.contents out.new) self.old result }
        ensures none { OnOk result (self.new ≡ []) }
    {
        write_bytes(out, &self.bytes[..self.count])?;
        self.count = 0;
        Ok(())
    }

    /// Adds the bytes at the end, and writes all that waits if they don't fit. After OutFault a beginning
    /// of what waited and of the bytes was written.
    pub fn take<W: Write>(&mut self, out: &mut W, bytes: &[u8]) -> Result<(), OutFault>
        ensures { WritesThrough (W.contents out.old) (W.contents out.new) self.old self.new bytes.now result }
    {
        if bytes.len() <= self.room() {
            self.push(bytes);
            return Ok(());
        }
        self.flush(out)?;
        if bytes.len() <= self.room() {
            self.push(bytes);
            return Ok(());
        }
        write_bytes(out, bytes)
    }
}
