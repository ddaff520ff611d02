//! A line of a report, made from its end to its beginning: digits come last one first, so they are written
//! where they stay.
ghost use Rattle.std.specs.Prelude.{ℕ, ◌≡◌, ◌≤◌, ◌+◌, ◌++◌, List, codes, drop, length};
ghost use Rattle.std.specs.Fmt.{decimal};
ghost use Rattle.lrc_report.specs.Prelude.{most_digits, most_line};

use itoa::write_digits;
use std::marker::Model;

/// How many bytes a line has at most.
const ROOM: usize = 160;

/// The end of a line, at most `most_line` bytes. Contracts see its bytes.
#[derive(Drop)]
pub struct ReportLine {
    bytes: [u8; ROOM],
    start: usize,
}

impl Model for ReportLine {
    ghost use Rattle.std.specs.Prelude.{ℕ, ◌≡◌, ◌≤◌, List, drop, length};
    ghost use Rattle.lrc_report.specs.WritesThrough.{most_line};

    ghost Value = { List ℕ };

    ghost view = { λ l. drop l.start l.bytes };

    ghost invariant = { λ l. (length l.bytes ≡ most_line) × (l.start ≤ most_line) };
}

impl ReportLine {
    /// The line feed alone.
    pub fn new() -> ReportLine
        ensures { result ≡ codes "\n" }
    {
        let mut bytes = [0; ROOM];
        bytes[ROOM - 1] = b'\n';
        ReportLine {
            bytes,
            start: ROOM - 1,
        }
    }

    /// Leaves the line feed alone.
    #[inline]
    pub fn clear(&mut self)
        ensures { self.new ≡ codes "\n" }
    {
        self.bytes[ROOM - 1] = b'\n';
        self.start = ROOM - 1;
    }

    /// Puts a text in front.
    #[inline]
    pub fn put_text(&mut self, text: &[u8])
        requires { length text.now + length self.old ≤ most_line }
        ensures text { self.new ≡ text.now ++ self.old }
        ensures length { length self.new ≡ length text.now + length self.old }
    {
        let end = self.start;
        self.start -= text.len();
        self.bytes[self.start..end].copy_from_slice(text);
    }

    /// Puts a number in front, in decimal.
    #[inline]
    fn put_digits(&mut self, number: u64)
        requires { most_digits + length self.old ≤ most_line }
        ensures text { self.new ≡ decimal number ++ self.old }
        ensures length { length self.new ≤ most_digits + length self.old }
    {
        self.start = write_digits(number, &mut self.bytes, self.start);
    }

    /// Puts a text in front, and a number in decimal between it and what was there.
    #[inline]
    pub fn put(&mut self, text: &[u8], number: u64)
        requires { length text.now + (most_digits + length self.old) ≤ most_line }
        ensures text { self.new ≡ text.now ++ decimal number ++ self.old }
        ensures length { length self.new ≤ length text.now + (most_digits + length self.old) }
    {
        self.put_digits(number);
        self.put_text(text);
    }

    /// The bytes.
    #[inline]
    pub fn bytes(&self) -> &[u8]
        ensures { result.now ≡ self.now }
    {
        &self.bytes[self.start..]
    }
}
