//! The text that is told, put together piece by piece.
use itoa::{Buffer, Integer};
use std::alloc::{AllocError, Global};

/// How many columns a line has at most.
const WIDTH: usize = 100;

/// How far the lines that continue another are indented at least, and at most.
const LEAST_INDENT: usize = 2;

const MOST_INDENT: usize = 60;

/// What was put so far. Who puts something needn't ask whether there was memory for it: where a growth is refused, nothing
/// more is put, and `finish` answers the refusal.
#[derive(Drop)]
struct ProseTextSink {
    bytes: Vec<u8>,
    /// Whether each growth was granted so far.
    granted: Result<(), AllocError>,
}

impl ProseTextSink {
    /// An empty one.
    fn new(alloc: Global) -> ProseTextSink {
        ProseTextSink {
            bytes: Vec::new(alloc),
            granted: Ok(()),
        }
    }

    /// Adds these bytes, unless a growth was refused.
    fn grow(&mut self, bytes: &[u8]) {
        if self.granted.is_ok() {
            self.granted = self.bytes.extend_from_slice(bytes);
        }
    }

    /// Adds so many spaces.
    fn pad(&mut self, spaces: usize) {
        let length = self.bytes.len().saturating_add(spaces);
        if self.granted.is_ok() {
            self.granted = self.bytes.resize(length, b' ');
        }
    }

    /// The bytes. The only error is running out of memory: a growth was refused.
    fn finish(self) -> Result<Vec<u8>, AllocError> {
        let ProseTextSink { bytes, granted } = self;
        granted?;
        Ok(bytes)
    }

    /// Begins a line that continues another, indented so far.
    fn continue_line(&mut self, indent: usize) {
        self.grow(b"\n");
        self.pad(indent);
    }

    /// Adds a word from this column on, which is cut where a line is full, and goes on in the next one, indented so far. Returns
    /// the column after it.
    fn put_in_pieces(&mut self, word: &[u8], first: usize, indent: usize) -> usize {
        let mut rest = word;
        let mut column = first;
        for _ in 0..word.len() {
            match rest.split_at_checked(WIDTH.saturating_sub(column)) {
                Some((piece, behind)) if !behind.is_empty() => {
                    self.grow(piece);
                    self.continue_line(indent);
                    rest = behind;
                    column = indent;
                }
                _ => break,
            }
        }
        self.grow(rest);
        column.saturating_add(rest.len())
    }

    /// Adds a word after another one that ends at this column, on the same line or at the beginning of the next one, which is
    /// indented so far. Returns the column after it.
    fn put_next_word(&mut self, word: &[u8], column: usize, indent: usize) -> usize {
        let start = column.saturating_add(1);
        if start.saturating_add(word.len()) <= WIDTH {
            self.grow(b" ");
            return self.put_in_pieces(word, start, indent);
        }
        self.continue_line(indent);
        self.put_in_pieces(word, indent, indent)
    }

    /// Adds these words, of which the first comes at this column, so that no line is too long: each word that doesn't fit
    /// begins a line, which is indented so far; one that is longer than a line is cut.
    fn put_words(&mut self, words: &[u8], first: usize, indent: usize) {
        let mut words = words.split(|byte| *byte == b' ');
        let Some(word) = words.next() else {
            return;
        };
        let mut column = self.put_in_pieces(word, first, indent);
        for word in words {
            column = self.put_next_word(word, column, indent);
        }
    }
}

/// A text that grows line by line.
#[derive(Drop)]
pub struct ProseText {
    lines: ProseTextSink,
    /// The line that isn't ended yet.
    line: ProseTextSink,
    /// How many spaces come before what is put next on this line.
    gap: usize,
    /// From which column on the line may be broken.
    unbroken: usize,
}

impl ProseText {
    /// An empty one.
    pub fn new(alloc: Global) -> ProseText {
        ProseText {
            lines: ProseTextSink::new(alloc),
            line: ProseTextSink::new(alloc),
            gap: 0,
            unbroken: 0,
        }
    }

    /// How long the line is, with the spaces that are left.
    pub fn len(&self) -> usize {
        self.line.bytes.len().saturating_add(self.gap)
    }

    /// How long the lines are that are ended.
    pub fn lines_len(&self) -> usize {
        self.lines.bytes.len()
    }

    /// Adds these words.
    pub fn put(&mut self, words: &str) {
        self.line.pad(self.gap);
        self.gap = 0;
        self.line.grow(words.as_bytes());
    }

    /// Adds these words, and a number behind them.
    pub fn put_number<N: Integer>(&mut self, words: &str, number: N) {
        self.put(words);
        let mut buffer = Buffer::new();
        self.line.grow(buffer.format(number).as_bytes());
    }

    /// Adds so many of these, in words: `1 record`, `2 records`.
    pub fn put_count(&mut self, count: usize, noun: &str) {
        self.put_number("", count);
        self.put(" ");
        self.put(noun);
        if count != 1 {
            self.put("s");
        }
    }

    /// Leaves so many spaces. They are put where something follows on the same line.
    pub fn leave(&mut self, spaces: usize) {
        self.gap = self.gap.saturating_add(spaces);
    }

    /// Leaves spaces up to this length, where the line is shorter.
    pub fn leave_to(&mut self, length: usize) {
        self.leave(length.saturating_sub(self.len()));
    }

    /// From here on the line may be broken: what doesn't fit goes on in the next line, indented up to here, but no further
    /// than `MOST_INDENT`.
    pub fn break_from_here(&mut self) {
        self.unbroken = self.len();
    }

    /// Ends the line, and breaks it where it is too long. What was left at its end is forgotten.
    pub fn end_line(&mut self) {
        let line = self.line.bytes.as_slice();
        let indent = self.unbroken.max(LEAST_INDENT).min(MOST_INDENT);
        match line.split_at_checked(self.unbroken) {
            Some((head, words)) => {
                self.lines.grow(head);
                self.lines.put_words(words, head.len(), indent);
            }
            None => self.lines.grow(line),
        }
        self.lines.grow(b"\n");
        self.clear_line();
    }

    /// Empties the line.
    pub fn clear_line(&mut self) {
        self.line.bytes.clear();
        self.gap = 0;
        self.unbroken = 0;
    }

    /// The line that isn't ended yet, in one piece. The only error is running out of memory: a growth was refused.
    pub fn into_line(self) -> Result<Vec<u8>, AllocError> {
        let ProseText { line, .. } = self;
        line.finish()
    }

    /// The bytes of the lines. The only error is running out of memory: a growth was refused.
    pub fn finish(self) -> Result<Vec<u8>, AllocError> {
        let ProseText { lines, line, .. } = self;
        line.finish()?;
        lines.finish()
    }
}
