//! The labels of a trace's events, each kept once. Nothing is proved of it beyond that it is safe.

use indexmap::IndexSet;
use lrc_check::traces::labels::split_trace_label;
use lrc_script::line::split_line;
use std::alloc::{AllocError, Global};

/// The labels of the events of a trace that is read a piece at a time: each has a number, in the order in which they first stand
/// in the trace. It takes the memory of these labels, and of a number for each line of a piece.
#[derive(Drop)]
pub(crate) struct LineLabels {
    kept: IndexSet<Vec<u8>>,
    /// The bytes of the line that isn't whole.
    unfinished: Vec<u8>,
    /// Whether the line of the sizes was read.
    headed: bool,
    /// Of each event that ends in the last piece, the number of its label, if it has one.
    numbers: Vec<Option<usize>>,
}

/// Whether the line is passed over: whether it is empty, or begins with `#`.
fn is_line_passed_over(line: &[u8]) -> bool {
    match line {
        [] => true,
        [first, ..] => *first == b'#',
    }
}

/// The number of the label, which is kept if it wasn't yet. The only error is running out of memory.
fn number_of_label(
    kept: &mut IndexSet<Vec<u8>>,
    alloc: Global,
    label: &[u8],
) -> Result<usize, AllocError> {
    if let Some(number) = kept.get_index_of(label) {
        return Ok(number);
    }
    let mut bytes = Vec::with_capacity(alloc, label.len())?;
    bytes.extend_from_slice(label)?;
    let (number, _) = kept.insert_full(bytes)?;
    Ok(number)
}

/// A label as it is told among other words: each byte that is no printable sign of ASCII as `?`. The only error is running out of
/// memory.
pub(crate) fn shown_label(alloc: Global, label: &[u8]) -> Result<String, AllocError> {
    let mut text = String::new(alloc);
    for byte in label {
        let sign = if (b' '..=b'~').contains(byte) {
            char::from(*byte)
        } else {
            '?'
        };
        text.push(sign)?;
    }
    Ok(text)
}

impl LineLabels {
    /// Before the first piece.
    pub(crate) fn new(alloc: Global) -> LineLabels {
        LineLabels {
            kept: IndexSet::new(alloc),
            unfinished: Vec::new(alloc),
            headed: false,
            numbers: Vec::new(alloc),
        }
    }

    /// Takes note of a whole line. The only error is running out of memory.
    fn read_line(&mut self, alloc: Global, line: &[u8]) -> Result<(), AllocError> {
        if is_line_passed_over(line) {
            return Ok(());
        }
        if !self.headed {
            self.headed = true;
            return Ok(());
        }
        let (_, label) = split_trace_label(line);
        let number = if label.is_empty() {
            None
        } else {
            Some(number_of_label(&mut self.kept, alloc, label)?)
        };
        self.numbers.push(number)?;
        Ok(())
    }

    /// Takes note of a line that may have begun in an earlier piece. The only error is running out of memory.
    fn end_line(&mut self, alloc: Global, end: &[u8]) -> Result<(), AllocError> {
        if self.unfinished.is_empty() {
            return self.read_line(alloc, end);
        }
        let mut line = std::mem::replace(&mut self.unfinished, Vec::new(alloc));
        line.extend_from_slice(end)?;
        self.read_line(alloc, &line)
    }

    /// Takes note of the next piece. The only error is running out of memory.
    pub(crate) fn feed(&mut self, alloc: Global, piece: &[u8]) -> Result<(), AllocError> {
        self.numbers.clear();
        let mut rest = piece;
        for _ in 0..piece.len() {
            let Some((line, behind)) = split_line(rest) else {
                break;
            };
            self.end_line(alloc, line)?;
            rest = behind;
        }
        self.unfinished.extend_from_slice(rest)?;
        Ok(())
    }

    /// The number of the label of the event at this place among those that end in the last piece, if it has one.
    pub(crate) fn number(&self, place: usize) -> Option<usize> {
        match self.numbers.get(place) {
            Some(number) => *number,
            None => None,
        }
    }

    /// The label of this number.
    pub(crate) fn label(&self, number: usize) -> &[u8] {
        match self.kept.get_index(number) {
            Some(label) => label,
            None => &[],
        }
    }
}
