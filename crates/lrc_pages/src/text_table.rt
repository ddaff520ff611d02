//! Tables of text.

use std::alloc::{AllocError, Global};

/// A table of words in columns. Those of the first columns end under each other, those of the others begin there.
#[derive(Drop)]
pub(crate) struct TextTable {
    /// How many columns end under each other.
    numbers: usize,
    lines: Vec<Vec<String>>,
    widths: Vec<usize>,
}

/// The word that says the number. The only error is running out of memory.
pub(crate) fn number_word(alloc: Global, number: u64) -> Result<String, AllocError> {
    format!(in alloc; "{number}")
}

/// A word of a table. The only error is running out of memory.
pub(crate) fn table_word(alloc: Global, word: &str) -> Result<String, AllocError> {
    let mut text = String::new(alloc);
    text.push_str(word)?;
    Ok(text)
}

/// Adds so many spaces.
fn put_spaces(text: &mut String, count: usize) -> Result<(), AllocError> {
    for _ in 0..count {
        text.push_str(" ")?;
    }
    Ok(())
}

impl TextTable {
    /// Without a line.
    pub(crate) fn new(alloc: Global, numbers: usize) -> TextTable {
        TextTable {
            numbers,
            lines: Vec::new(alloc),
            widths: Vec::new(alloc),
        }
    }

    /// Adds a line. The only error is running out of memory.
    pub(crate) fn put(&mut self, line: Vec<String>) -> Result<(), AllocError> {
        for (column, word) in line.iter().enumerate() {
            match self.widths.get_mut(column) {
                Some(width) => *width = (*width).max(word.len()),
                None => self.widths.push(word.len())?,
            }
        }
        self.lines.push(line)?;
        Ok(())
    }

    /// Adds a line of these words. The only error is running out of memory.
    pub(crate) fn put_words(&mut self, alloc: Global, words: &[&str]) -> Result<(), AllocError> {
        let mut line = Vec::new(alloc);
        for word in words {
            line.push(table_word(alloc, word)?)?;
        }
        self.put(line)
    }

    /// Adds a column's word to the text.
    fn put_cell(&self, text: &mut String, column: usize, word: &str) -> Result<(), AllocError> {
        let width = match self.widths.get(column) {
            Some(width) => *width,
            None => 0,
        };
        let left = width.saturating_sub(word.len());
        if column < self.numbers {
            put_spaces(text, left)?;
            return text.push_str(word);
        }
        text.push_str(word)?;
        if column.saturating_add(1) < self.widths.len() {
            put_spaces(text, left)?;
        }
        Ok(())
    }

    /// Adds the line at this place to the text, so far to the right; nothing if there is none.
    pub(crate) fn put_line(
        &self,
        text: &mut String,
        place: usize,
        indent: usize,
    ) -> Result<(), AllocError> {
        let Some(line) = self.lines.get(place) else {
            return Ok(());
        };
        put_spaces(text, indent)?;
        for (column, word) in line.iter().enumerate() {
            if column > 0 {
                text.push_str("  ")?;
            }
            self.put_cell(text, column, word)?;
        }
        text.push_str("\n")
    }

    /// Adds all lines to the text, so far to the right.
    pub(crate) fn put_all(&self, text: &mut String, indent: usize) -> Result<(), AllocError> {
        for place in 0..self.lines.len() {
            self.put_line(text, place, indent)?;
        }
        Ok(())
    }
}
