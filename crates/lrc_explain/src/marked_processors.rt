//! Processors that are told by their marks.

use lrc_prose::text::ProseText;

/// Processors: those that have this mark, but for one.
#[derive(Clone, Copy)]
pub struct MarkedProcessors<'a> {
    pub marks: &'a [bool],
    pub mark: bool,
    pub but: usize,
}

impl MarkedProcessors<'_> {
    /// Puts them, one behind the other with commas between.
    pub fn put(&self, text: &mut ProseText) {
        let mut front = "p";
        for (processor, mark) in self.marks.iter().enumerate() {
            if *mark == self.mark && processor != self.but {
                text.put_number(front, processor);
                front = ", p";
            }
        }
    }

    /// How many they are.
    pub fn count(&self) -> usize {
        let mut count: usize = 0;
        for (processor, mark) in self.marks.iter().enumerate() {
            if *mark == self.mark && processor != self.but {
                count = count.saturating_add(1);
            }
        }
        count
    }

    /// The one of them; None where they are none or more.
    pub fn single(&self) -> Option<usize> {
        let mut single = None;
        for (processor, mark) in self.marks.iter().enumerate() {
            if *mark == self.mark && processor != self.but {
                if single.is_some() {
                    return None;
                }
                single = Some(processor);
            }
        }
        single
    }
}
