//! Sets of processors. Nothing is proved of them beyond that they are safe.

/// How many processors stand in a word.
const BITS: usize = 64;

/// How many words a set has, so that each processor of a trace has a bit.
const WORDS: usize = 4;

/// A set of processors: a bit for each, up to number 255.
#[derive(Clone, Copy, Debug, Default, PartialEq, Eq, Drop)]
pub struct ProcessorSet {
    words: [u64; WORDS],
}

/// The bit of a processor in its word.
fn bit_of(processor: usize) -> u64 {
    1u64 << (processor % BITS)
}

impl ProcessorSet {
    /// The processor alone.
    pub(crate) fn of(processor: usize) -> ProcessorSet {
        let mut set = ProcessorSet::default();
        set.add(processor);
        set
    }

    /// Whether it has the processor.
    pub fn has(&self, processor: usize) -> bool {
        match self.words.get(processor / BITS) {
            Some(word) => *word & bit_of(processor) != 0,
            None => false,
        }
    }

    /// Adds the processor.
    pub(crate) fn add(&mut self, processor: usize) {
        if let Some(word) = self.words.get_mut(processor / BITS) {
            *word |= bit_of(processor);
        }
    }

    /// Takes the processor away.
    pub(crate) fn remove(&mut self, processor: usize) {
        if let Some(word) = self.words.get_mut(processor / BITS) {
            *word &= !bit_of(processor);
        }
    }

    /// Adds all of the other set.
    pub(crate) fn join(&mut self, other: &ProcessorSet) {
        for (word, others) in self.words.iter_mut().zip(other.words.iter()) {
            *word |= *others;
        }
    }

    /// How many processors it has.
    pub(crate) fn count(&self) -> u64 {
        let mut count: u64 = 0;
        for word in &self.words {
            count = count.saturating_add(u64::from(word.count_ones()));
        }
        count
    }

    /// The first processor from this one on that it has, or that it lacks; 256 if there is none.
    fn next(&self, from: usize, has: bool) -> usize {
        let most = WORDS * BITS;
        for processor in from..most {
            if self.has(processor) == has {
                return processor;
            }
        }
        most
    }

    /// The first processors in a row from this one on that it has: the first one, and how many there are; None if it has none.
    pub(crate) fn run_from(&self, from: usize) -> Option<(usize, usize)> {
        let first = self.next(from, true);
        if first >= WORDS * BITS {
            return None;
        }
        Some((first, self.next(first, false).saturating_sub(first)))
    }
}
