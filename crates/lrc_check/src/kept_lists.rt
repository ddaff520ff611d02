//! Lists of numbers or of bytes, each kept once.

use indexmap::IndexSet;
use std::alloc::{AllocError, Global};
use std::hash::Hash;

/// Lists, each kept once and named by a number: so what has a list takes 8 bytes for it.
#[derive(Drop)]
pub(crate) struct KeptLists<T: Eq + Hash + Copy + Drop> {
    lists: IndexSet<Vec<T>>,
}

impl<T: Eq + Hash + Copy + Drop> KeptLists<T> {
    /// None at all.
    pub(crate) fn new(alloc: Global) -> KeptLists<T> {
        KeptLists {
            lists: IndexSet::new(alloc),
        }
    }

    /// How many there are.
    pub(crate) fn count(&self) -> usize {
        self.lists.len()
    }

    /// The number of the list, which is kept if it wasn't yet. The only error is running out of memory.
    pub(crate) fn number_of(&mut self, alloc: Global, list: &[T]) -> Result<usize, AllocError> {
        if let Some(number) = self.lists.get_index_of(list) {
            return Ok(number);
        }
        let mut kept = Vec::with_capacity(alloc, list.len())?;
        kept.extend_from_slice(list)?;
        let (number, _) = self.lists.insert_full(kept)?;
        Ok(number)
    }

    /// The list of this number, without an item if there is none.
    pub(crate) fn list(&self, number: usize) -> &[T] {
        match self.lists.get_index(number) {
            Some(list) => list,
            None => &[],
        }
    }
}
