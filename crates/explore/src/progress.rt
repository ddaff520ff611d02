//! How far a search is.

/// Is told now and then how far a search is. What it does with that is no part of the answer.
pub trait Progress {
    /// So many states were found so far.
    fn found(&mut self, states: usize);

    /// So many beginnings of runs were looked at so far, by the rules of the memory.
    fn looked_at(&mut self, _beginnings: usize) {}
}

/// Says nothing.
#[derive(Clone, Copy)]
pub struct Silent;

impl Progress for Silent {
    fn found(&mut self, _states: usize) {}
}
