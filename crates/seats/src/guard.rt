//! Who may access a word.

/// Who may access a word in a phase.
#[derive(Clone, Copy, Debug, PartialEq, Eq)]
pub enum Guard {
    /// Whoever holds this lock may load it and store to it.
    Under(usize),
    /// This processor may, and no other.
    Of(usize),
    /// All may load it, and nobody may store to it.
    Shared,
    /// All may load it and store to it: of such a word no law says that it has no race.
    Open,
}
