//! What a drawn script is made of.
ghost use Rattle.std.specs.Prelude.{◌≡◌};
ghost use Rattle.lrc_tester.specs.Patterns.{has_flags_by_pattern, never_races_by_pattern};

/// What a drawn script is made of.
#[derive(Clone, Copy, PartialEq, Eq)]
pub enum Pattern {
    /// Additions, each under the lock of its address.
    Guarded,
    /// Loads, stores and additions, some of them under a lock: they may race.
    Free,
    /// Words that a chain of flags hands on: a processor hands on what it has heard of, and not only what it did.
    Chains,
    /// Words of one processor beside words under locks, on the same pages.
    Sharing,
    /// Phases between barriers, in each of which a word has another owner.
    Barriers,
    /// Locks within locks, in rising order.
    Nested,
    /// Flags that several processors set: the loads after them may race.
    Flags,
    /// A processor that hears of nothing until the end.
    Silences,
    /// Most of these side by side: they may race.
    Mixed,
}

impl Pattern {
    /// Whether no script of this pattern races, whatever the order of its turns.
    pub fn never_races(self) -> bool
        ensures { result ≡ never_races_by_pattern self }
    {
        match self {
            Pattern::Free | Pattern::Flags | Pattern::Mixed => false,
            _ => true,
        }
    }

    /// Whether its scripts have flags.
    pub(crate) fn has_flags(self) -> bool
        ensures { result ≡ has_flags_by_pattern self }
    {
        match self {
            Pattern::Chains | Pattern::Flags => true,
            _ => false,
        }
    }
}
