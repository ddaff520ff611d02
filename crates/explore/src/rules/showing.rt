//! What there is to say of what runs may show by the rules of the memory alone.
ghost use Rattle.std.specs.Prelude.{◌≡◌};
ghost use Rattle.explore.specs.AllowedUntil.{is_allowed_until_settled};

use crate::outcomes::showing::ShownRun;

/// What runs of a script may show by the rules of the memory, whatever the script.
#[derive(Drop)]
pub struct AllowedOutcomes {
    /// How many beginnings of runs were looked at.
    pub beginnings: usize,
    /// What the whole runs show that were met, each outcome once, with a run that shows it.
    pub outcomes: Vec<ShownRun>,
    /// Whether the rules allow nothing else.
    pub are_all: bool,
}

/// Whether the rules allow a run that ends with the words that were asked for.
#[derive(Drop)]
pub enum AllowedShowing {
    /// They allow this one.
    Shown(ShownRun),
    /// They allow none.
    Never,
    /// No such run was found, and the search was given up.
    Undecided,
}

/// What was found, and how long it took.
#[derive(Drop)]
pub struct AllowedUntil {
    /// How many beginnings of runs were looked at.
    pub beginnings: usize,
    pub showing: AllowedShowing,
}

impl AllowedUntil {
    /// Whether nothing is open: the search wasn't given up.
    pub fn is_settled(&self) -> bool
        ensures { result ≡ is_allowed_until_settled self.now.showing }
    {
        match &self.showing {
            AllowedShowing::Undecided => false,
            _ => true,
        }
    }
}
