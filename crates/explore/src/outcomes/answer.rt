//! What there is to say of all runs of a script on one flat memory.
ghost use Rattle.std.specs.Prelude.{◌≡◌};
ghost use Rattle.explore.specs.Explored.{is_explored_settled};

use crate::state::wait_code::ProcessorNumber;
use journal::{Event, Kind};

/// Whether two accesses of a script race in some order.
#[derive(Drop)]
pub enum Verdict {
    /// No two accesses race, whatever the order.
    RaceFree,
    /// Two accesses can race.
    Racy(RacyEvents),
    /// No race was found, and the search was given up.
    Undecided,
}

/// Whether a script can't go on in some order, before it is done.
#[derive(Drop)]
pub enum Hanging {
    /// Whatever the order, each processor gets to its end.
    Never,
    /// After these events some processors wait for ever.
    Hangs(Hang),
    /// No hang was found, and not all states were looked at.
    Undecided,
}

/// What a whole run shows.
#[derive(Drop, PartialEq, Eq, Hash)]
pub struct ScriptOutcome {
    /// Of each processor, what those of its loads answered that are told, in order. The last ones of processor 0 show the words
    /// at the end: they are told by each detail.
    pub replies: Vec<Vec<u32>>,
}

/// What a whole run shows, and one such run.
#[derive(Drop)]
pub struct ShownOutcome {
    pub outcome: ScriptOutcome,
    /// Of each event of the run, in order, the processor that makes it.
    pub makers: Vec<ProcessorNumber>,
}

/// Events after which nothing can come, though not all processors are done.
#[derive(Drop)]
pub struct Hang {
    pub events: Vec<Event>,
    /// Of each processor, the event that would end its wait, if it waits.
    pub waits: Vec<Option<Kind>>,
}

/// Events of which the last one races with an earlier one.
#[derive(Drop)]
pub struct RacyEvents {
    pub events: Vec<Event>,
    /// The place of the earlier access.
    pub first: usize,
}

/// What was found, and how long it took: three answers, each of which is final unless it says that it isn't.
#[derive(Drop)]
pub struct Explored {
    /// How many states were found.
    pub states: usize,
    pub verdict: Verdict,
    pub hanging: Hanging,
    /// What the whole runs show that were met, each outcome once.
    pub outcomes: Vec<ShownOutcome>,
    /// Whether whole runs show nothing else.
    pub are_all: bool,
}

/// Of an outcome, the replies of the processor's own loads, and the words at so many shown addresses, which processor 0 loads at
/// the end.
pub fn explored_outcome_parts(
    replies: &[Vec<u32>],
    processor: usize,
    shown: usize,
) -> (&[u32], &[u32]) {
    let last = if processor == 0 { shown } else { 0 };
    match replies.get(processor) {
        Some(words) => words.split_at(words.len().saturating_sub(last)),
        None => (&[], &[]),
    }
}

impl Explored {
    /// Whether nothing is open: the script races, or it doesn't and all is known of its hangs and outcomes.
    pub fn is_settled(&self) -> bool
        ensures { result ≡ is_explored_settled self.now }
    {
        match (&self.verdict, &self.hanging) {
            (Verdict::Racy(_), _) => true,
            (Verdict::RaceFree, Hanging::Never | Hanging::Hangs(_)) => self.are_all,
            _ => false,
        }
    }
}
