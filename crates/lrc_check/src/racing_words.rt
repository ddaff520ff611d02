//! The words of a history that race, each with its first race.
ghost use Rattle.std.specs.Prelude.{◌≡◌, ◌∷◌, ◌++◌, [], List, OnOk, length};
ghost use Rattle.journal.specs.declared.event.Event.{Event as AnEvent};
ghost use Rattle.journal.specs.Prelude.{event_address};
ghost use Rattle.judge.specs.Prelude.{IsNearestRaceTo};
ghost use Rattle.lrc_check.specs.Prelude.{AreRacingWords, IsRacingWordsOf, RacesNext};

use indexmap::IndexSet;
use journal::{Event, Kind};
use std::alloc::{AllocError, Global};

/// A word that races, and the places of the two accesses of its first race: the one that ends first, and of those that end with
/// the same access the one that begins last.
#[derive(Clone, Copy, Debug, PartialEq, Eq)]
pub struct RacingWord {
    pub address: usize,
    pub first: usize,
    pub second: usize,
}

/// The words of a history that race, which is taken an event at a time. It takes memory in the order of these words, and time in the
/// order of the events that race.
#[derive(Drop)]
pub struct RacingWords {
    /// In the order in which their first races end.
    words: Vec<RacingWord>,
    /// Their addresses.
    told: IndexSet<usize>,
}

/// The address that is accessed.
fn racing_address(kind: Kind) -> Option<usize>
    ensures { result ≡ event_address kind }
{
    match kind {
        Kind::Load(address, _) | Kind::Store(address, _) => Some(address),
        _ => None,
    }
}

impl RacingWords {
    /// Before the first event.
    pub(crate) fn new(alloc: Global) -> RacingWords
        ensures { IsRacingWordsOf [] result }
    {
        RacingWords {
            words: Vec::new(alloc),
            told: IndexSet::new(alloc),
        }
    }

    /// Keeps the word, with whose second access the event races that comes next, unless it is kept. The only error is running out of
    /// memory.
    fn keep(&mut self, word: RacingWord) -> Result<(), AllocError>
        ensures { OnOk result ((j : List AnEvent) (e : AnEvent) → RacesNext j e word → IsRacingWordsOf j self.old
            → IsRacingWordsOf (j ++ e ∷ []) self.new) }
    {
        if self.told.insert(word.address)? {
            self.words.push(word)?;
        }
        Ok(())
    }

    /// Takes note of the event, which comes next, at this place; `nearest` is the last event that races with it. The only error is
    /// running out of memory, after which it may tell no history.
    pub(crate) fn note(
        &mut self,
        event: Event,
        place: usize,
        nearest: Option<usize>,
    ) -> Result<(), AllocError>
        ensures { OnOk result ((j : List AnEvent) → length j ≡ place → IsNearestRaceTo j event nearest → IsRacingWordsOf j self.old
            → IsRacingWordsOf (j ++ event ∷ []) self.new) }
    {
        let Some(first) = nearest else {
            return Ok(());
        };
        let Some(address) = racing_address(event.kind) else {
            return Ok(());
        };
        self.keep(RacingWord {
            address,
            first,
            second: place,
        })
    }

    /// The words so far.
    pub(crate) fn so_far(&self) -> &[RacingWord]
        ensures { (j : List AnEvent) → IsRacingWordsOf j self.now → AreRacingWords j result.now }
    {
        &self.words
    }
}
