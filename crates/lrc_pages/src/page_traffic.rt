//! What a history costs, by what its messages are for.
ghost use Rattle.std.specs.Prelude.{◌≡◌, ℕ, ◌+◌, ◌<◌, ◌^◌, [], ◌∷◌, ◌++◌, List, length};
ghost use Rattle.journal.specs.declared.event.Event.{Event};
ghost use Rattle.journal.specs.Prelude.{messages};
ghost use Rattle.lrc_pages.specs.Prelude.{ArePageCosts, IsPageCost, IsPageTraffic};

use journal::{Event, Kind};

/// What a history costs: messages, by what they are for, and what its fetches bring.
#[derive(Clone, Copy, Debug, Default, PartialEq, Eq)]
pub struct PageTraffic {
    /// Messages that hand locks over, two for each.
    pub locks: u64,
    /// Messages that tell of flags, two for each await.
    pub flags: u64,
    /// Messages to the barrier and from it, one for each arrival and each departure.
    pub barriers: u64,
    /// Messages of fetches, two for each processor whose records one brings.
    pub answers: u64,
    /// How many fetches there are.
    pub fetches: u64,
    /// The records that they bring.
    pub records: u64,
    /// The words of these records.
    pub words: u64,
}

/// What an event of this kind costs.
fn page_cost_of(kind: Kind) -> PageTraffic
    ensures cost { IsPageCost kind result }
    ensures few { ArePageCosts 1 result }
{
    let none = PageTraffic::default();
    match kind {
        Kind::Acquire(_) => PageTraffic { locks: 2, ..none },
        Kind::Await(_) => PageTraffic { flags: 2, ..none },
        Kind::Arrive | Kind::Depart => PageTraffic {
            barriers: 1,
            ..none
        },
        Kind::Fetch {
            writers,
            records,
            words,
            ..
        } => PageTraffic {
            answers: 2 * u64::from(writers),
            fetches: 1,
            records: u64::from(records),
            words: u64::from(words),
            ..none
        },
        _ => none,
    }
}

impl PageTraffic {
    /// The messages of all kinds.
    pub fn messages(&self) -> u64
        requires { (h : List Event) × (length h < 2 ^ 31) × IsPageTraffic h self.now × ArePageCosts (length h) self.now }
        ensures { (h : List Event) → IsPageTraffic h self.now → result ≡ messages h }
    {
        self.locks + self.flags + self.barriers + self.answers
    }

    /// Counts one more event, which comes next.
    pub(crate) fn count(&mut self, event: Event)
        requires { (h : List Event) × (length h < 2 ^ 31) × ArePageCosts (length h) self.old }
        ensures traffic { (h : List Event) → IsPageTraffic h self.old → IsPageTraffic (h ++ event ∷ []) self.new }
        ensures few { (h : List Event) → ArePageCosts (length h) self.old → ArePageCosts (length (h ++ event ∷ [])) self.new }
    {
        let cost = page_cost_of(event.kind);
        self.locks += cost.locks;
        self.flags += cost.flags;
        self.barriers += cost.barriers;
        self.answers += cost.answers;
        self.fetches += cost.fetches;
        self.records += cost.records;
        self.words += cost.words;
    }
}
