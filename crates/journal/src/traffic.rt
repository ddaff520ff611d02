//! What a journal's events cost in messages, records and words.
ghost use Rattle.std.specs.Prelude.{◌≡◌, ◌+◌, ◌^◌, ◌<◌, ◌≤◌, length};
ghost use Rattle.base.specs.Prelude.{most_cut, most_held};
ghost use Rattle.journal.specs.Prelude.{AreKeptBaseStateCosts, messages, records, words, traffic_messages_of, traffic_records_of, traffic_words_fetched};

use crate::event::{Event, Kind};

/// Messages sent, and the records and words that fetches applied.
///
/// A hand-over of a lock or a flag costs two messages, an arrival or a departure one, and a fetch two
/// for each processor whose records it applies.
#[derive(Clone, Copy, Debug, Default, PartialEq, Eq)]
pub struct Traffic {
    pub messages: u64,
    pub records: u64,
    pub words: u64,
}

/// What one event costs.
pub(crate) fn event_traffic(kind: Kind) -> Traffic
    ensures messages { result.messages ≡ traffic_messages_of kind }
    ensures records { result.records ≡ traffic_records_of kind }
    ensures words { result.words ≡ traffic_words_fetched kind }
    ensures few { (result.messages < 2 ^ 33) × (result.records < 2 ^ 33) × (result.words < 2 ^ 33) }
{
    let messages = match kind {
        Kind::Acquire(_) | Kind::Await(_) => 2,
        Kind::Arrive | Kind::Depart => 1,
        Kind::Fetch { writers, .. } => 2 * u64::from(writers),
        _ => 0,
    };
    match kind {
        Kind::Fetch { records, words, .. } => Traffic {
            messages,
            records: u64::from(records),
            words: u64::from(words),
        },
        _ => Traffic {
            messages,
            records: 0,
            words: 0,
        },
    }
}

/// The traffic of the events cut off and of these, which are left.
pub(crate) fn traffic_after(spent: Traffic, events: &[Event]) -> Traffic
    requires few { length events.now ≤ most_held }
    requires spent { AreKeptBaseStateCosts most_cut spent }
    ensures messages { result.messages ≡ spent.messages + messages events.now }
    ensures records { result.records ≡ spent.records + records events.now }
    ensures words { result.words ≡ spent.words + words events.now }
{
    let left = traffic_of(events);
    Traffic {
        messages: spent.messages + left.messages,
        records: spent.records + left.records,
        words: spent.words + left.words,
    }
}

/// The traffic of these events, of which at most `MOST_HELD` may be, by the counts of their fetches. It takes no
/// memory.
pub fn traffic_of(events: &[Event]) -> Traffic
    requires { length events.now ≤ most_held }
    ensures messages { result.messages ≡ messages events.now }
    ensures records { result.records ≡ records events.now }
    ensures words { result.words ≡ words events.now }
    ensures few { AreKeptBaseStateCosts (length events.now) result }
{
    let mut traffic = Traffic::default();
    for event in events {
        let cost = event_traffic(event.kind);
        traffic.messages += cost.messages;
        traffic.records += cost.records;
        traffic.words += cost.words;
    }
    traffic
}
