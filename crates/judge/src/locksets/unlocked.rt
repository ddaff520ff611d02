//! Events where locks order nothing.
ghost use Rattle.std.specs.Prelude.{◌≡◌};
ghost use Rattle.judge.specs.Locksets.Prelude.{unlocked_event as an_unlocked_event};

use journal::{Event, Kind};

/// What is done by a lock's event where locks order nothing: nothing that another processor hears of.
const NOTHING_HEARD: Kind = Kind::Fetch {
    writers: 0,
    page: 0,
    records: 0,
    words: 0,
};

/// The event where locks order nothing.
pub(crate) fn unlocked_event(event: Event) -> Event
    ensures { result ≡ an_unlocked_event event }
{
    let kind = match event.kind {
        Kind::Ask(_) | Kind::Acquire(_) | Kind::Release(_) => NOTHING_HEARD,
        kind => kind,
    };
    Event {
        processor: event.processor,
        kind,
    }
}
