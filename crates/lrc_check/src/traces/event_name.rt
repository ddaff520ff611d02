//! What an event's line calls what the event did.
ghost use Rattle.std.specs.Prelude.{◌≡◌};
ghost use Rattle.lrc_check.specs.Traces.Prelude.{trace_name_of_word, trace_name_operand_count, trace_name_meaning};

use journal::Kind;

/// The name of what an event did.
#[derive(Clone, Copy)]
pub enum EventName {
    Load,
    Store,
    Fetch,
    Ask,
    Acquire,
    Release,
    Arrive,
    Depart,
    Set,
    Watch,
    Await,
}

impl EventName {
    /// The name that is written so.
    pub fn of(word: &[u8]) -> Option<EventName>
        ensures { result ≡ trace_name_of_word word.now }
    {
        if word == b"load".as_slice() {
            Some(EventName::Load)
        } else if word == b"store".as_slice() {
            Some(EventName::Store)
        } else if word == b"fetch".as_slice() {
            Some(EventName::Fetch)
        } else if word == b"ask".as_slice() {
            Some(EventName::Ask)
        } else if word == b"acquire".as_slice() {
            Some(EventName::Acquire)
        } else if word == b"release".as_slice() {
            Some(EventName::Release)
        } else if word == b"arrive".as_slice() {
            Some(EventName::Arrive)
        } else if word == b"depart".as_slice() {
            Some(EventName::Depart)
        } else if word == b"set".as_slice() {
            Some(EventName::Set)
        } else if word == b"watch".as_slice() {
            Some(EventName::Watch)
        } else if word == b"await".as_slice() {
            Some(EventName::Await)
        } else {
            None
        }
    }

    /// How many numbers stand behind it.
    pub fn numbers(self) -> usize
        ensures { result ≡ trace_name_operand_count self }
    {
        match self {
            EventName::Arrive | EventName::Depart => 0,
            EventName::Load | EventName::Store => 2,
            EventName::Fetch => 4,
            _ => 1,
        }
    }

    /// What an event of this name and these numbers did, where they are as many as stand behind the name.
    pub fn kind(self, numbers: &[u32]) -> Option<Kind>
        ensures { result ≡ trace_name_meaning self numbers.now }
    {
        match (self, numbers) {
            (EventName::Load, [a, v]) => Some(Kind::Load(*a as usize, *v)),
            (EventName::Store, [a, v]) => Some(Kind::Store(*a as usize, *v)),
            (EventName::Fetch, [n, w, r, d]) => Some(Kind::Fetch {
                writers: *w,
                page: *n as usize,
                records: *r,
                words: *d,
            }),
            (EventName::Ask, [l]) => Some(Kind::Ask(*l as usize)),
            (EventName::Acquire, [l]) => Some(Kind::Acquire(*l as usize)),
            (EventName::Release, [l]) => Some(Kind::Release(*l as usize)),
            (EventName::Arrive, []) => Some(Kind::Arrive),
            (EventName::Depart, []) => Some(Kind::Depart),
            (EventName::Set, [f]) => Some(Kind::Set(*f as usize)),
            (EventName::Watch, [f]) => Some(Kind::Watch(*f as usize)),
            (EventName::Await, [f]) => Some(Kind::Await(*f as usize)),
            _ => None,
        }
    }
}
