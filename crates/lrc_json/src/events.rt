//! An event as an object: its `place`, `processor` and `kind`, and what the kind names.
ghost use Rattle.lrc_json.specs.Prelude.{BecameMembers, HasItems, HasMembers, json_event, json_events, with_access_event, with_event, with_fetch_event, with_numbered_event};

use crate::members::{Members, Values};
use journal::{Event, Kind};
use std::alloc::Global;

/// Adds an access's address and word.
fn put_access_event_json(members: &mut Members, kind: &str, address: usize, word: u32)
    ensures { BecameMembers members.old members.new (with_access_event kind.now address word) }
{
    members.put_text("kind", kind);
    members.put_number("address", address);
    members.put_word("value", word);
}

/// Adds what a fetch brought.
fn put_fetch_event_json(members: &mut Members, page: usize, writers: u32, records: u32, words: u32)
    ensures { BecameMembers members.old members.new (with_fetch_event page writers records words) }
{
    members.put_text("kind", "fetch");
    members.put_number("page", page);
    members.put_word("writers", writers);
    members.put_word("records", records);
    members.put_word("words", words);
}

/// Adds a kind that names a lock or a flag, by this key.
fn put_numbered_event_json(members: &mut Members, kind: &str, key: &str, number: usize)
    ensures { BecameMembers members.old members.new (with_numbered_event kind.now key.now number) }
{
    members.put_text("kind", kind);
    members.put_number(key, number);
}

/// Adds what an event did.
fn put_event_kind_json(members: &mut Members, kind: Kind)
    ensures { BecameMembers members.old members.new (with_event kind) }
{
    match kind {
        Kind::Load(address, word) => put_access_event_json(members, "load", address, word),
        Kind::Store(address, word) => put_access_event_json(members, "store", address, word),
        Kind::Fetch {
            writers,
            page,
            records,
            words,
        } => put_fetch_event_json(members, page, writers, records, words),
        Kind::Ask(lock) => put_numbered_event_json(members, "ask", "lock", lock),
        Kind::Acquire(lock) => put_numbered_event_json(members, "acquire", "lock", lock),
        Kind::Release(lock) => put_numbered_event_json(members, "release", "lock", lock),
        Kind::Arrive => members.put_text("kind", "arrive"),
        Kind::Depart => members.put_text("kind", "depart"),
        Kind::Set(flag) => put_numbered_event_json(members, "set", "flag", flag),
        Kind::Watch(flag) => put_numbered_event_json(members, "watch", "flag", flag),
        Kind::Await(flag) => put_numbered_event_json(members, "await", "flag", flag),
    }
}

/// The event at this place, with its label, if it has one. Bytes of the label that are no UTF-8 become U+FFFD.
pub fn event_json(alloc: Global, place: usize, event: Event, label: &[u8]) -> Members
    ensures { HasMembers result (json_event place event label.now) }
{
    let mut members = Members::new(alloc);
    members.put_number("place", place);
    members.put_number("processor", event.processor);
    put_event_kind_json(&mut members, event.kind);
    if !label.is_empty() {
        members.put_string("label", String::from_utf8_lossy(alloc, label));
    }
    members
}

/// These events, without labels.
pub fn events_json(alloc: Global, events: &[Event]) -> Values
    ensures { HasItems result (json_events 0 events.now) }
{
    let mut list = Values::new(alloc);
    for (place, event) in events.iter().enumerate() {
        list.put_object(event_json(alloc, place, *event, b""));
    }
    list
}
