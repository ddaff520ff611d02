//! What a history says of one processor.
ghost use Rattle.std.specs.Prelude.{◌≡◌, ◌↔◌, ◌+◌, ◌≤◌, ◌++◌, IfOk, IsTrue, length, vec_len, vec_capacity};
ghost use Rattle.journal.specs.Prelude.{event_closes, open_interval_contents, awaited_next, did, Holds};
ghost use Rattle.book.specs.Prelude.{IsAwaitedByBookStamps};
ghost use Rattle.test_memory.specs.Histories.Prelude.{IsHeldAfter};

use journal::{Event, Kind};
use std::alloc::{AllocError, Global};

/// What `p` waits for after this history.
pub(crate) fn awaited_by(history: &[Event], p: usize) -> Option<Kind>
    ensures { IsAwaitedByBookStamps history.now p result }
{
    let mut left = history.len();
    while left > 0 {
        left -= 1;
        let event = history[left];
        if event.processor == p {
            return awaited(event.kind);
        }
    }
    None
}

/// What comes next after a call that waits.
fn awaited(kind: Kind) -> Option<Kind>
    ensures { result ≡ awaited_next kind }
{
    match kind {
        Kind::Ask(lock) => Some(Kind::Acquire(lock)),
        Kind::Arrive => Some(Kind::Depart),
        Kind::Watch(flag) => Some(Kind::Await(flag)),
        _ => None,
    }
}

/// Whether `p` holds the lock after this history.
pub(crate) fn holds(history: &[Event], p: usize, lock: usize) -> bool
    ensures { IsTrue result ↔ Holds history.now p lock }
{
    let mut held = false;
    for event in history {
        held = held_after(held, *event, p, lock);
    }
    held
}

/// Whether `p` holds the lock after one more event.
fn held_after(held: bool, event: Event, p: usize, lock: usize) -> bool
    ensures { IsTrue result ↔ IsHeldAfter (IsTrue held) event p lock }
{
    let acquires = Event {
        processor: p,
        kind: Kind::Acquire(lock),
    };
    let releases = Event {
        processor: p,
        kind: Kind::Release(lock),
    };
    event == acquires || held && event != releases
}

/// The events of `p` since its last closing one: those of its open interval.
pub(crate) fn open_of(alloc: Global, history: &[Event], p: usize) -> Result<Vec<Event>, AllocError>
    ensures { IfOk result (λ es. es.items ≡ open_interval_contents history.now p) }
{
    let mut events = Vec::new(alloc);
    for event in history {
        if event.processor == p {
            if closes(event.kind) {
                events.clear();
            } else {
                events.push(*event)?;
            }
        }
    }
    Ok(events)
}

/// Whether such an event closes its processor's interval.
fn closes(kind: Kind) -> bool
    ensures { result ≡ event_closes kind }
{
    matches!(
        kind,
        Kind::Ask(_) | Kind::Release(_) | Kind::Arrive | Kind::Set(_) | Kind::Watch(_)
    )
}

/// Writes the events at the history's end, for which it has room.
pub(crate) fn note(history: &mut Vec<Event>, events: &[Event])
    requires { vec_len history.old + length events.now ≤ vec_capacity history.old }
    ensures items { history.new.items ≡ history.old.items ++ events.now }
    ensures len { vec_len history.new ≡ vec_len history.old + length events.now }
    ensures capacity { vec_capacity history.old ≤ vec_capacity history.new }
{
    let Ok(()) = history.extend_from_slice(events) else {
        unreachable!("room is reserved")
    };
}

/// Writes a block of `p` and what it does after it, for which the history has room.
pub(crate) fn note_closing(history: &mut Vec<Event>, block: &[Event], p: usize, kind: Kind)
    requires { vec_len history.old + length block.now + 1 ≤ vec_capacity history.old }
    ensures { history.new.items ≡ did (history.old.items ++ block.now) p kind }
{
    note(history, block);
    history.push_reserved(Event { processor: p, kind });
}
