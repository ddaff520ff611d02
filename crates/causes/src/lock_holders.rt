//! Which locks a processor holds, and who holds one.
ghost use Rattle.std.specs.Prelude.{◌≡◌, ◌≢◌, ◌↔◌, ℕ, ◌<◌, IsTrue, IfOk, MatchOption, Some, true, false, length, slice_index_or, take, vec_len};
ghost use Rattle.journal.specs.declared.event.Event.{Event};
ghost use Rattle.journal.specs.declared.event.Kind.TheVariants.{Acquire, Release};
ghost use Rattle.journal.specs.Events.{EventAt};
ghost use Rattle.journal.specs.Prelude.{Holds, event as an_event};
ghost use Rattle.causes.specs.Prelude.{AreThoseInFinalWait};

use journal::{Event, Kind};
use std::alloc::{AllocError, Global};

/// Whether the processor holds the lock right after this event; None where the event is neither an acquire nor a release of it
/// by the processor.
fn is_lock_held_by(event: Event, by: usize, lock: usize) -> Option<bool>
    ensures acquired { event ≡ an_event by (Acquire lock) ↔ (result ≡ Some true) }
    ensures released { event ≡ an_event by (Release lock) ↔ (result ≡ Some false) }
{
    if event.processor != by {
        return None;
    }
    match event.kind {
        Kind::Acquire(acquired) if acquired == lock => Some(true),
        Kind::Release(released) if released == lock => Some(false),
        _ => None,
    }
}

/// Whether the processor holds the lock. It looks from the end on.
fn is_lock_holder(events: &[Event], by: usize, lock: usize) -> bool
    ensures { IsTrue result ↔ Holds events.now by lock }
{
    for place in (0..events.len()).rev() {
        if let Some(held) = is_lock_held_by(events[place], by, lock) {
            return held;
        }
    }
    false
}

/// Marks the lock that the processor acquires by this event, or takes the mark away from what it releases.
fn mark_lock_of_holder(marks: &mut [bool], event: Event, by: usize)
    ensures long { length marks.new ≡ length marks.old }
    ensures acquired { (l : ℕ) → l < length marks.old → event ≡ an_event by (Acquire l) → IsTrue (slice_index_or marks.new l false) }
    ensures released { (l : ℕ) → l < length marks.old → event ≡ an_event by (Release l) → ¬ IsTrue (slice_index_or marks.new l false) }
    ensures kept { (l : ℕ) → event ≢ an_event by (Acquire l) → event ≢ an_event by (Release l)
        → slice_index_or marks.new l false ≡ slice_index_or marks.old l false }
{
    if event.processor != by {
        return;
    }
    match event.kind {
        Kind::Acquire(lock) if lock < marks.len() => marks[lock] = true,
        Kind::Release(lock) if lock < marks.len() => marks[lock] = false,
        _ => {}
    }
}

/// Of each of the first locks, so many of them, whether the processor holds it at the end of these events. The only error is
/// running out of memory.
fn marks_of_lock_holder(
    alloc: Global,
    events: &[Event],
    by: usize,
    locks: usize,
) -> Result<Vec<bool>, AllocError>
    ensures long { IfOk result (λ v. vec_len v ≡ locks) }
    ensures marks { IfOk result (λ v. (l : ℕ) → l < locks → IsTrue (slice_index_or v.items l false) ↔ Holds events.now by l) }
{
    let mut marks = vec![in alloc; false; locks]?;
    for place in 0..events.len() {
        mark_lock_of_holder(&mut marks, events[place], by);
    }
    Ok(marks)
}

/// Which of the first locks, so many of them, the processor holds at the end of these events, rising. The only error is
/// running out of memory.
///
/// It takes time and memory in the order of the locks, and time in that of the events.
pub fn locks_of_holder(
    alloc: Global,
    events: &[Event],
    by: usize,
    locks: usize,
) -> Result<Vec<usize>, AllocError>
    ensures { IfOk result (λ v. AreThoseInFinalWait (Holds events.now by) locks v.items) }
{
    let marks = marks_of_lock_holder(alloc, events, by, locks)?;
    let mut held = Vec::new(alloc);
    for lock in 0..locks {
        if marks[lock] {
            held.push(lock)?;
        }
    }
    Ok(held)
}

/// Which of the first locks, so many of them, the processor of the event at this place holds there, rising. The only error
/// is running out of memory.
pub(crate) fn locks_of_holder_at(
    alloc: Global,
    events: &[Event],
    place: usize,
    locks: usize,
) -> Result<Vec<usize>, AllocError>
    requires { place < length events.now }
    ensures { IfOk result (λ v. (e : Event) → EventAt events.now place e
        → AreThoseInFinalWait (Holds (take place events.now) e.processor) locks v.items) }
{
    locks_of_holder(alloc, &events[..place], events[place].processor, locks)
}

/// Who of the processors holds the lock.
pub(crate) fn lock_holder(processors: usize, events: &[Event], lock: usize) -> Option<usize>
    ensures { MatchOption result ((q : ℕ) → q < processors → ¬ Holds events.now q lock)
        (λ q. Holds events.now q lock) }
{
    for processor in 0..processors {
        if is_lock_holder(events, processor, lock) {
            return Some(processor);
        }
    }
    None
}
