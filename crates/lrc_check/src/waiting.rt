//! Who waits at the end of a trace, and who wait for each other.

use crate::checked::TraceVerdict;
use crate::trace_history::trace_history_sizes;
use crate::traces::trace::TraceSizes;
use base::MOST_HELD;
use causes::{Wait, final_waits};
use journal::{Event, Kind};
use judge::{History, MOST_JUDGED_PROCESSORS};
use std::alloc::{AllocError, Global};

/// Whether a processor waits after this.
fn does_wait_after(kind: Kind) -> bool {
    matches!(kind, Kind::Ask(_) | Kind::Arrive | Kind::Watch(_))
}

/// Whether one of the processors waits at the end of these events. It looks from the end on, until it saw all of them.
fn does_anybody_wait(events: &[Event], processors: usize) -> bool {
    let mut is_seen = [false; MOST_JUDGED_PROCESSORS];
    let mut unseen = processors;
    for event in events.iter().rev() {
        if unseen == 0 {
            return false;
        }
        let Some(seen) = is_seen.get_mut(event.processor) else {
            continue;
        };
        if !*seen {
            if does_wait_after(event.kind) {
                return true;
            }
            *seen = true;
            unseen -= 1;
        }
    }
    false
}

/// Whether what is waited for can't come before another processor does something.
fn is_wait_in_vain(wait: &Wait) -> bool {
    match wait {
        Wait::Nothing => false,
        Wait::Lock { holder, .. } => holder.is_some(),
        Wait::Flag { set, .. } => !*set,
        Wait::Barrier { absent } => !absent.is_empty(),
    }
}

/// Leaves out what is waited for and could come.
fn leave_out_what_could_come(waits: &mut [Wait]) {
    for wait in waits {
        if !is_wait_in_vain(wait) {
            *wait = Wait::Nothing;
        }
    }
}

/// What each processor waits for in vain at the end of this history. The only error is running out of memory.
fn waits_in_vain(alloc: Global, history: &History<'_>) -> Result<Vec<Wait>, AllocError> {
    let mut waits = final_waits(alloc, history)?;
    leave_out_what_could_come(&mut waits);
    Ok(waits)
}

/// What each processor waits for in vain at the end of these events of a trace, if it is faithful by this verdict, somebody waits,
/// and they are no more than `MOST_HELD`; empty otherwise. The only error is running out of memory.
pub(crate) fn waits_at_end_of_trace(
    alloc: Global,
    sizes: TraceSizes,
    events: &[Event],
    verdict: &TraceVerdict,
) -> Result<Vec<Wait>, AllocError> {
    let TraceVerdict::Faithful { .. } = verdict else {
        return Ok(Vec::new(alloc));
    };
    if events.len() > MOST_HELD || !does_anybody_wait(events, sizes.processors) {
        return Ok(Vec::new(alloc));
    }
    match History::new(trace_history_sizes(sizes), events) {
        Some(history) => waits_in_vain(alloc, &history),
        None => Ok(Vec::new(alloc)),
    }
}

/// Adds some processors, with commas between them.
fn put_waiting_processors_text(
    text: &mut Vec<u8>,
    alloc: Global,
    processors: &[usize],
) -> Result<(), AllocError> {
    for (index, processor) in processors.iter().enumerate() {
        let front = if index == 0 { "p" } else { ", p" };
        let name = format!(in alloc; "{front}{processor}")?;
        text.extend_from_slice(name.as_bytes())?;
    }
    Ok(())
}

/// For what a processor waits at a lock.
fn waiting_lock_text(
    alloc: Global,
    lock: usize,
    holder: Option<usize>,
) -> Result<String, AllocError> {
    match holder {
        Some(holder) => format!(in alloc; " for lock {lock}, held by p{holder}"),
        None => format!(in alloc; " for lock {lock}"),
    }
}

/// Adds for what a processor waits.
fn put_wait_text(text: &mut Vec<u8>, alloc: Global, wait: &Wait) -> Result<(), AllocError> {
    match wait {
        Wait::Nothing => Ok(()),
        Wait::Lock { lock, holder, .. } => {
            let line = waiting_lock_text(alloc, *lock, *holder)?;
            text.extend_from_slice(line.as_bytes())
        }
        Wait::Flag { flag, .. } => {
            let line = format!(in alloc; " for flag {flag}, which nobody has set")?;
            text.extend_from_slice(line.as_bytes())
        }
        Wait::Barrier { absent } => {
            text.extend_from_slice(b" at the barrier for ")?;
            put_waiting_processors_text(text, alloc, absent)
        }
    }
}

/// Adds a line for each processor that waits, and says for what. `waits` has what each waits for.
fn put_each_wait_text(text: &mut Vec<u8>, alloc: Global, waits: &[Wait]) -> Result<(), AllocError> {
    for (processor, wait) in waits.iter().enumerate() {
        if !matches!(wait, Wait::Nothing) {
            let name = format!(in alloc; "waits p{processor}")?;
            text.extend_from_slice(name.as_bytes())?;
            put_wait_text(text, alloc, wait)?;
            text.push(b'\n')?;
        }
    }
    Ok(())
}

/// Adds a line for each processor that waits, and after these one for each of these circles of processors that wait for
/// each other.
/// `waits` has what each waits for.
pub(crate) fn put_waits_text(
    text: &mut Vec<u8>,
    alloc: Global,
    waits: &[Wait],
    circles: &[Vec<usize>],
) -> Result<(), AllocError> {
    put_each_wait_text(text, alloc, waits)?;
    for circle in circles {
        text.extend_from_slice(b"circle ")?;
        put_waiting_processors_text(text, alloc, circle)?;
        text.push(b'\n')?;
    }
    Ok(())
}
