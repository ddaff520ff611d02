//! What each processor waits for if a schedule can't go on.

use crate::numbers::put_number;
use explore::Hang;
use journal::{Event, Kind};
use std::alloc::{AllocError, Global};

/// Who holds the lock after these events.
fn hanging_holder_after(events: &[Event], lock: usize) -> Option<usize> {
    let mut holder = None;
    for event in events {
        if event.kind == Kind::Acquire(lock) {
            holder = Some(event.processor);
        } else if event.kind == Kind::Release(lock) {
            holder = None;
        }
    }
    holder
}

/// How often the processor arrives among these events.
fn hanging_arrivals_of(events: &[Event], processor: usize) -> usize {
    events
        .iter()
        .filter(|event| event.processor == processor && event.kind == Kind::Arrive)
        .count()
}

/// Adds who holds the lock.
fn put_hanging_holder(text: &mut Vec<u8>, events: &[Event], lock: usize) -> Result<(), AllocError> {
    match hanging_holder_after(events, lock) {
        Some(holder) => put_number(text, b", held by processor ", holder as u64),
        None => Ok(()),
    }
}

/// Adds who hasn't arrived as often as the processor.
fn put_hanging_missing(
    text: &mut Vec<u8>,
    hang: &Hang,
    processor: usize,
) -> Result<(), AllocError> {
    let arrivals = hanging_arrivals_of(&hang.events, processor);
    let mut front: &[u8] = b" for processor ";
    for other in 0..hang.waits.len() {
        if hanging_arrivals_of(&hang.events, other) < arrivals {
            put_number(text, front, other as u64)?;
            front = b", processor ";
        }
    }
    Ok(())
}

/// Adds what this event would end.
fn put_hanging_awaited(
    text: &mut Vec<u8>,
    hang: &Hang,
    processor: usize,
    awaited: Kind,
) -> Result<(), AllocError> {
    match awaited {
        Kind::Acquire(lock) => {
            put_number(text, b" waits for lock ", lock as u64)?;
            put_hanging_holder(text, &hang.events, lock)
        }
        Kind::Await(flag) => {
            put_number(text, b" waits for flag ", flag as u64)?;
            text.extend_from_slice(b", which nobody has set")
        }
        _ => {
            text.extend_from_slice(b" waits at the barrier")?;
            put_hanging_missing(text, hang, processor)
        }
    }
}

/// Adds a line for each processor that waits: what for.
fn put_hanging_waits(text: &mut Vec<u8>, hang: &Hang) -> Result<(), AllocError> {
    for (processor, awaited) in hang.waits.iter().enumerate() {
        if let Some(kind) = *awaited {
            put_number(text, b"processor ", processor as u64)?;
            put_hanging_awaited(text, hang, processor, kind)?;
            text.extend_from_slice(b"\n")?;
        }
    }
    Ok(())
}

/// A line for each processor that waits: what for. The only error is running out of memory.
pub fn hanging_waits_text(alloc: Global, hang: &Hang) -> Result<Vec<u8>, AllocError> {
    let mut text = Vec::new(alloc);
    put_hanging_waits(&mut text, hang)?;
    Ok(text)
}
