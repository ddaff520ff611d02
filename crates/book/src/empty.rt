//! What a book is made of before the first call.
ghost use Rattle.std.specs.Prelude.{◌≡◌, ◌≤◌, IfOk, None, map, replicate};
ghost use Rattle.std.specs.Option.{option_map};
ghost use Rattle.base.specs.Prelude.{most_processors};
ghost use Rattle.journal.specs.Prelude.{new_log, closing_awaits_kind};
ghost use Rattle.interval.specs.Prelude.{KeptClosings};
ghost use Rattle.lockq.specs.LockQueues.{lock_queue_unheld};
ghost use Rattle.book.specs.Prelude.{transition_no_closings};

use interval::Closed;
use journal::{Awaited, Journal};
use lockq::Locks;
use std::alloc::{AllocError, Global};
use transit::Transit;
use vtime::VTime;

/// A journal with room for `owing` events, and no closed interval.
pub(crate) fn empty_history(
    alloc: Global,
    processors: usize,
    addresses: usize,
    owing: usize,
) -> Result<(Journal, Closed), AllocError>
    requires { processors ≤ most_processors }
    ensures journal { IfOk result (λ it. it.0 ≡ record (new_log processors addresses) { room = owing }) }
    ensures closed { IfOk result (λ it. it.1 ≡ transition_no_closings processors) }
{
    let mut journal = Journal::new(alloc, processors, addresses)?;
    journal.reserve(owing)?;
    Ok((journal, Closed::new(alloc, processors)?))
}

/// The processors' timestamps, and what they wait for, before their first calls.
pub(crate) fn empty_timestamps(
    alloc: Global,
    processors: usize,
) -> Result<(Vec<VTime>, Vec<Option<Awaited>>), AllocError>
    requires some { 1 ≤ processors }
    requires most { processors ≤ most_processors }
    ensures times { IfOk result (λ it. it.0.items ≡ replicate processors (replicate processors 0)) }
    ensures awaits { IfOk result (λ it. map (option_map closing_awaits_kind) it.1.items ≡ replicate processors None) }
{
    Ok((
        empty_times(alloc, processors)?,
        empty_places(alloc, processors)?,
    ))
}

/// Free locks, flags that are not set, and no message.
pub(crate) fn empty_locks(
    alloc: Global,
    processors: usize,
    locks: usize,
    flags: usize,
) -> Result<(Locks, Vec<Option<VTime>>, Transit), AllocError>
    requires some { 1 ≤ processors }
    requires most { processors ≤ most_processors }
    ensures processors { IfOk result (λ it. it.0.processors ≡ processors) }
    ensures locks { IfOk result (λ it. it.0.locks ≡ replicate locks (lock_queue_unheld processors)) }
    ensures flags { IfOk result (λ it. it.1.items ≡ replicate flags None) }
    ensures transit { IfOk result (λ it. it.2 ≡ replicate processors None) }
{
    let locks = Locks::new(alloc, locks, processors)?;
    let flags = empty_places(alloc, flags)?;
    Ok((locks, flags, Transit::new(alloc, processors)?))
}

/// A timestamp of no interval for each of `processors` processors.
fn empty_times(alloc: Global, processors: usize) -> Result<Vec<VTime>, AllocError>
    requires some { 1 ≤ processors }
    requires most { processors ≤ most_processors }
    ensures { IfOk result (λ all. all.items ≡ replicate processors (replicate processors 0)) }
{
    let mut all = Vec::with_capacity(alloc, processors)?;
    for _ in 0..processors {
        all.push(VTime::zero(alloc, processors))?;
    }
    Ok(all)
}

/// So many places that hold nothing.
fn empty_places<T: Drop>(alloc: Global, places: usize) -> Result<Vec<Option<T>>, AllocError>
    ensures { IfOk result (λ all. all.items ≡ replicate places None) }
{
    let mut all = Vec::with_capacity(alloc, places)?;
    for _ in 0..places {
        all.push(None)?;
    }
    Ok(all)
}
