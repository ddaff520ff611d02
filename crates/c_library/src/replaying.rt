//! A history is done to one flat memory.
ghost use Rattle.std.specs.Prelude.{◌≡◌, ◌≢◌, ◌+◌, ◌<◌, ◌≤◌, IfErr, IfOk, IfSome, IsSome, ◌↔◌, length, replicate};
ghost use Rattle.base.specs.Prelude.{most_held, most_processors};
ghost use Rattle.journal.specs.Base.{no_base};
ghost use Rattle.journal.specs.Prelude.{EventAddressesInRange, EventProcessorsInRange, Replays, memory_after};
ghost use Rattle.c_library.specs.Prelude.{IsCallFaultCode, IsGivenHistoryFault, IsGivenHistoryReplayTold, IsGivenHistoryReplayed};

use crate::call_fault::CallFault;
use crate::given::{GivenEvent, GivenSizes};
use crate::given_history::given_history;
use journal::{Event, Journal};
use std::alloc::{AllocError, Global};

/// The events in a journal of which nothing was cut off. The only error is running out of memory.
fn replaying_journal_of(
    alloc: Global,
    processors: usize,
    addresses: usize,
    events: &[Event],
) -> Result<Journal, AllocError>
    requires few { length events.now ≤ most_held }
    requires few_processors { processors ≤ most_processors }
    requires processors { EventProcessorsInRange processors events.now }
    requires addresses { EventAddressesInRange addresses events.now }
    ensures events { IfOk result (λ j. j.events ≡ events.now) }
    ensures base { IfOk result (λ j. j.base ≡ no_base addresses) }
{
    let mut journal = Journal::new(alloc, processors, addresses)?;
    journal.reserve(events.len())?;
    for event in events {
        journal.append(*event);
    }
    Ok(journal)
}

/// The words after the events are done to zeros; None if some load's reply isn't its word at that place. The only error is
/// running out of memory.
fn replay_events(
    alloc: Global,
    processors: usize,
    addresses: usize,
    events: &[Event],
) -> Result<Option<Vec<u32>>, AllocError>
    requires few { length events.now ≤ most_held }
    requires few_processors { processors ≤ most_processors }
    requires processors { EventProcessorsInRange processors events.now }
    requires addresses { EventAddressesInRange addresses events.now }
    ensures replays { IfOk result (λ o. IsSome o ↔ Replays (replicate addresses 0) events.now) }
    ensures memory { IfOk result (λ o. IfSome o (λ v. v.items ≡ memory_after (replicate addresses 0) events.now)) }
{
    let journal = replaying_journal_of(alloc, processors, addresses, events)?;
    journal.replay()
}

/// The words after the events, if all that was handed in is in range and the loads answer so.
fn replay(
    alloc: Global,
    sizes: GivenSizes,
    room: usize,
    events: &[GivenEvent],
) -> Result<Option<Vec<u32>>, CallFault>
    ensures told { IfOk result (IsGivenHistoryReplayed sizes room events.now) }
    ensures refused { IfErr result (IsGivenHistoryFault sizes room events.now) }
{
    let history = given_history(alloc, sizes, room, events)?;
    let words = replay_events(alloc, sizes.processors as usize, room, &history)?;
    Ok(words)
}

/// Does the events to one flat memory of zeros. If each load answers its word there, writes 1 to `replays` and the words at the
/// end to `memory`, else 0 to `replays` alone; answers 0. Else it answers the code of a fault, and writes nothing.
#[unsafe(no_mangle)]
pub extern "C" fn cevandle_replay_nonnull(
    alloc: Global,
    sizes: GivenSizes,
    events: &[GivenEvent],
    memory: &mut [u32],
    replays: &mut u32,
) -> u32
    ensures told { result ≡ 0 → IsGivenHistoryReplayTold sizes events.now memory.old memory.new replays.new }
    ensures refused { result ≢ 0 → IsCallFaultCode (IsGivenHistoryFault sizes (length memory.old) events.now) result }
    ensures memory_unwritten { result ≢ 0 → memory.new ≡ memory.old }
    ensures replays_unwritten { result ≢ 0 → replays.new ≡ replays.old }
{
    match replay(alloc, sizes, memory.len(), events) {
        Ok(Some(words)) => {
            memory.copy_from_slice(&words);
            *replays = 1;
            0
        }
        Ok(None) => {
            *replays = 0;
            0
        }
        Err(fault) => fault.code(),
    }
}
