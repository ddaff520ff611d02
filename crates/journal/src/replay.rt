//! Replay on one flat memory.
ghost use Rattle.std.specs.Prelude.{◌≡◌, ◌↔◌, IfOk, IfSome, IsSome, IsTrue, length};
ghost use Rattle.base.specs.Prelude.{wrote};
ghost use Rattle.journal.specs.Prelude.{Replays, memory_after, replay_memory_write, AnswersReplayMemory, EventAddressInRange};
ghost use Rattle.journal.specs.Prelude.{EventAddressesInRange};

use crate::event::{Event, Kind};
use std::alloc::{AllocError, Global};

/// Does an event to the memory, and says whether a load's reply is its word.
fn replay_event(memory: &mut [u32], kind: Kind) -> bool
    requires { EventAddressInRange (length memory.old) kind }
    ensures memory { memory.new ≡ wrote memory.old (replay_memory_write kind) }
    ensures answers { IsTrue result ↔ AnswersReplayMemory memory.old kind }
{
    match kind {
        Kind::Store(address, value) => {
            memory[address] = value;
            true
        }
        Kind::Load(address, value) => memory[address] == value,
        _ => true,
    }
}

/// Does the events to the memory in their order, up to one whose reply isn't its word.
fn replay_events(memory: &mut [u32], events: &[Event]) -> bool
    requires { EventAddressesInRange (length memory.old) events.now }
    ensures replays { IsTrue result ↔ Replays memory.old events.now }
    ensures memory { IsTrue result → memory.new ≡ memory_after memory.old events.now }
{
    for event in events {
        if !replay_event(memory, event.kind) {
            return false;
        }
    }
    true
}

/// The memory after these events are done to it in their order, from the base; None if some load's
/// reply isn't its word at that place. The only error is running out of memory.
pub(crate) fn replay_of(
    alloc: Global,
    base: &[u32],
    events: &[Event],
) -> Result<Option<Vec<u32>>, AllocError>
    requires { EventAddressesInRange (length base.now) events.now }
    ensures replays { IfOk result (λ o. IsSome o ↔ Replays base.now events.now) }
    ensures memory { IfOk result (λ o. IfSome o (λ v. v.items ≡ memory_after base.now events.now)) }
{
    let mut memory = Vec::from_slice(alloc, base)?;
    if replay_events(&mut memory, events) {
        Ok(Some(memory))
    } else {
        Ok(None)
    }
}
