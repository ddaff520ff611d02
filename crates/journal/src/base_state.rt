//! What a journal keeps of the events that were cut off.
ghost use Rattle.std.specs.Prelude.{◌≡◌, ◌+◌, ◌*◌, ◌^◌, ◌<◌, ◌≤◌, [], IfOk, OnOk, length, vec_len};
ghost use Rattle.base.specs.Prelude.{most_cut, wrote};
ghost use Rattle.journal.specs.Prelude.{replay_memory_write, EventAddressInRange, EventAddressesInRange, traffic_messages_of, traffic_records_of};
ghost use Rattle.journal.specs.Prelude.{traffic_words_fetched, no_base, IsEpisodeBaseAfter, base_of_kept_state, AreKeptBaseStateCosts, IsKeptBaseState, kept_base_state_released};
ghost use Rattle.journal.specs.Prelude.{kept_state_holders_after, kept_state_flags_after, IsKeptBaseStateAfter};

use crate::event::{Event, Kind};
use crate::traffic::{Traffic, event_traffic};
use std::alloc::{AllocError, Global};

/// What is kept of the events that were cut off: how many there were, the memory after them, who holds
/// which lock (a processor and a lock), which flags are set, and what they cost.
#[derive(Drop)]
pub(crate) struct KeptBaseState {
    pub(crate) cut: u64,
    pub(crate) memory: Vec<u32>,
    holders: Vec<(usize, usize)>,
    flags: Vec<usize>,
    pub(crate) spent: Traffic,
}

/// Writes a store's word.
fn store(memory: &mut [u32], kind: Kind)
    requires { EventAddressInRange (length memory.old) kind }
    ensures { memory.new ≡ wrote memory.old (replay_memory_write kind) }
{
    match kind {
        Kind::Store(address, value) => memory[address] = value,
        _ => {}
    }
}

/// Takes the processor's hold of the lock out.
fn let_go(holders: &mut Vec<(usize, usize)>, processor: usize, lock: usize)
    ensures { holders.new.items ≡ kept_base_state_released holders.old.items processor lock }
{
    holders.retain(|held| !(held.0 == processor && held.1 == lock));
}

/// Takes note of who acquires or releases a lock. The only error is running out of memory.
fn hold(holders: &mut Vec<(usize, usize)>, event: Event) -> Result<(), AllocError>
    ensures { OnOk result (holders.new.items
        ≡ kept_state_holders_after holders.old.items event.processor event.kind) }
{
    match event.kind {
        Kind::Acquire(lock) => holders.push((event.processor, lock))?,
        Kind::Release(lock) => let_go(holders, event.processor, lock),
        _ => {}
    }
    Ok(())
}

/// Takes note of a flag that is set. The only error is running out of memory.
fn set(flags: &mut Vec<usize>, kind: Kind) -> Result<(), AllocError>
    ensures { OnOk result (flags.new.items ≡ kept_state_flags_after flags.old.items kind) }
{
    match kind {
        Kind::Set(flag) => {
            if !flags.contains(&flag) {
                flags.push(flag)?;
            }
        }
        _ => {}
    }
    Ok(())
}

impl KeptBaseState {
    /// The base while nothing is cut off. The only error is running out of memory.
    pub(crate) fn new(alloc: Global, addresses: usize) -> Result<KeptBaseState, AllocError>
        ensures base { IfOk result (λ k. base_of_kept_state k ≡ no_base addresses) }
        ensures kept { IfOk result (λ k. IsKeptBaseState addresses k) }
    {
        Ok(KeptBaseState {
            cut: 0,
            memory: vec![in alloc; 0u32; addresses]?,
            holders: Vec::new(alloc),
            flags: Vec::new(alloc),
            spent: Traffic::default(),
        })
    }

    /// The same in memory of its own. The only error is running out of memory.
    pub(crate) fn copy(&self) -> Result<KeptBaseState, AllocError>
        ensures { IfOk result (λ k. base_of_kept_state k ≡ base_of_kept_state self.now) }
    {
        let alloc = *self.memory.allocator();
        Ok(KeptBaseState {
            cut: self.cut,
            memory: Vec::from_slice(alloc, &self.memory)?,
            holders: Vec::from_slice(alloc, &self.holders)?,
            flags: Vec::from_slice(alloc, &self.flags)?,
            spent: self.spent,
        })
    }

    /// Takes note of one more event. The only error is running out of memory.
    fn note(&mut self, event: Event) -> Result<(), AllocError>
        requires few { self.old.cut < most_cut }
        requires spent { AreKeptBaseStateCosts self.old.cut self.old.spent }
        requires address { EventAddressInRange (length self.old.memory.items) event.kind }
        ensures after { OnOk result (IsKeptBaseStateAfter self.old event self.new) }
        ensures spent { OnOk result (AreKeptBaseStateCosts self.new.cut self.new.spent) }
    {
        hold(&mut self.holders, event)?;
        set(&mut self.flags, event.kind)?;
        store(&mut self.memory, event.kind);
        let cost = event_traffic(event.kind);
        self.spent.messages += cost.messages;
        self.spent.records += cost.records;
        self.spent.words += cost.words;
        self.cut += 1;
        Ok(())
    }

    /// What is kept after these events too. The only error is running out of memory.
    pub(crate) fn after(&self, events: &[Event]) -> Result<KeptBaseState, AllocError>
        requires few { self.now.cut + length events.now ≤ most_cut }
        requires spent { AreKeptBaseStateCosts self.now.cut self.now.spent }
        requires addresses { EventAddressesInRange (length self.now.memory.items) events.now }
        ensures after { IfOk result (λ k. IsEpisodeBaseAfter (base_of_kept_state self.now) events.now (base_of_kept_state k)) }
        ensures kept { IfOk result (λ k. IsKeptBaseState (length self.now.memory.items) k) }
    {
        let mut kept = self.copy()?;
        for event in events {
            kept.note(*event)?;
        }
        Ok(kept)
    }
}
