//! The orders of turns that may come to different outcomes on this memory, whether the script races or not.
//!
//! What loads return depends on happens-before, and on the order in which intervals are closed that stored to one word. So turns
//! are ordered only if both ask for one lock, or if one sets a flag that others set too and the other awaits it. They are also
//! ordered if both close an interval that stored to a word of the other's. Of the orders that differ by exchanges of other neighbours one is looked at
//! (sleep sets: Godefroid, *Partial-Order Methods for the Verification of Concurrent Systems*, 1996, chapter 5).
ghost use Rattle.std.specs.Prelude.{◌<◌, IfSome};
ghost use Rattle.base.specs.Prelude.{most_processors};

use crate::memory::uses::ScriptUses;
use base::{MOST_FLAGS, MOST_PROCESSORS};
use conformance::{MOST_TURNS, Schedule};
use lrc_script::script::{Instruction, Script};
use std::alloc::{AllocError, Global};
use std::mem;

/// What a processor waits for.
#[derive(Clone, Copy, PartialEq, Eq)]
enum Awaited {
    Nothing,
    Lock(usize),
    Flag(usize),
    Barrier,
}

/// An ask for a lock that wasn't given back yet.
#[derive(Clone, Copy)]
struct LockAsk {
    lock: usize,
    processor: usize,
}

/// A store to a word to which others store too, by an interval that isn't closed yet.
#[derive(Clone, Copy)]
struct OpenStore {
    address: usize,
    processor: usize,
}

/// What of a turn it depends on which turns of others come before it.
#[derive(Clone, Copy)]
enum Ordered {
    Nothing,
    Ask(usize),
    Set(usize),
    Await(usize),
}

/// The next turn of a processor: what is ordered of it, and whether it closes an interval.
#[derive(Clone, Copy)]
struct Turn {
    ordered: Ordered,
    closes: bool,
}

/// Turns that begin a run of a script, and how far they have come.
#[derive(Drop)]
pub struct Order {
    turns: Vec<usize>,
    /// Of each processor the place of its next instruction.
    places: [usize; MOST_PROCESSORS],
    awaited: [Awaited; MOST_PROCESSORS],
    /// Of each processor how often it has arrived.
    arrivals: [usize; MOST_PROCESSORS],
    /// Of each lock the first one holds it.
    asks: Vec<LockAsk>,
    set: [bool; MOST_FLAGS],
    open: Vec<OpenStore>,
    /// Whose next turn was looked at before, with all that follows, in another order.
    asleep: [bool; MOST_PROCESSORS],
}

/// Whether turns of two processors may be exchanged, but for the intervals that they close.
fn are_ordered_apart(first: Ordered, second: Ordered) -> bool {
    match (first, second) {
        (Ordered::Ask(lock), Ordered::Ask(other)) => lock != other,
        (Ordered::Set(flag), Ordered::Await(other)) => flag != other,
        (Ordered::Await(flag), Ordered::Set(other)) => flag != other,
        _ => true,
    }
}

/// The turn that begins an instruction; the closing barrier stands behind the last one.
fn turn_that_begins(instruction: Instruction) -> Turn {
    let ordered = match instruction {
        Instruction::Acquire(lock) => Ordered::Ask(lock),
        Instruction::Set(flag) => Ordered::Set(flag),
        Instruction::Await(flag) => Ordered::Await(flag),
        _ => Ordered::Nothing,
    };
    let closes = match instruction {
        Instruction::Load(..) | Instruction::Store(..) | Instruction::Add(..) | Instruction::Cut =>
            false,
        _ => true,
    };
    Turn { ordered, closes }
}

impl Order {
    /// Before the first turn.
    pub fn new(alloc: Global) -> Order {
        Order {
            turns: Vec::new(alloc),
            places: [0; MOST_PROCESSORS],
            awaited: [Awaited::Nothing; MOST_PROCESSORS],
            arrivals: [0; MOST_PROCESSORS],
            asks: Vec::new(alloc),
            set: [false; MOST_FLAGS],
            open: Vec::new(alloc),
            asleep: [false; MOST_PROCESSORS],
        }
    }

    /// The same turns once more. The only error is running out of memory.
    fn copy(&self) -> Result<Order, AllocError> {
        Ok(Order {
            turns: self.turns.clone()?,
            places: self.places,
            awaited: self.awaited,
            arrivals: self.arrivals,
            asks: self.asks.clone()?,
            set: self.set,
            open: self.open.clone()?,
            asleep: self.asleep,
        })
    }

    /// The instruction that the processor begins next; None behind the closing barrier, and of no processor.
    fn instruction(&self, script: &Script, processor: usize) -> Option<Instruction>
        requires { processor < most_processors }
    {
        let section = script.sections.get(processor)?;
        let place = self.places[processor];
        match section.get(place) {
            Some(instruction) => Some(*instruction),
            None if place == section.len() => Some(Instruction::Barrier),
            None => None,
        }
    }

    /// Whether the processor's ask for the lock is the first one.
    fn holds(&self, processor: usize, lock: usize) -> bool {
        for ask in &self.asks {
            if ask.lock == lock {
                return ask.processor == processor;
            }
        }
        false
    }

    /// Whether the flag is set.
    fn is_set(&self, flag: usize) -> bool {
        self.set.get(flag).copied().unwrap_or(false)
    }

    /// Whether so many processors have arrived as often as this one.
    fn have_arrived(&self, processors: usize, processor: usize) -> bool
        requires { processor < most_processors }
    {
        let own = self.arrivals[processor];
        self.arrivals
            .iter()
            .take(processors)
            .all(|other| *other >= own)
    }

    /// Whether what the processor waits for has come.
    fn has_come(&self, script: &Script, processor: usize) -> bool
        requires { processor < most_processors }
    {
        match self.awaited[processor] {
            Awaited::Nothing => true,
            Awaited::Lock(lock) => self.holds(processor, lock),
            Awaited::Flag(flag) => self.is_set(flag),
            Awaited::Barrier => self.have_arrived(script.sections.len(), processor),
        }
    }

    /// The turn that the processor may have next; None if it waits or has ended.
    fn turn(&self, script: &Script, processor: usize) -> Option<Turn>
        requires { processor < most_processors }
    {
        if !self.has_come(script, processor) {
            return None;
        }
        let ordered = match self.awaited[processor] {
            Awaited::Nothing => {
                let instruction = self.instruction(script, processor)?;
                return Some(turn_that_begins(instruction));
            }
            Awaited::Flag(flag) => Ordered::Await(flag),
            _ => Ordered::Nothing,
        };
        Some(Turn {
            ordered,
            closes: false,
        })
    }

    /// Whether the processor has a store to the address that isn't closed.
    fn has_open(&self, processor: usize, address: usize) -> bool {
        self.open.iter().any(|store| store.processor == processor && store.address == address)
    }

    /// Whether another processor has a store to the address that isn't closed.
    fn have_others_open(&self, processor: usize, address: usize) -> bool {
        self.open.iter().any(|store| store.processor != processor && store.address == address)
    }

    /// Whether another processor waits for the flag.
    fn do_others_await(&self, processor: usize, flag: usize) -> bool {
        for other in 0..MOST_PROCESSORS {
            if other != processor && self.awaited[other] == Awaited::Flag(flag) {
                return true;
            }
        }
        false
    }

    /// Whether some later turn of another processor may be ordered with this one of the processor, intervals aside.
    fn is_ordered(&self, uses: &ScriptUses, processor: usize, ordered: Ordered) -> bool {
        match ordered {
            Ordered::Nothing => false,
            Ordered::Ask(lock) => uses.are_asks_left(lock, processor, &self.places),
            Ordered::Set(flag) => uses.is_set_often(flag)
                && (self.do_others_await(processor, flag)
                    || uses.are_awaits_left(flag, processor, &self.places)),
            Ordered::Await(flag) => uses.is_set_often(flag)
                && uses.are_sets_left(flag, processor, &self.places),
        }
    }

    /// Whether others store, or have stored in intervals that aren't closed, to a word of the processor's open interval.
    fn is_interval_ordered(&self, uses: &ScriptUses, processor: usize) -> bool {
        for store in &self.open {
            if store.processor == processor
                && (uses.are_stores_left(store.address, processor, &self.places)
                    || self.have_others_open(processor, store.address))
            {
                return true;
            }
        }
        false
    }

    /// Whether the turn of the processor may as well come before all that others still do.
    fn is_free(&self, uses: &ScriptUses, processor: usize, turn: Turn) -> bool {
        !self.is_ordered(uses, processor, turn.ordered)
            && !(turn.closes && self.is_interval_ordered(uses, processor))
    }

    /// The first processor whose next turn is free.
    fn first_free(&self, script: &Script, uses: &ScriptUses) -> Option<usize>
        ensures { IfSome result (λ p. p < most_processors) }
    {
        for processor in 0..MOST_PROCESSORS {
            if let Some(turn) = self.turn(script, processor) {
                if self.is_free(uses, processor, turn) {
                    return Some(processor);
                }
            }
        }
        None
    }

    /// Whether open intervals of the two processors stored to one word.
    fn have_common_open(&self, processor: usize, other: usize) -> bool {
        for store in &self.open {
            if store.processor == processor && self.has_open(other, store.address) {
                return true;
            }
        }
        false
    }

    /// Whether the next turns of two processors may be exchanged.
    fn are_apart(&self, processor: usize, turn: Turn, other: usize, other_turn: Turn) -> bool {
        are_ordered_apart(turn.ordered, other_turn.ordered)
            && !(turn.closes && other_turn.closes && self.have_common_open(processor, other))
    }

    /// The processor's open interval is closed.
    fn close(&mut self, processor: usize) {
        self.open.retain(|store| store.processor != processor);
    }

    /// The processor stores to the address.
    fn store(
        &mut self,
        uses: &ScriptUses,
        processor: usize,
        address: usize,
    ) -> Result<(), AllocError> {
        if uses.are_stores_left(address, processor, &[0; MOST_PROCESSORS])
            && !self.has_open(processor, address)
        {
            self.open.push(OpenStore { address, processor })?;
        }
        Ok(())
    }

    /// The processor begins this instruction.
    fn begin(
        &mut self,
        uses: &ScriptUses,
        processor: usize,
        instruction: Instruction,
    ) -> Result<(), AllocError>
        requires { processor < most_processors }
    {
        match instruction {
            Instruction::Load(_) | Instruction::Cut => {}
            Instruction::Store(address, _) | Instruction::Add(address, _) => {
                self.store(uses, processor, address)?;
            }
            Instruction::Acquire(lock) => {
                self.close(processor);
                self.asks.push(LockAsk { lock, processor })?;
                self.awaited[processor] = Awaited::Lock(lock);
            }
            Instruction::Release(lock) => {
                self.close(processor);
                self.asks
                    .retain(|ask| ask.lock != lock || ask.processor != processor);
            }
            Instruction::Barrier => {
                self.close(processor);
                self.arrivals[processor] = self.arrivals[processor].saturating_add(1);
                self.awaited[processor] = Awaited::Barrier;
            }
            Instruction::Set(flag) => {
                self.close(processor);
                if let Some(set) = self.set.get_mut(flag) {
                    *set = true;
                }
            }
            Instruction::Await(flag) => {
                self.close(processor);
                self.awaited[processor] = Awaited::Flag(flag);
            }
        }
        Ok(())
    }

    /// The processor has its turn, which `turn` tells. What it waits for it takes in the turn in which it began to, if that has come.
    fn advance(
        &mut self,
        script: &Script,
        uses: &ScriptUses,
        processor: usize,
    ) -> Result<(), AllocError>
        requires { processor < most_processors }
    {
        self.turns.push(processor)?;
        self.asleep[processor] = false;
        if self.awaited[processor] == Awaited::Nothing {
            if let Some(instruction) = self.instruction(script, processor) {
                self.places[processor] = self.places[processor].saturating_add(1);
                self.begin(uses, processor, instruction)?;
            }
        }
        if self.has_come(script, processor) {
            self.awaited[processor] = Awaited::Nothing;
        }
        Ok(())
    }

    /// Has all turns that are free. Answers whether it goes on: not if one of these is asleep, since all that follows was looked at then.
    pub fn advance_freely(
        &mut self,
        script: &Script,
        uses: &ScriptUses,
    ) -> Result<bool, AllocError> {
        for _ in 0..MOST_TURNS {
            let Some(processor) = self.first_free(script, uses) else {
                return Ok(true);
            };
            if self.asleep[processor] {
                return Ok(false);
            }
            self.advance(script, uses, processor)?;
        }
        Ok(true)
    }

    /// Whether each processor has ended.
    pub fn is_whole(&self, script: &Script) -> bool {
        for processor in 0..script.sections.len().min(MOST_PROCESSORS) {
            if self.awaited[processor] != Awaited::Nothing
                || self.instruction(script, processor).is_some()
            {
                return false;
            }
        }
        true
    }

    /// Who sleeps after this turn of the processor: those whose turns may be exchanged with it.
    fn keep_asleep(&mut self, script: &Script, processor: usize, turn: Turn) {
        for other in 0..MOST_PROCESSORS {
            if self.asleep[other] {
                self.asleep[other] = match self.turn(script, other) {
                    Some(other_turn) => self.are_apart(processor, turn, other, other_turn),
                    None => false,
                };
            }
        }
    }

    /// Adds the orders in which one turn more is had, of each processor that isn't asleep; then its turn sleeps in those behind.
    pub fn follow(
        &mut self,
        script: &Script,
        uses: &ScriptUses,
        pending: &mut Vec<Order>,
    ) -> Result<(), AllocError> {
        for processor in 0..MOST_PROCESSORS {
            if self.asleep[processor] {
                continue;
            }
            if let Some(turn) = self.turn(script, processor) {
                let mut next = self.copy()?;
                next.keep_asleep(script, processor, turn);
                next.advance(script, uses, processor)?;
                pending.push(next)?;
                self.asleep[processor] = true;
            }
        }
        Ok(())
    }

    /// The schedule of these turns.
    pub fn into_schedule(self) -> Schedule {
        let Order { turns, .. } = self;
        Schedule { turns }
    }
}
