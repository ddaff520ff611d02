//! Where the sections of a script use its words, locks and flags last.
ghost use Rattle.std.specs.Prelude.{◌<◌};
ghost use Rattle.base.specs.Prelude.{most_processors};

use base::{MOST_FLAGS, MOST_LOCKS, MOST_PROCESSORS};
use lrc_script::script::{Instruction, Script};
use std::alloc::{AllocError, Global};

/// Of words, locks or flags by their numbers: one more than the place of each processor's last instruction that uses it, 0 if it
/// has none.
#[derive(Drop)]
struct LastUses {
    rows: Vec<[usize; MOST_PROCESSORS]>,
}

/// Where the sections of a script use its words, locks and flags last.
#[derive(Drop)]
pub struct ScriptUses {
    stores: LastUses,
    asks: LastUses,
    sets: LastUses,
    awaits: LastUses,
    /// Of each flag how many instructions set it.
    setters: Vec<usize>,
}

impl LastUses {
    /// Of so many numbers, which nobody uses. The only error is running out of memory.
    fn none(alloc: Global, numbers: usize) -> Result<LastUses, AllocError> {
        let mut rows = Vec::new(alloc);
        for _ in 0..numbers {
            rows.push([0; MOST_PROCESSORS])?;
        }
        Ok(LastUses { rows })
    }

    /// The processor's instruction at this place uses the number.
    fn note(&mut self, number: usize, processor: usize, place: usize)
        requires { processor < most_processors }
    {
        if let Some(row) = self.rows.get_mut(number) {
            row[processor] = place.saturating_add(1);
        }
    }

    /// Whether an instruction of the processor uses the number, at this place or behind it.
    fn are_left(&self, number: usize, processor: usize, place: usize) -> bool
        requires { processor < most_processors }
    {
        match self.rows.get(number) {
            Some(row) => row[processor] > place,
            None => false,
        }
    }

    /// Whether another processor has an instruction that uses the number, at its place among these or behind it.
    fn are_left_to_others(
        &self,
        number: usize,
        processor: usize,
        places: &[usize; MOST_PROCESSORS],
    ) -> bool {
        for other in 0..MOST_PROCESSORS {
            if other != processor && self.are_left(number, other, places[other]) {
                return true;
            }
        }
        false
    }
}

impl ScriptUses {
    /// Of a script. The only error is running out of memory.
    pub fn of(alloc: Global, script: &Script) -> Result<ScriptUses, AllocError> {
        let mut uses = ScriptUses {
            stores: LastUses::none(alloc, script.pages.saturating_mul(script.words))?,
            asks: LastUses::none(alloc, MOST_LOCKS)?,
            sets: LastUses::none(alloc, MOST_FLAGS)?,
            awaits: LastUses::none(alloc, MOST_FLAGS)?,
            setters: Vec::new(alloc),
        };
        for _ in 0..MOST_FLAGS {
            uses.setters.push(0)?;
        }
        for processor in 0..MOST_PROCESSORS {
            uses.note_section(script, processor);
        }
        Ok(uses)
    }

    /// Takes note of the processor's section, if there is one.
    fn note_section(&mut self, script: &Script, processor: usize)
        requires { processor < most_processors }
    {
        if let Some(section) = script.sections.get(processor) {
            for (place, instruction) in section.iter().enumerate() {
                self.note(*instruction, processor, place);
            }
        }
    }

    /// Takes note of the processor's instruction at this place.
    fn note(&mut self, instruction: Instruction, processor: usize, place: usize)
        requires { processor < most_processors }
    {
        match instruction {
            Instruction::Store(address, _) | Instruction::Add(address, _) => {
                self.stores.note(address, processor, place)
            }
            Instruction::Acquire(lock) => self.asks.note(lock, processor, place),
            Instruction::Await(flag) => self.awaits.note(flag, processor, place),
            Instruction::Set(flag) => {
                self.sets.note(flag, processor, place);
                self.count_setter(flag);
            }
            _ => {}
        }
    }

    /// One instruction more sets the flag.
    fn count_setter(&mut self, flag: usize) {
        if let Some(setters) = self.setters.get_mut(flag) {
            *setters = setters.saturating_add(1);
        }
    }

    /// Whether several instructions set the flag, so that it matters in which order they and those that await it come.
    pub fn is_set_often(&self, flag: usize) -> bool {
        self.setters.get(flag).copied().unwrap_or(0) > 1
    }

    /// Whether others still store to the address, each from its place among these on.
    pub fn are_stores_left(
        &self,
        address: usize,
        processor: usize,
        places: &[usize; MOST_PROCESSORS],
    ) -> bool {
        self.stores.are_left_to_others(address, processor, places)
    }

    /// Whether others still ask for the lock.
    pub fn are_asks_left(
        &self,
        lock: usize,
        processor: usize,
        places: &[usize; MOST_PROCESSORS],
    ) -> bool {
        self.asks.are_left_to_others(lock, processor, places)
    }

    /// Whether others still set the flag.
    pub fn are_sets_left(
        &self,
        flag: usize,
        processor: usize,
        places: &[usize; MOST_PROCESSORS],
    ) -> bool {
        self.sets.are_left_to_others(flag, processor, places)
    }

    /// Whether others still begin to await the flag.
    pub fn are_awaits_left(
        &self,
        flag: usize,
        processor: usize,
        places: &[usize; MOST_PROCESSORS],
    ) -> bool {
        self.awaits.are_left_to_others(flag, processor, places)
    }
}
