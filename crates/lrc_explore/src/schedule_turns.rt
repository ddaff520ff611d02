//! The turns by which a script comes to a run that a search has found.

use base::{MOST_FLAGS, MOST_LOCKS, MOST_PROCESSORS};
use conformance::Schedule;
use explore::ProcessorNumber;
use journal::Event;
use lrc_script::script::{Instruction, Script};
use std::alloc::{AllocError, Global};

/// The number at this place, 0 behind the end.
fn schedule_turn_count_at(counts: &[usize], place: usize) -> usize {
    match counts.get(place) {
        Some(count) => *count,
        None => 0,
    }
}

/// Puts a number at this place, if there is one.
fn put_schedule_turn_count(counts: &mut [usize], place: usize, count: usize) {
    if place < counts.len() {
        counts[place] = count;
    }
}

/// Whether the place is marked.
fn is_schedule_turn_marked(marks: &[bool], place: usize) -> bool {
    match marks.get(place) {
        Some(mark) => *mark,
        None => false,
    }
}

/// Marks the place or not, if there is one.
fn put_schedule_turn_mark(marks: &mut [bool], place: usize, mark: bool) {
    if place < marks.len() {
        marks[place] = mark;
    }
}

/// The place of the first instruction from this one on that is no cut; behind the last one stands the closing barrier.
fn schedule_turn_place_behind_cuts(section: &[Instruction], from: usize) -> usize {
    for place in from..section.len() {
        if section[place] != Instruction::Cut {
            return place;
        }
    }
    from.max(section.len())
}

/// What is left to do of the instruction that a processor has begun.
#[derive(Clone, Copy)]
enum Rest {
    Nothing,
    /// To take what it waits for.
    Take,
    /// To store the sum.
    Store,
}

/// The turns of the events so far, and how far these have come.
#[derive(Drop)]
struct ScheduleTurns {
    turns: Vec<usize>,
    /// Of each processor the place of its next instruction.
    next: [usize; MOST_PROCESSORS],
    rests: [Rest; MOST_PROCESSORS],
    /// Of each processor how often it has arrived.
    arrivals: [usize; MOST_PROCESSORS],
    /// Of each processor whether it took what it waits for in the turn in which it began to.
    ahead: [bool; MOST_PROCESSORS],
    /// Of each lock how many have asked for it and not given it back.
    askers: [usize; MOST_LOCKS],
    /// Of each flag whether it is set.
    set: [bool; MOST_FLAGS],
}

impl ScheduleTurns {
    /// Before the first event.
    fn new(alloc: Global) -> ScheduleTurns {
        ScheduleTurns {
            turns: Vec::new(alloc),
            next: [0; MOST_PROCESSORS],
            rests: [Rest::Nothing; MOST_PROCESSORS],
            arrivals: [0; MOST_PROCESSORS],
            ahead: [false; MOST_PROCESSORS],
            askers: [0; MOST_LOCKS],
            set: [false; MOST_FLAGS],
        }
    }

    /// What the processor has left to do of its instruction.
    fn rest_of(&self, processor: usize) -> Rest {
        match self.rests.get(processor) {
            Some(rest) => *rest,
            None => Rest::Nothing,
        }
    }

    /// Has the processor have this left to do.
    fn leave(&mut self, processor: usize, rest: Rest) {
        if processor < self.rests.len() {
            self.rests[processor] = rest;
        }
    }

    /// The turn in which the processor does or begins its next instruction, behind one for each cut before that.
    fn begin(&mut self, section: &[Instruction], processor: usize) -> Result<(), AllocError> {
        let from = schedule_turn_count_at(&self.next, processor);
        let place = schedule_turn_place_behind_cuts(section, from);
        for _ in from..place {
            self.turns.push(processor)?;
        }
        self.turns.push(processor)?;
        put_schedule_turn_count(&mut self.next, processor, place.saturating_add(1));
        Ok(())
    }

    /// The turn in which the processor takes what it waits for, if it didn't take it in the turn in which it began to.
    fn end(&mut self, processor: usize) -> Result<(), AllocError> {
        if !is_schedule_turn_marked(&self.ahead, processor) {
            self.turns.push(processor)?;
        }
        put_schedule_turn_mark(&mut self.ahead, processor, false);
        Ok(())
    }

    /// Whether so many processors have arrived as often as this one.
    fn have_arrived(&self, processors: usize, processor: usize) -> bool {
        let own = schedule_turn_count_at(&self.arrivals, processor);
        for other in 0..processors {
            if schedule_turn_count_at(&self.arrivals, other) < own {
                return false;
            }
        }
        true
    }

    /// Has the processor wait, which may go on at once or not.
    fn wait(&mut self, processor: usize, ahead: bool) {
        put_schedule_turn_mark(&mut self.ahead, processor, ahead);
        self.leave(processor, Rest::Take);
    }

    /// Takes note of what others wait for, and of whether the processor waits and may go on at once.
    fn note(&mut self, processors: usize, processor: usize, instruction: Instruction) {
        match instruction {
            Instruction::Acquire(lock) => {
                let askers = schedule_turn_count_at(&self.askers, lock);
                put_schedule_turn_count(&mut self.askers, lock, askers.saturating_add(1));
                self.wait(processor, askers == 0);
            }
            Instruction::Release(lock) => {
                let askers = schedule_turn_count_at(&self.askers, lock);
                put_schedule_turn_count(&mut self.askers, lock, askers.saturating_sub(1));
            }
            Instruction::Barrier => {
                let arrivals = schedule_turn_count_at(&self.arrivals, processor);
                put_schedule_turn_count(&mut self.arrivals, processor, arrivals.saturating_add(1));
                let ahead = self.have_arrived(processors, processor);
                self.wait(processor, ahead);
            }
            Instruction::Set(flag) => put_schedule_turn_mark(&mut self.set, flag, true),
            Instruction::Await(flag) => {
                let ahead = is_schedule_turn_marked(&self.set, flag);
                self.wait(processor, ahead);
            }
            _ => {}
        }
    }

    /// The next instruction of the processor: the closing barrier behind the last one, and None behind that.
    fn instruction(&self, section: &[Instruction], processor: usize) -> Option<Instruction> {
        let place = schedule_turn_place_behind_cuts(
            section,
            schedule_turn_count_at(&self.next, processor),
        );
        match section.get(place) {
            Some(instruction) => Some(*instruction),
            None if place == section.len() => Some(Instruction::Barrier),
            None => None,
        }
    }

    /// Adds the turn in which the processor begins its next instruction. Loads of shown words have none, and an addition has
    /// it at its store.
    fn add_first(
        &mut self,
        script: &Script,
        section: &[Instruction],
        processor: usize,
    ) -> Result<(), AllocError> {
        match self.instruction(section, processor) {
            Some(Instruction::Add(..)) => {
                self.leave(processor, Rest::Store);
                Ok(())
            }
            Some(instruction) => {
                self.begin(section, processor)?;
                self.note(script.sections.len(), processor, instruction);
                Ok(())
            }
            None => Ok(()),
        }
    }

    /// Adds the turn that makes the processor's next event, if one before it doesn't.
    fn add(&mut self, script: &Script, processor: usize) -> Result<(), AllocError> {
        let Some(section) = script.sections.get(processor) else {
            return Ok(());
        };
        match self.rest_of(processor) {
            Rest::Nothing => self.add_first(script, section, processor),
            Rest::Take => {
                self.leave(processor, Rest::Nothing);
                self.end(processor)
            }
            Rest::Store => {
                self.leave(processor, Rest::Nothing);
                self.begin(section, processor)
            }
        }
    }

    /// Adds the turn of an addition whose load was the processor's last event.
    fn add_begun(&mut self, processor: usize) -> Result<(), AllocError> {
        if let Rest::Store = self.rest_of(processor) {
            self.turns.push(processor)?;
        }
        Ok(())
    }
}

/// A schedule by which `step` runs the script as these events have it, of a run on one flat memory, or of what begins one. Each
/// turn stands where its event does, the second one of an addition; what a processor waits for it takes in the turn in which
/// it began to, if it can. The only error is running out of memory.
pub fn schedule_of_events(
    alloc: Global,
    script: &Script,
    events: &[Event],
) -> Result<Schedule, AllocError> {
    let mut turns = ScheduleTurns::new(alloc);
    for event in events {
        turns.add(script, event.processor)?;
    }
    if let Some(event) = events.last() {
        turns.add_begun(event.processor)?;
    }
    let ScheduleTurns { turns, .. } = turns;
    Ok(Schedule { turns })
}

/// The same of a whole run, by the processors that make its events. The only error is running out of memory.
pub fn schedule_of_makers(
    alloc: Global,
    script: &Script,
    makers: &[ProcessorNumber],
) -> Result<Schedule, AllocError> {
    let mut turns = ScheduleTurns::new(alloc);
    for maker in makers {
        turns.add(script, maker.processor())?;
    }
    let ScheduleTurns { turns, .. } = turns;
    Ok(Schedule { turns })
}
