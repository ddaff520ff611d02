//! For what each processor waits at the end of a history that can't go on.

use causes::{Wait, final_waits, wait_circles, waits_for};
use judge::History;
use lrc_prose::text::ProseText;
use std::alloc::{AllocError, Global};

/// The end of a history: for what each processor waits there.
#[derive(Drop)]
pub struct Halted {
    /// Of each processor what it waits for.
    pub waits: Vec<Wait>,
    /// The circles of processors that wait for each other, each from its least processor on.
    circles: Vec<Vec<usize>>,
    /// Whether something was cut off.
    is_cut: bool,
}

/// Whether what is waited for can't come before another processor does something.
fn is_wait_in_vain(wait: &Wait) -> bool {
    match wait {
        Wait::Nothing => false,
        Wait::Lock {
            holder,
            earlier,
            ..
        } => holder.is_some() || !earlier.is_empty(),
        Wait::Flag { set, .. } => !*set,
        Wait::Barrier { absent } => !absent.is_empty(),
    }
}

/// Puts these processors, with commas between.
fn put_absent(text: &mut ProseText, absent: &[usize]) {
    let mut front = "p";
    for processor in absent {
        text.put_number(front, *processor);
        front = ", p";
    }
}

impl Halted {
    /// At the end of this history. The only error is running out of memory.
    pub fn of(alloc: Global, history: &History<'_>) -> Result<Halted, AllocError> {
        let waits = final_waits(alloc, history)?;
        let circles = wait_circles(alloc, &waits)?;
        Ok(Halted {
            waits,
            circles,
            is_cut: history.cut_events() > 0,
        })
    }

    /// Whether the processor waits.
    pub fn waits(&self, processor: usize) -> bool {
        !matches!(self.waits.get(processor), None | Some(Wait::Nothing))
    }

    /// The one processor that the processor waits for; None if it is none or more than one.
    pub fn waits_for(&self, processor: usize) -> Option<usize> {
        waits_for(&self.waits, processor)
    }

    /// The circle of which the processor is one, if there is one.
    fn circle(&self, processor: usize) -> Option<&[usize]> {
        for circle in &self.circles {
            if circle.contains(&processor) {
                return Some(circle);
            }
        }
        None
    }

    /// Whether the processor is in a circle, or waits for one that is, or for one that waits so.
    fn hangs(&self, processor: usize) -> bool {
        let mut at = processor;
        for _ in 0..self.waits.len() {
            if self.circle(at).is_some() {
                return true;
            }
            match self.waits_for(at) {
                Some(next) => at = next,
                None => return false,
            }
        }
        false
    }

    /// Whether each processor waits, and what it waits for has come for none.
    fn is_deadlock(&self) -> bool {
        self.waits.iter().all(|wait| is_wait_in_vain(wait))
    }

    /// Puts what the processor waits for.
    pub fn put_wait(&self, text: &mut ProseText, processor: usize) {
        match self.waits.get(processor) {
            Some(Wait::Lock { lock, holder, .. }) => {
                text.put_number("waits for lock ", *lock);
                self.put_holder(text, *holder);
            }
            Some(Wait::Barrier { absent }) => {
                text.put("waits at the barrier for ");
                put_absent(text, absent.as_slice());
            }
            Some(Wait::Flag { flag, .. }) => {
                text.put_number("waits for flag ", *flag);
                text.put(", which nobody has set, and nobody is left who does");
            }
            _ => text.put("waits for nothing"),
        }
    }

    /// Puts who holds a lock that is waited for.
    fn put_holder(&self, text: &mut ProseText, holder: Option<usize>) {
        match holder {
            Some(holder) => text.put_number(", held by p", holder),
            None if self.is_cut => text.put(", held since before the cut"),
            None => {}
        }
    }

    /// Puts what the processors of the circle wait for, in a line.
    fn put_circle(&self, text: &mut ProseText, circle: &[usize]) {
        for (index, processor) in circle.iter().enumerate() {
            if index == 0 {
                text.put_number("p", *processor);
                text.put(" ");
            } else {
                text.put(", which ");
            }
            self.put_wait(text, *processor);
        }
        text.put(": a circle");
        text.end_line();
    }

    /// Puts what the processor waits for, in a line. A circle is told at its least processor.
    fn put_processor(&self, text: &mut ProseText, processor: usize) {
        match self.circle(processor) {
            Some(circle) => {
                if circle.first() == Some(&processor) {
                    self.put_circle(text, circle);
                }
            }
            None => {
                text.put_number("p", processor);
                text.put(" ");
                self.put_wait(text, processor);
                text.end_line();
            }
        }
    }
}

/// Puts what each processor waits for at the end of the history of a run that can't go on. The only error is running out of memory.
pub fn put_halted_waits(
    text: &mut ProseText,
    alloc: Global,
    history: &History<'_>,
) -> Result<(), AllocError> {
    let halted = Halted::of(alloc, history)?;
    for processor in 0..halted.waits.len() {
        halted.put_processor(text, processor);
    }
    Ok(())
}

/// Puts who waits for whom at the end of a trace that can't go on, and an empty line: what each processor waits for, if what they
/// wait for has come for none; else those that wait for each other in a circle, and those that wait for one of these. Others may
/// go on after the trace's end, so nothing is told of them. The only error is running out of memory.
pub fn put_trace_waits(
    text: &mut ProseText,
    alloc: Global,
    history: &History<'_>,
) -> Result<(), AllocError> {
    let halted = Halted::of(alloc, history)?;
    let is_deadlock = halted.is_deadlock();
    let start = text.lines_len();
    for processor in 0..halted.waits.len() {
        if is_deadlock || halted.hangs(processor) {
            halted.put_processor(text, processor);
        }
    }
    if text.lines_len() > start {
        text.end_line();
    }
    Ok(())
}
