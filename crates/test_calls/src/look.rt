//! What can be seen of a processor.

use cluster::{BookTurn, Processor};
use std::alloc::{AllocError, Global};
use vtime::VTime;

/// What can be seen of a processor.
#[derive(PartialEq, Drop)]
pub struct Look {
    words: Vec<u32>,
    marks: Vec<bool>,
    time: VTime,
    waiting: bool,
    room: usize,
}

/// The words of its valid copies.
fn words_of<T: BookTurn>(processor: &Processor<T>, alloc: Global) -> Result<Vec<u32>, AllocError> {
    let mut words = Vec::with_capacity(alloc, 4096)?;
    for page in 0..64 {
        if let Some(copy) = processor.page(page) {
            words.extend_from_slice(copy)?;
        }
    }
    Ok(words)
}

/// Which pages are valid, and which locks are held.
fn marks_of<T: BookTurn>(processor: &Processor<T>, alloc: Global) -> Result<Vec<bool>, AllocError> {
    let mut marks = Vec::with_capacity(alloc, 128)?;
    for number in 0..64 {
        marks.push(processor.is_valid(number))?;
        marks.push(processor.holds(number))?;
    }
    Ok(marks)
}

/// What can be seen of it.
fn seen_once<T: BookTurn>(processor: &Processor<T>, alloc: Global) -> Result<Look, AllocError> {
    Ok(Look {
        words: words_of(processor, alloc)?,
        marks: marks_of(processor, alloc)?,
        time: processor.timestamp().copy(),
        waiting: processor.waiting(),
        room: processor.room(),
    })
}

/// The same, also where one growth is refused.
pub fn seen_of<T: BookTurn>(processor: &Processor<T>, alloc: Global) -> Result<Look, AllocError> {
    match seen_once(processor, alloc) {
        Ok(look) => Ok(look),
        Err(_) => seen_once(processor, alloc),
    }
}
