//! The book at hand.

use book::Refused;
use journal::{Event, Journal, Kind};
use std::alloc::{AllocError, Global};
use test_crews::crews::Call;
use test_memory::histories::Told;
use transit::Message;

/// What a call of the book answers that isn't refused.
#[derive(Drop)]
pub enum BookAnswer {
    Done,
    Came(Message),
    Copy(Journal),
}

/// The book at hand, and the block that its next call hands in.
#[derive(Drop)]
pub struct ToldBook {
    told: Told,
    block: Vec<Event>,
}

/// Makes a call that isn't an access, after this block.
fn make(
    told: &mut Told,
    p: usize,
    call: Call,
    block: &[Event],
) -> Result<Option<Message>, Refused> {
    match call {
        Call::Take => return Ok(Some(told.take(p)?)),
        Call::Ask(lock) => told.ask(p, lock, block)?,
        Call::Release(lock) => told.release(p, lock, block)?,
        Call::Arrive => told.arrive(p, block)?,
        Call::Set(flag) => told.set(p, flag, block)?,
        Call::Watch(flag) => told.watch(p, flag, block)?,
        Call::Cut => told.cut()?,
        _ => told.hand_in(p, block)?,
    }
    Ok(None)
}

impl ToldBook {
    /// A new book of these sizes: processors, pages, words, locks and flags. The error is a bad size or running out of memory.
    pub fn new(alloc: Global, sizes: [usize; 5]) -> Result<ToldBook, Refused> {
        let [processors, pages, words, locks, flags] = sizes;
        if processors < 1
            || processors > 16
            || pages > 64
            || words < 1
            || words > 64
            || locks > 32
        {
            return Err(Refused::BadSize);
        }
        let told = Told::new(alloc, processors, pages, words, locks, flags)?;
        Ok(ToldBook {
            told,
            block: Vec::new(alloc),
        })
    }

    /// The book.
    pub fn told(&self) -> &Told {
        &self.told
    }

    /// Its journal.
    pub fn into_journal(self) -> Journal {
        self.told.into_journal()
    }

    /// Notes an access of the processor, which its next call hands in.
    fn note(&mut self, processor: usize, kind: Kind) -> Result<(), AllocError> {
        self.block.push(Event { processor, kind })?;
        Ok(())
    }

    /// Makes the call. One that is done hands the block in, but for a take and a cut.
    pub fn call(&mut self, p: usize, call: Call) -> Result<BookAnswer, Refused> {
        match call {
            Call::Load(address) => self.note(p, Kind::Load(address, 0))?,
            Call::Store(address, word) => self.note(p, Kind::Store(address, word))?,
            Call::Audit => return self.audit(p),
            _ => return self.hand_over(p, call),
        }
        Ok(BookAnswer::Done)
    }

    /// A copy of the journal, with the block.
    fn audit(&mut self, p: usize) -> Result<BookAnswer, Refused> {
        let copy = self.told.audit(p, &self.block)?;
        self.block.clear();
        Ok(BookAnswer::Copy(copy))
    }

    /// Makes a call that isn't an access.
    fn hand_over(&mut self, p: usize, call: Call) -> Result<BookAnswer, Refused> {
        match make(&mut self.told, p, call, &self.block)? {
            Some(message) => Ok(BookAnswer::Came(message)),
            None => {
                self.block.clear();
                Ok(BookAnswer::Done)
            }
        }
    }
}
