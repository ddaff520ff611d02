//! The cluster, the book and the journal at hand, and what the lines do with them.
ghost use Rattle.std.specs.Prelude.{◌≤◌, ◌^◌};

use crate::answer::Said;
use crate::fault::ListFault;
use crate::kept::Kept;
use crate::line::Deed;
use crate::look::{Look, seen_of};
use crate::told_book::{BookAnswer, ToldBook};
use book::Refused;
use cluster::{BookTurn, Processor};
use journal::Journal;
use std::alloc::Global;
use std::sync::Wait;
use test_crews::crews::{Call, CallAnswer, Crew};
use test_memory::histories::Told;
use transit::Message;

/// The cluster and the book that are open, and the journal at hand.
#[derive(Drop)]
pub struct Desk<'r, T: BookTurn, R> {
    rt: &'r R,
    alloc: Global,
    again: bool,
    blind: bool,
    crew: Option<Crew<T>>,
    book: Option<ToldBook>,
    kept: Kept,
}

impl<'r, T: BookTurn + Drop, R: Wait> Desk<'r, T, R> {
    /// Nothing yet. What is refused memory is done once more if that is asked for, and nobody looks what a refused
    /// call changed if it is blind.
    pub fn new(rt: &'r R, alloc: Global, again: bool, blind: bool) -> Desk<'r, T, R> {
        Desk {
            rt,
            alloc,
            again,
            blind,
            crew: None,
            book: None,
            kept: Kept::Nothing,
        }
    }

    /// The journal at hand.
    pub fn journal(&self) -> Result<&Journal, ListFault> {
        self.kept.journal()
    }

    /// The processor with this number; None where there is none.
    pub fn processor(&self, p: usize) -> Result<Option<&Processor<T>>, ListFault> {
        match &self.crew {
            Some(crew) => Ok(crew.processor(p)),
            None => Err(ListFault::NoCluster),
        }
    }

    /// The book.
    pub fn told(&self) -> Result<&Told, ListFault> {
        match &self.book {
            Some(book) => Ok(book.told()),
            None => Err(ListFault::NoBook),
        }
    }

    /// Whether what is refused memory is done once more.
    pub fn again(&self) -> bool {
        self.again
    }

    /// Does the deed, and once more where it is refused memory and that is asked for.
    pub fn perform(&mut self, deed: Deed) -> Result<Said, ListFault>
        requires { T.ENTRIES ≤ 2 ^ 40 }
    {
        match self.attempt(deed) {
            Ok(Said::Refused(Refused::NoMemory)) if self.again => self.attempt(deed),
            outcome => outcome,
        }
    }

    /// Does the deed.
    fn attempt(&mut self, deed: Deed) -> Result<Said, ListFault>
        requires { T.ENTRIES ≤ 2 ^ 40 }
    {
        match deed {
            Deed::Open(sizes) => Ok(Said::of(self.open(sizes))),
            Deed::Make(p, call) => self.make(p, call),
            Deed::Finish => self.finish(),
            Deed::OpenBook(sizes) => Ok(Said::of(self.open_book(sizes))),
            Deed::EndBook => self.end_book(),
            Deed::Begin(processors, addresses) => Ok(Said::of(
                self.kept.begin(self.alloc, processors, addresses),
            )),
            Deed::Append(place, event) => self.kept.append(place, event),
            Deed::Cut => self.kept.cut(),
        }
    }

    /// Opens a cluster of these sizes in place of the one before.
    fn open(&mut self, sizes: [usize; 5]) -> Result<(), Refused>
        requires { T.ENTRIES ≤ 2 ^ 40 }
    {
        self.crew = None;
        self.crew = Some(Crew::new(self.alloc, sizes)?);
        Ok(())
    }

    /// Begins a book of these sizes in place of the one before.
    fn open_book(&mut self, sizes: [usize; 5]) -> Result<(), Refused> {
        self.book = None;
        self.book = Some(ToldBook::new(self.alloc, sizes)?);
        Ok(())
    }

    /// Ends the book, and keeps its journal.
    fn end_book(&mut self) -> Result<Said, ListFault> {
        match self.book.take() {
            Some(book) => {
                self.kept = Kept::Answered(book.into_journal());
                Ok(Said::Done)
            }
            None => Err(ListFault::NoBook),
        }
    }

    /// Makes a call of the book, and once more where it is refused memory and that is asked for. Answers the message that
    /// a take brings, and keeps the journal that an audit answers.
    pub fn tell(
        &mut self,
        p: usize,
        call: Call,
    ) -> Result<Result<Option<Message>, Refused>, ListFault> {
        let Some(book) = &mut self.book else {
            return Err(ListFault::NoBook);
        };
        let outcome = match book.call(p, call) {
            Err(Refused::NoMemory) if self.again => book.call(p, call),
            outcome => outcome,
        };
        Ok(match outcome {
            Ok(BookAnswer::Done) => Ok(None),
            Ok(BookAnswer::Came(message)) => Ok(Some(message)),
            Ok(BookAnswer::Copy(journal)) => {
                self.kept = Kept::Answered(journal);
                Ok(None)
            }
            Err(refused) => Err(refused),
        })
    }

    /// Makes the call. Where it is refused, it looks whether what is seen of its processor is as it was.
    fn make(&mut self, p: usize, call: Call) -> Result<Said, ListFault> {
        let before = self.seen(p)?;
        let outcome = self.call(p, call);
        self.compared(p, before, outcome)
    }

    /// The outcome of a call of the processor, compared with what was seen of it before where it is a refusal.
    fn compared(
        &self,
        p: usize,
        before: Option<Look>,
        outcome: Result<Said, ListFault>,
    ) -> Result<Said, ListFault> {
        match outcome {
            Ok(Said::Refused(refused)) => self.refused(p, before, refused),
            outcome => outcome,
        }
    }

    /// What is said of a refusal, by what was seen of the processor before.
    fn refused(&self, p: usize, before: Option<Look>, refused: Refused) -> Result<Said, ListFault> {
        if self.seen(p)? == before {
            Ok(Said::Refused(refused))
        } else {
            Ok(Said::Changed(refused))
        }
    }

    /// What can be seen of the processor; None if there is none, or if nobody looks.
    fn seen(&self, p: usize) -> Result<Option<Look>, ListFault> {
        match self.processor(p)? {
            Some(processor) if !self.blind => Ok(Some(seen_of(processor, self.alloc)?)),
            _ => Ok(None),
        }
    }

    /// Makes the call, and keeps the journal that it answers.
    fn call(&mut self, p: usize, call: Call) -> Result<Said, ListFault> {
        let Some(crew) = &mut self.crew else {
            return Err(ListFault::NoCluster);
        };
        match crew.call(self.rt, p, call) {
            Ok(CallAnswer::Done) => Ok(Said::Done),
            Ok(CallAnswer::Word(word)) => Ok(Said::Word(word)),
            Ok(CallAnswer::Copy(journal)) => {
                self.kept = Kept::Answered(journal);
                Ok(Said::Done)
            }
            Err(refused) => Ok(Said::Refused(refused)),
        }
    }

    /// Ends the cluster, and keeps its journal.
    fn finish(&mut self) -> Result<Said, ListFault> {
        match self.crew.take() {
            Some(crew) => {
                self.kept = Kept::Answered(crew.finish());
                Ok(Said::Done)
            }
            None => Err(ListFault::NoCluster),
        }
    }
}
