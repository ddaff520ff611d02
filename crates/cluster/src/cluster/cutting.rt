//! Cuts.
ghost use Rattle.std.specs.Prelude.{◌≡◌, IfErr, OnErr, OnOk};
ghost use Rattle.std.specs.Result.{result_err};
ghost use Rattle.book.specs.Prelude.{WasBookCut};
ghost use Rattle.cluster.specs.Prelude.{IsCuttingCall, IsCuttingCallFault};

use super::Cluster;
use crate::keeper::BookTurn;
use crate::processor::Processor;
use book::{Book, Refused};
use std::sync::Wait;

impl<T: BookTurn> Cluster<T> {
    /// Cuts off the journal's events up to the last arrival of the last complete episode of the barrier. What was cut
    /// off stays the beginning of the history; the journal keeps the memory after it, who holds which lock, which
    /// flags are set, and what it cost. It hands nothing in, and a processor that waits may call it too.
    ///
    /// The first of these that applies: [`SeatSpent`](Refused::SeatSpent) if it has entered the book as
    /// often as it may, [`NoEpisode`](Refused::NoEpisode) exactly if no episode is complete in the journal,
    /// [`BaseFull`](Refused::BaseFull) exactly if more than 2^30 events would be cut off in all. Else
    /// [`Racy`](Refused::Racy) with the first race of the events to be cut off, by their places in the journal, or
    /// [`NoMemory`](Refused::NoMemory). A refused call leaves the processor as it was, except that it may have seen
    /// more of the journal.
    pub fn cut<R: Wait>(&self, rt: &R, processor: &mut Processor<T>) -> Result<(), Refused>
        requires own { processor.old.lock ≡ self.now.lock }
        ensures { IsCuttingCall processor.old processor.new (result_err result) }
    {
        let (held, mut book) = self.enter_book(rt, &mut processor.chair)?;
        let cut = cluster_cut_off(&mut book);
        self.give_entered_book(&mut processor.chair, held, book);
        cut?;
        Ok(())
    }
}

/// The book's part of a cut, and the refusal that a call answers.
fn cluster_cut_off(book: &mut Book) -> Result<(), Refused>
    ensures ok { OnOk result (WasBookCut book.old book.new) }
    ensures err { OnErr result (book.new ≡ book.old) }
    ensures fault { IfErr result (λ e. IsCuttingCallFault book.old.journal e) }
{
    book.cut()?;
    Ok(())
}
