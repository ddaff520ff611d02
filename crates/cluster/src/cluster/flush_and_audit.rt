//! Calls that hand the open block in, and do no more.
ghost use Rattle.std.specs.Prelude.{◌≡◌, IfOk};
ghost use Rattle.std.specs.Result.{result_err};
ghost use Rattle.cluster.specs.Prelude.{IsProcessorHandingCall, IsFaithfulJournalAudit};

use super::Cluster;
use crate::keeper::BookTurn;
use crate::processor::Processor;
use book::Refused;
use journal::Journal;
use std::sync::Wait;

impl<T: BookTurn> Cluster<T> {
    /// Hands the processor's open block in, which is empty then.
    ///
    /// [`SeatSpent`](Refused::SeatSpent) if it has entered the book as often as it may. Else
    /// [`JournalFull`](Refused::JournalFull) exactly if the journal would have more than 2^20 events, and
    /// [`NoMemory`](Refused::NoMemory). A refused call leaves the processor as it was, except that it may have seen
    /// more of the journal.
    pub fn flush<R: Wait>(&self, rt: &R, processor: &mut Processor<T>) -> Result<(), Refused>
        requires own { processor.old.lock ≡ self.now.lock }
        ensures { IsProcessorHandingCall processor.old processor.new (result_err result) }
    {
        let (held, mut book) = self.enter_book(rt, &mut processor.chair)?;
        let handed = book.hand_in(processor.number, processor.block.as_slice());
        self.give_entered_book(&mut processor.chair, held, book);
        handed?;
        processor.block.clear();
        Ok(())
    }

    /// Hands the open block in as [`flush`](Cluster::flush) does, and answers a copy of the whole journal after it.
    pub fn audit<R: Wait>(&self, rt: &R, processor: &mut Processor<T>) -> Result<Journal, Refused>
        requires own { processor.old.lock ≡ self.now.lock }
        ensures call { IsProcessorHandingCall processor.old processor.new (result_err result) }
        ensures journal { IfOk result (λ j. IsFaithfulJournalAudit processor.old processor.new j) }
    {
        let (held, mut book) = self.enter_book(rt, &mut processor.chair)?;
        let audited = book.audit(processor.number, processor.block.as_slice());
        self.give_entered_book(&mut processor.chair, held, book);
        let journal = audited?;
        processor.block.clear();
        Ok(journal)
    }
}
