//! Calls that close the open interval.
ghost use Rattle.std.specs.Prelude.{◌≡◌, ◌≤◌, None, length, map};
ghost use Rattle.std.specs.Arc.{arc_value};
ghost use Rattle.std.specs.Result.{result_err};
ghost use Rattle.base.specs.Prelude.{most_in_block};
ghost use Rattle.journal.specs.Prelude.{closing_kind};
ghost use Rattle.interval.specs.Prelude.{SentIntervalPagesRise};
ghost use Rattle.book.specs.Prelude.{BookEndsClosed, HasClosedBeforeBookWaits, AllowsCallThatCloses, transition_closed, transition_handed_in};
ghost use Rattle.cluster.specs.Copies.Prelude.{AreHarvestsOfCopies};
ghost use Rattle.cluster.specs.Prelude.{processor_refusal_of_closing, MayCloseByCall, IsClosingCall};

use super::Cluster;
use crate::bells::Bells;
use crate::keeper::BookTurn;
use crate::processor::{Processor, clean, update_held_by_processor};
use book::{Book, Refused, Waiters};
use journal::{Closing, Event};
use page::Record;
use std::sync::{Arc, Wait};

impl<T: BookTurn> Cluster<T> {
    /// Hands the block in, closes the interval by this call, and from then on waits for what comes after it,
    /// if the processor may: as [`ask`](Cluster::ask), [`release`](Cluster::release), [`arrive`](Cluster::arrive),
    /// [`set`](Cluster::set) or [`watch`](Cluster::watch) does. The records are harvested before the book is entered.
    pub fn close<R: Wait>(
        &self,
        rt: &R,
        processor: &mut Processor<T>,
        closing: Closing,
    ) -> Result<(), Refused>
        requires own { processor.old.lock ≡ self.now.lock }
        ensures { IsClosingCall (processor_refusal_of_closing processor.old (closing_kind closing)) (closing_kind closing)
            processor.old processor.new (result_err result) }
    {
        processor.admit_closing(closing)?;
        if processor.chair.is_spent() {
            return Err(Refused::SeatSpent);
        }
        let records = processor.harvest()?;
        self.close_with(rt, processor, closing, records)
    }

    /// The same with these records.
    fn close_with<R: Wait>(
        &self,
        rt: &R,
        processor: &mut Processor<T>,
        closing: Closing,
        records: Vec<Arc<Record>>,
    ) -> Result<(), Refused>
        requires own { processor.old.lock ≡ self.now.lock }
        requires may { MayCloseByCall processor.old (closing_kind closing) }
        requires records { AreHarvestsOfCopies processor.old.copies (map arc_value records.items) }
        ensures { IsClosingCall None (closing_kind closing)
            processor.old processor.new (result_err result) }
    {
        let (held, mut book) = self.enter_book(rt, &mut processor.chair)?;
        let block = processor.block.as_slice();
        let closed = close_in_call(
            &mut book,
            &self.bells,
            processor.number,
            closing,
            block,
            records,
        );
        self.give_entered_book(&mut processor.chair, held, book);
        self.bells.tell(&closed?);
        processor.block.clear();
        clean(&mut processor.replicas, &mut processor.stored);
        processor.time.tick(processor.number);
        update_held_by_processor(&mut processor.held, closing.kind());
        processor.awaits = closing.awaits();
        Ok(())
    }
}

/// The book's part of a call that closes the interval of `p`. Answers whom it lets go on, who are to be
/// told after leaving.
fn close_in_call(
    book: &mut Book,
    bells: &Bells,
    p: usize,
    closing: Closing,
    block: &[Event],
    records: Vec<Arc<Record>>,
) -> Result<Waiters, Refused>
    requires call { AllowsCallThatCloses (closing_kind closing) book.old p block.now }
    requires short { length block.now ≤ most_in_block }
    requires rising { SentIntervalPagesRise (map arc_value records.items) }
    requires told { HasClosedBeforeBookWaits (transition_closed (closing_kind closing) (transition_handed_in book.old block.now) p
        (map arc_value records.items)) p (closing_kind closing) }
    ensures { BookEndsClosed block.now (λ b. transition_closed (closing_kind closing) b p (map arc_value records.items))
        book.old book.new result }
{
    let kind = closing.kind();
    book.close(p, closing, block, records)?;
    let waiters = book.let_on(p, kind);
    bells.ready(&waiters);
    Ok(waiters)
}
