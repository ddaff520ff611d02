//! How a call enters the book, and leaves it.
ghost use Rattle.std.specs.Prelude.{◌≡◌, ◌+◌, ◌<◌, IfOk, IfErr, List};
ghost use Rattle.turn.specs.Prelude.{lock, entries, IsChairOutside, IsChairInside};
ghost use Rattle.journal.specs.declared.event.Event.{Event};
ghost use Rattle.book.specs.Prelude.{BookState};
ghost use Rattle.cluster.specs.Copies.Prelude.{Local};
ghost use Rattle.cluster.specs.Prelude.{IsEnteringChairOf, IsEnteringCallOf, FindsBookOnEntering, HasEntered, HasEnteredAndLeft};

use super::Cluster;
use crate::keeper::{BookTurn, Looking, Rule};
use book::{Book, Refused};
use std::sync::Wait;
use turn::{Chair, Held, Spent};

impl<T: BookTurn> Cluster<T> {
    /// Waits for the chair's turn, and takes the book.
    ///
    /// [`SeatSpent`](Refused::SeatSpent) exactly if the chair has entered as often as it may.
    // It stands in its callers, since a take that comes too early does little else.
    #[inline(always)]
    pub(super) fn enter_book<R: Wait>(
        &self,
        rt: &R,
        chair: &mut Chair<Book, Rule>,
    ) -> Result<(Held, Book), Refused>
        requires own { lock chair.old ≡ self.now.lock }
        requires outside { IsChairOutside chair.old }
        ensures entered { IfOk result (λ r. HasEntered chair.old chair.new r.0 r.1) }
        ensures finds { IfOk result (λ r. FindsBookOnEntering chair.old r.1) }
        ensures spent { IfErr result (λ e. (e ≡ Refused.SeatSpent)
            × (entries chair.old ≡ (lock chair.old).limit) × (chair.new ≡ chair.old)) }
    {
        let turn = &self.turn;
        match turn.enter(rt, chair) {
            Ok(entered) => Ok(entered),
            Err(Spent) => Err(Refused::SeatSpent),
        }
    }

    /// Gives the book back, which the processor's call left so.
    pub(super) fn give_entered_book(&self, chair: &mut Chair<Book, Rule>, held: Held, book: Book)
        requires own { lock chair.old ≡ self.now.lock }
        requires call { (m : Local) × (found : BookState) × (es : List Event)
            × IsEnteringChairOf m chair.old × IsChairInside chair.old held found × IsEnteringCallOf m found es book }
        ensures { HasEnteredAndLeft chair.old chair.new held book }
    {
        let turn = &self.turn;
        turn.leave::<Looking>(chair, held, book);
    }
}
