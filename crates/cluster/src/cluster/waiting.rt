//! Calls by which a processor waits, and by which it says that others needn't wait for it.
ghost use Rattle.std.specs.Prelude.{◌≡◌, ◌↔◌, List};
ghost use Rattle.journal.specs.Prelude.{Sizes, Ready, IsDeadlock};
ghost use Rattle.journal.specs.declared.event.Event.{Event};
ghost use Rattle.book.specs.Prelude.{Represents, AllowsSomeTakeCall};
ghost use Rattle.cluster.specs.Prelude.{IsWaitingCall, waiting_call_answer};

use super::Cluster;
use crate::bells::Bells;
use crate::keeper::BookTurn;
use crate::processor::Processor;
use crate::waited::Waited;
use book::{Book, Refused};
use std::sync::Wait;

impl<T: BookTurn> Cluster<T> {
    /// Waits until what the processor awaits may have come, and takes nothing: a [`take`](Cluster::take) does. It answers
    /// at once if it awaits nothing, and otherwise enters the book once, as a take does, and looks. If that has
    /// come, or nothing can come any more, it answers so; else it pauses, and then sleeps, until it is told that something
    /// has come. It may answer [`MayHaveCome`](Waited::MayHaveCome) though nothing has.
    ///
    /// [`Stuck`](Waited::Stuck) exactly if the history that it finds is a deadlock: each processor waits, and what it
    /// waits for has come for none. No event can follow, so all later calls find the same; `flush`, `audit` and `cut` are
    /// answered as ever. [`Deserted`](Waited::Deserted) if each processor waits so or has [`ended`](Cluster::end).
    ///
    /// The only refusal is [`SeatSpent`](Refused::SeatSpent), exactly if it awaits something and has entered the book
    /// as often as it may. The processor stays as it was, except that it may have seen more of the journal.
    pub fn wait<R: Wait>(&self, rt: &R, processor: &mut Processor<T>) -> Result<Waited, Refused>
        requires own { processor.old.lock ≡ self.now.lock }
        ensures { IsWaitingCall processor.old processor.new result }
    {
        if !processor.waiting() {
            return Ok(Waited::MayHaveCome);
        }
        let (held, book) = self.enter_book(rt, &mut processor.chair)?;
        let found = look_while_waiting(&self.bells, &book, processor.number);
        self.give_entered_book(&mut processor.chair, held, book);
        Ok(settle_waiting(rt, &self.bells, processor.number, found))
    }

    /// Says that the processor with this number makes no more calls, so that nobody waits for it in vain: a thread that
    /// ends early says it, and code that could not start one. It waits for nothing, enters nothing and takes no memory.
    pub fn end(&self, processor: usize) {
        self.bells.end(processor);
    }
}

/// What processor `p` finds: an answer, or None if it has to sleep. If nothing has come it forgets what it was told.
fn look_while_waiting(bells: &Bells, book: &Book, p: usize) -> Option<Waited>
    requires call { AllowsSomeTakeCall book.now p }
    ensures stuck { (s : Sizes) (h : List Event) → Represents s h book.now
        → waiting_call_answer result ≡ Waited.Stuck ↔ IsDeadlock s h }
    ensures deserted { (s : Sizes) (h : List Event) → Represents s h book.now
        → waiting_call_answer result ≡ Waited.Deserted → ¬ Ready s h p }
{
    if book.is_ready(p) {
        return Some(Waited::MayHaveCome);
    }
    if book.is_deadlocked() {
        return Some(Waited::Stuck);
    }
    bells.forget(p);
    if bells.are_idle() {
        return Some(Waited::Deserted);
    }
    None
}

/// Answers what was found, and tells all others if nothing can come any more; or waits until `p` is told.
fn settle_waiting<R: Wait>(rt: &R, bells: &Bells, p: usize, found: Option<Waited>) -> Waited
    ensures { result ≡ waiting_call_answer found }
{
    match found {
        None => {
            bells.wait(rt, p);
            Waited::MayHaveCome
        }
        Some(Waited::MayHaveCome) => Waited::MayHaveCome,
        Some(last) => {
            bells.tell_all();
            last
        }
    }
}
