//! Calls that take what a processor waits for.
ghost use Rattle.std.specs.Prelude.{◌≡◌, ◌≢◌, ◌↔◌, ◌⊎◌, ◌<◌, ◌≤◌, ◌+◌, Err, IfErr, IfOk, OnOk};
ghost use Rattle.std.specs.Prelude.{OnErr, List, length, vec_len};
ghost use Rattle.std.specs.Result.{result_err};
ghost use Rattle.base.specs.Prelude.{most_events, most_pages};
ghost use Rattle.journal.specs.Prelude.{Sizes, Ready};
ghost use Rattle.journal.specs.declared.event.Event.{Event};
ghost use Rattle.vtime.specs.TicksAndJoins.{join};
ghost use Rattle.transit.specs.Prelude.{letter};
ghost use Rattle.book.specs.Prelude.{brought_by_message, IsProcessorOfAllowedCall, AllowsSomeTakeCall, TransitionTakes, IsFullRefusal, IsRoomRefusal, Represents};
ghost use Rattle.cluster.specs.Copies.Prelude.{AreAfterNews, AreSameCopiesAfterNews, CopiesHaveRoomForNews, CopiesMayLackNews};
ghost use Rattle.cluster.specs.Prelude.{IsTakingCall, HasRoomForTakingCall};

use super::Cluster;
use crate::copies::Replica;
use crate::keeper::BookTurn;
use crate::processor::{Processor, update_held_by_processor};
use base::MOST_PAGES;
use book::{Book, Refused};
use interval::Sent;
use std::alloc::AllocError;
use std::sync::Wait;
use transit::Message;
use vtime::VTime;

impl<T: BookTurn> Cluster<T> {
    /// Takes what the processor waits for, the lock, the end of the barrier's episode or the flag's signal. It
    /// learns of all that happened before that, and its copies of the pages that others stored to there become invalid.
    /// It costs what it is sent.
    ///
    /// The first of these that applies: [`NothingAwaited`](Refused::NothingAwaited),
    /// [`SeatSpent`](Refused::SeatSpent), [`NotYet`](Refused::NotYet) exactly if that hasn't come yet;
    /// else [`JournalFull`](Refused::JournalFull) exactly if the journal has 2^20 events, or
    /// [`NoMemory`](Refused::NoMemory). A refused call leaves the processor as it was, except that it may have seen
    /// more of the journal.
    pub fn take<R: Wait>(&self, rt: &R, processor: &mut Processor<T>) -> Result<(), Refused>
        requires own { processor.old.lock ≡ self.now.lock }
        ensures { IsTakingCall processor.old processor.new (result_err result) }
    {
        let awaited = processor.admit_take()?;
        let (held, mut book) = self.enter_book(rt, &mut processor.chair)?;
        let received = take_from_book(&mut book, processor.number, &mut processor.replicas);
        self.give_entered_book(&mut processor.chair, held, book);
        take_over_message(received?, &mut processor.replicas, &mut processor.time);
        update_held_by_processor(&mut processor.held, awaited.kind());
        processor.awaits = None;
        Ok(())
    }
}

/// Takes what `p` waits for from the book, and makes room for it in the copies' lists. A processor that waits looks
/// again and again, so it asks first whether that has come.
fn take_from_book(
    book: &mut Book,
    p: usize,
    replicas: &mut Vec<Replica>,
) -> Result<Message, Refused>
    requires call { AllowsSomeTakeCall book.old p }
    requires few { vec_len replicas.old ≤ most_pages }
    ensures same { AreSameCopiesAfterNews replicas.old.items replicas.new.items }
    ensures room { IfOk result (λ m. HasRoomForTakingCall (letter m).notices replicas.new.items) }
    ensures ok { IfOk result (λ m. TransitionTakes book.old p (letter m) book.new) }
    ensures err { OnErr result (book.new ≡ book.old) }
    ensures absent { (s : Sizes) (h : List Event) → Represents s h book.old
        → result ≡ Err Refused.NotYet ↔ (¬ Ready s h p) }
    ensures early { result ≡ Err Refused.NotYet → replicas.new.items ≡ replicas.old.items }
    ensures full { result ≢ Err Refused.NotYet
        → result ≡ Err Refused.JournalFull ↔ (most_events < length book.old.journal.events + 1) }
    ensures only { IfErr result (λ e.
        (e ≡ Refused.NotYet) ⊎ (e ≡ Refused.JournalFull) ⊎ (e ≡ Refused.NoMemory)) }
{
    if !book.is_ready(p) {
        return Err(Refused::NotYet);
    }
    take_ready_from_book(book, p, replicas)
}

/// The same if that has come. If the journal is full nothing is taken, so no growth is tried. It is called, since
/// otherwise an early take pays for these locals.
#[inline(never)]
fn take_ready_from_book(
    book: &mut Book,
    p: usize,
    replicas: &mut Vec<Replica>,
) -> Result<Message, Refused>
    requires call { AllowsSomeTakeCall book.old p }
    requires ready { (s : Sizes) (h : List Event) → Represents s h book.old → Ready s h p }
    requires few { vec_len replicas.old ≤ most_pages }
    ensures same { AreSameCopiesAfterNews replicas.old.items replicas.new.items }
    ensures room { IfOk result (λ m. HasRoomForTakingCall (letter m).notices replicas.new.items) }
    ensures ok { IfOk result (λ m. TransitionTakes book.old p (letter m) book.new) }
    ensures err { OnErr result (book.new ≡ book.old) }
    ensures full { IsFullRefusal (length book.old.journal.events + 1) result }
    ensures only { IfErr result IsRoomRefusal }
{
    if book.is_full() {
        return Err(Refused::JournalFull);
    }
    prepare_take(book, p, replicas)?;
    book.take(p)
}

/// Makes room in the copies' lists for what a take by `p` would bring now.
fn prepare_take(book: &Book, p: usize, replicas: &mut Vec<Replica>) -> Result<(), AllocError>
    requires call { IsProcessorOfAllowedCall book.now p }
    requires few { vec_len replicas.old ≤ most_pages }
    ensures same { AreSameCopiesAfterNews replicas.old.items replicas.new.items }
    ensures room { OnOk result (HasRoomForTakingCall (brought_by_message book.now p) replicas.new.items) }
{
    let mut counts = [0; MOST_PAGES];
    let counts = &mut counts[..replicas.len()];
    book.count_due(p, counts);
    make_room_to_take(replicas, counts)
}

/// Makes room for as many more records of each page as its count says.
fn make_room_to_take(replicas: &mut Vec<Replica>, counts: &[usize]) -> Result<(), AllocError>
    requires { length counts.now ≡ vec_len replicas.old }
    ensures same { AreSameCopiesAfterNews replicas.old.items replicas.new.items }
    ensures long { length counts.now ≡ length replicas.new.items }
    ensures ok { OnOk result (CopiesHaveRoomForNews counts.now replicas.new.items) }
{
    crate::copies::make_room_to_learn(replicas.as_mut_slice(), counts)
}

/// Takes over what came: the records that the copies lack from then on, and the sender's timestamp.
fn take_over_message(message: Message, replicas: &mut Vec<Replica>, time: &mut VTime)
    requires news { CopiesMayLackNews replicas.old.items (letter message).notices }
    requires times { length (letter message).time ≡ length time.old }
    ensures news { AreAfterNews replicas.old.items (letter message).notices replicas.new.items }
    ensures time { time.new ≡ join time.old (letter message).time }
{
    let (other, notices) = message.into_parts();
    take_among_missing(replicas, notices);
    time.join(&other);
}

/// Puts what came among the records that the copies lack.
fn take_among_missing(replicas: &mut Vec<Replica>, notices: Vec<Sent>)
    requires { CopiesMayLackNews replicas.old.items notices.items }
    ensures { AreAfterNews replicas.old.items notices.items replicas.new.items }
{
    crate::copies::learn(replicas.as_mut_slice(), notices);
}
