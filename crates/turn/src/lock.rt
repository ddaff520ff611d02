//! The lock: one text for both boards.
ghost use Rattle.std.specs.Prelude.{◌≡◌, ℕ, ◌+◌, ◌*◌, ◌^◌, ◌<◌, ◌≤◌, true, [], ◌∷◌, map, length, replicate, vec_capacity, IfOk, None, Some};
ghost use Rattle.std.specs.Prelude.{refl};
ghost use Rattle.std.proofs.Common.{◌∙◌};
ghost use Rattle.std.specs.Bool.{OnTrue, OnFalse};
ghost use Rattle.turn.specs.declared.chair.ChairStage.TheVariants.{Outside, Waiting, Inside};

use crate::boards::{ArrayBoard, Board, BoardLayout, Change, TicketBoard};
use crate::chair::{Chair, ChairRun, ChairState, ChairToken, Held, Spent};
use crate::sleepers::{LOOKS_AWAKE, Sleepers, low_half};
use crate::turn::{Keeper, Lesson, Outcome, Turn};
use atomic_table::{Join, Play, Seat, Split, Table, TableRule};
use crossbeam_utils::Backoff;
use std::alloc::{AllocError, Global};
use std::marker::PhantomData;
use std::snapshot::Snapshot;
use std::sync::Wait;

/// What a lock is told once, when it is made: how many chairs it has, how often each may enter, and, for proofs alone,
/// the first book.
#[derive(Drop)]
pub struct Terms<B> {
    pub seats: usize,
    pub entries: u64,
    pub book: Snapshot<B>,
}

/// The lock's rule, on the board `W`.
pub struct TicketRule<K, W> {
    of: PhantomData<(K, W)>,
}

impl<B, K: Keeper<B>, W: Board> TableRule<Option<B>, ChairRun<ChairState<B, K::View>>, Terms<B>>
    for TicketRule<K, W> {
    ghost use Rattle.turn.specs.ChairRuns.{DealtChairRuns};
    ghost use Rattle.turn.specs.Tickets.{TicketTurns};
    ghost use Rattle.turn.specs.SeatSteps.{fresh_stepping_seat_run};

    ghost holds = { λ z. DealtChairRuns z.seats (TicketTurns K.fact (W.shows z.seats) z.entries) };

    ghost first = { λ z. fresh_stepping_seat_run (K.first z.book.value) 0 z.seats };
}

struct Draw;

impl<B, V> Play<Option<B>, ChairRun<ChairState<B, V>>> for Draw {
    ghost use Rattle.turn.specs.SeatSteps.{SeatDrawStep};

    ghost then = { λ _ before found after. SeatDrawStep before found after };
}

struct Look<K> {
    keeper: PhantomData<K>,
}

impl<B, K: Keeper<B>> Play<Option<B>, ChairRun<ChairState<B, K::View>>> for Look<K> {
    ghost use Rattle.turn.specs.SeatSteps.{SeatLookStep};

    ghost then = { λ _ before found after. SeatLookStep K.fact before found after };
}

// The first chair of a run goes to a new seat.
struct Deal;

impl<C> Split<ChairRun<C>> for Deal {
    ghost use Rattle.turn.specs.ChairRuns.{rest_of_chair_run, chair_run_of_first};

    ghost left = { λ h. rest_of_chair_run h };

    ghost right = { λ h. chair_run_of_first h };
}

// A seat takes in the chair at the place before its own.
struct Gather<K> {
    keeper: PhantomData<K>,
}

impl<B, K: Keeper<B>> Join<ChairRun<ChairState<B, K::View>>> for Gather<K> {
    ghost use Rattle.std.specs.Prelude.{false};
    ghost use Rattle.turn.specs.ChairRuns.{chair_run, both_chair_runs};
    ghost use Rattle.turn.specs.SeatSteps.{fresh_stepping_seat};

    ghost both = { λ h g. both_chair_runs h g };

    ghost spent = { chair_run false 0 (fresh_stepping_seat K.nobody) [] };
}

// A seat takes in another's one chair as its guest.
struct Host<K> {
    keeper: PhantomData<K>,
}

impl<B, K: Keeper<B>> Join<ChairRun<ChairState<B, K::View>>> for Host<K> {
    ghost use Rattle.std.specs.Prelude.{false};
    ghost use Rattle.turn.specs.ChairRuns.{chair_run, chair_run_hosting};
    ghost use Rattle.turn.specs.SeatSteps.{fresh_stepping_seat};

    ghost both = { λ h g. chair_run_hosting h g };

    ghost spent = { chair_run false 0 (fresh_stepping_seat K.nobody) [] };
}

// A seat's guest goes to a new seat.
struct Dismiss;

impl<C> Split<ChairRun<C>> for Dismiss {
    ghost use Rattle.turn.specs.ChairRuns.{chair_run_of_first, run_of_chair_guest};

    ghost left = { λ h. chair_run_of_first h };

    ghost right = { λ h. run_of_chair_guest h };
}

struct Talk<M> {
    lesson: PhantomData<M>,
}

impl<B, V, M: Lesson<V>> Play<Option<B>, ChairRun<ChairState<B, V>>> for Talk<M> {
    ghost use Rattle.turn.specs.SeatSteps.{SeatTalkStep};

    ghost then = { λ _ before _ after. SeatTalkStep M.then before after };
}

struct StepOut<M> {
    outcome: PhantomData<M>,
}

impl<B, V, M: Outcome<B, V>> Change<Option<B>, ChairRun<ChairState<B, V>>> for StepOut<M> {
    ghost use Rattle.turn.specs.SeatSteps.{SeatLeaveStep};

    ghost then = { λ before after. SeatLeaveStep M.then before after };
}

/// A seat of a lock's table.
type LockSeat<B, V> = Seat<Option<B>, ChairRun<ChairState<B, V>>>;

/// The next number to draw.
const NEXT: usize = 0;

// The one slot of a table, with the book in it.
fn slot_with<B: Drop>(alloc: Global, book: B) -> Result<Vec<Option<B>>, AllocError>
    ensures { IfOk result (λ slots. slots.items ≡ Some book ∷ []) }
{
    let mut slots = Vec::with_capacity(alloc, 1)?;
    slots.push_reserved(Some(book));
    Ok(slots)
}

/// A lock whose chairs draw numbers, and enter in the order of their numbers, on the board `W`.
pub struct TurnLock<B, K: Keeper<B>, W: Board, const ENTRIES: u64> {
    table: Table<Option<B>, ChairRun<ChairState<B, K::View>>, Terms<B>, TicketRule<K, W>, Global>,
    pub(crate) layout: BoardLayout<W>,
    sleepers: Sleepers,
    ghost wide: { (table.shared.table_id.words ≡ layout.words) × (table.shared.table_id.slots ≡ 1) },
    ghost sized: { (table.shared.key.seats ≡ layout.seats) × (table.shared.key.entries ≡ ENTRIES) },
}

/// The ticket lock: waiting chairs all look at the number that is served.
pub type TicketLock<B, K, const ENTRIES: u64> = TurnLock<B, K, TicketBoard, ENTRIES>;

/// The array lock: each waiting chair looks at a word of its own.
pub type ArrayLock<B, K, const ENTRIES: u64> = TurnLock<B, K, ArrayBoard, ENTRIES>;

impl<B, K: Keeper<B>, W: Board, const ENTRIES: u64> TurnLock<B, K, W, ENTRIES> {
    ghost use Rattle.turn.specs.SeatSteps.{fresh_stepping_seat_run, stepping_seat_with, stepping_seat_at_stage, IsSteppingSeatAtStage, SeatStepsIn};
    ghost use Rattle.turn.specs.ChairRuns.{chairs_of_run};
    ghost use Rattle.turn.specs.Chairs.{chair_lock_id, chair_state_of, AreUnusedChairs, AreChairsInOrder, ChairStands, ChairMayConfer, ChairMayHandIn};

    /// How often a chair has looked awake in vain since the lock was made, and then slept or was about to. A chair that
    /// finds the lock free adds none.
    pub fn sleeps(&self) -> u64 {
        self.sleepers.ever()
    }

    // The step 'draw': one addition to the next number. The chair waits with the number found.
    fn draw(&self, seat: &mut LockSeat<B, K::View>) -> u64
        requires own { seat.old.table_id ≡ self.now.table.shared.table_id }
        requires outside { IsSteppingSeatAtStage Outside seat.old.me }
        requires left { seat.old.me.0.lead.entries < ENTRIES }
        ensures own { seat.new.table_id ≡ seat.old.table_id }
        ensures waits { seat.new.me
            ≡ stepping_seat_with seat.old.me.0.place (Waiting result) (seat.old.me.0.lead.entries + 1)
            seat.old.me.0.lead.view }
        ensures small { result + 1 < 2 ^ 64 }
    {
        W::lawful(self.layout.seats);
        self.table.shared.fetch_add::<Draw>(seat, NEXT, 1)
    }

    // The steps 'look' and 'enter': one load of the chair's word. If it finds another number, nothing changes; if
    // it finds the chair's own, the chair is inside, and its seat alone has the slot with the book.
    fn look(&self, seat: &mut LockSeat<B, K::View>, word: usize, number: u64) -> bool
        requires own { seat.old.table_id ≡ self.now.table.shared.table_id }
        requires word { word ≡ W.at self.now.layout.seats number }
        requires waits { IsSteppingSeatAtStage (Waiting number) seat.old.me }
        ensures own { seat.new.table_id ≡ seat.old.table_id }
        ensures enter { OnTrue result (SeatStepsIn K.fact number seat.old.me seat.new.me) }
        ensures look { OnFalse result (seat.new.me ≡ seat.old.me) }
    {
        W::lawful(self.layout.seats);
        self.table.shared.load::<Look<K>>(seat, word) == number
    }

    // The plain read of the slot, which the seat has.
    fn take_book(&self, seat: &mut LockSeat<B, K::View>) -> B
        requires own { seat.old.table_id ≡ self.now.table.shared.table_id }
        requires full { (book : B) × (seat.old.me.1 ≡ (0, Some book) ∷ []) }
        ensures own { seat.new.table_id ≡ seat.old.table_id }
        ensures book { seat.old.me.1 ≡ (0, Some result) ∷ [] }
        ensures empty { seat.new.me ≡ (seat.old.me.0, (0, None) ∷ []) }
    {
        let taken = self.table.shared.exchange(seat, 0, None);
        let Some(book) = taken else { unreachable!() };
        book
    }

    // Looks for as long as a thread waits awake: whether the chair is inside.
    fn wait_awake(&self, seat: &mut LockSeat<B, K::View>, word: usize, number: u64) -> bool
        requires own { seat.old.table_id ≡ self.now.table.shared.table_id }
        requires word { word ≡ W.at self.now.layout.seats number }
        requires waits { IsSteppingSeatAtStage (Waiting number) seat.old.me }
        ensures own { seat.new.table_id ≡ seat.old.table_id }
        ensures enter { OnTrue result (SeatStepsIn K.fact number seat.old.me seat.new.me) }
        ensures wait { OnFalse result (seat.new.me ≡ seat.old.me) }
    {
        let backoff = Backoff::new();
        for _ in 0..LOOKS_AWAKE {
            if self.look(seat, word, number) {
                return true;
            }
            backoff.reset();
            backoff.spin();
        }
        false
    }

    // Looks until the chair's number is served, and sleeps between two looks. Its thread must be counted among the
    // sleepers.
    fn wait_asleep<R: Wait>(
        &self,
        rt: &R,
        seat: &mut LockSeat<B, K::View>,
        word: usize,
        number: u64,
    )
        requires own { seat.old.table_id ≡ self.now.table.shared.table_id }
        requires word { word ≡ W.at self.now.layout.seats number }
        requires waits { IsSteppingSeatAtStage (Waiting number) seat.old.me }
        ensures own { seat.new.table_id ≡ seat.old.table_id }
        ensures enter { SeatStepsIn K.fact number seat.old.me seat.new.me }
    {
        W::lawful(self.layout.seats);
        for _ in rt.forever() {
            let seen = low_half(self.table.shared.peek(word));
            if self.look(seat, word, number) {
                return;
            }
            if seen != low_half(number) {
                self.table.shared.park(rt, word, seen);
            }
        }
        unreachable!()
    }

    // Waits until the chair's number is served: awake for a while, and then asleep.
    fn wait_for_turn<R: Wait>(&self, rt: &R, seat: &mut LockSeat<B, K::View>, number: u64)
        requires own { seat.old.table_id ≡ self.now.table.shared.table_id }
        requires waits { IsSteppingSeatAtStage (Waiting number) seat.old.me }
        ensures own { seat.new.table_id ≡ seat.old.table_id }
        ensures enter { SeatStepsIn K.fact number seat.old.me seat.new.me }
    {
        let word = W::at(self.layout.seats, number);
        if !self.wait_awake(seat, word, number) {
            self.sleepers.count_sleeper();
            self.wait_asleep(rt, seat, word, number);
            self.sleepers.forget_sleeper();
        }
    }

    // Waits for the chair's turn, and takes the book.
    fn step_in<R: Wait>(&self, rt: &R, seat: &mut LockSeat<B, K::View>, number: u64) -> B
        requires own { seat.old.table_id ≡ self.now.table.shared.table_id }
        requires waits { IsSteppingSeatAtStage (Waiting number) seat.old.me }
        ensures own { seat.new.table_id ≡ seat.old.table_id }
        ensures inside { seat.new.me ≡ stepping_seat_at_stage (Inside number result) seat.old.me }
        ensures fact { ChairStands K.fact result seat.old.me.0.place seat.old.me.0.lead.view }
    {
        self.wait_for_turn(rt, seat, number);
        self.take_book(seat)
    }

    // Puts the book back into the slot, and then makes the step 'leave', which gives the slot back and lets the next
    // number in.
    fn hand_in<M: Outcome<B, K::View>>(&self, seat: &mut LockSeat<B, K::View>, number: u64, book: B)
        requires own { seat.old.table_id ≡ self.now.table.shared.table_id }
        requires small { number + 1 < 2 ^ 64 }
        requires inside { (found : B) × IsSteppingSeatAtStage (Inside number found) seat.old.me
            × ChairMayHandIn K.fact M.then found book seat.old.me.0.place seat.old.me.0.lead.view }
        ensures own { seat.new.table_id ≡ seat.old.table_id }
        ensures outside { seat.new.me
            ≡ stepping_seat_with seat.old.me.0.place Outside seat.old.me.0.lead.entries
            seat.new.me.0.lead.view }
        ensures then { (found : B) → IsSteppingSeatAtStage (Inside number found) seat.old.me
            → M.then found book seat.old.me.0.place seat.old.me.0.lead.view seat.new.me.0.lead.view }
    {
        let taken = self.table.shared.exchange(seat, 0, Some(book));
        let None = taken else { unreachable!() };
        W::lawful(self.layout.seats);
        W::pass::<_, _, _, _, StepOut<M>>(&self.table.shared, seat, self.layout.seats, number);
    }

    // Takes the other seat's chair in as a guest, makes the step 'talk', which is a load, and lets the guest go.
    fn confer_at<M: Lesson<K::View>>(
        &self,
        seat: &mut LockSeat<B, K::View>,
        other: &mut LockSeat<B, K::View>,
    )
        requires own { (seat.old.table_id ≡ self.now.table.shared.table_id)
            × (other.old.table_id ≡ self.now.table.shared.table_id) }
        requires outside { IsSteppingSeatAtStage Outside seat.old.me × IsSteppingSeatAtStage Outside other.old.me }
        requires may { ChairMayConfer K.fact M.then seat.old.me.0.place seat.old.me.0.lead.view
            other.old.me.0.place other.old.me.0.lead.view }
        ensures own { (seat.new.table_id ≡ seat.old.table_id) × (other.new.table_id ≡ other.old.table_id) }
        ensures outside { seat.new.me
            ≡ stepping_seat_with seat.old.me.0.place Outside seat.old.me.0.lead.entries
            seat.new.me.0.lead.view }
        ensures then { M.then seat.old.me.0.place seat.old.me.0.lead.view other.old.me.0.place
            other.old.me.0.lead.view seat.new.me.0.lead.view }
        ensures other { other.new.me ≡ other.old.me }
    {
        W::lawful(self.layout.seats);
        let shared = &self.table.shared;
        let guest = shared.split_seat::<Deal>(other);
        shared.join_seat::<Host<K>>(seat, guest);
        shared.load::<Talk<M>>(seat, NEXT);
        *other = shared.split_seat::<Dismiss>(seat);
    }

    // Wakes the thread that sleeps at the next number's word. It comes after the step 'leave': sleepers are looked for last.
    fn wake_next_turn(&self, number: u64)
        requires { number + 1 < 2 ^ 64 }
    {
        if self.sleepers.number() > 0 {
            W::lawful(self.layout.seats);
            self.table
                .shared
                .wake_all(W::at(self.layout.seats, number + 1));
        }
    }

    // A lock over the book, and the seat that has all its places.
    fn open(
        alloc: Global,
        book: B,
        seats: usize,
    ) -> Result<(Self, LockSeat<B, K::View>), AllocError>
    where
        B: Drop,
        requires some { 1 ≤ seats }
        requires room { seats * ENTRIES < 2 ^ 64 }
        requires fact { K.fact book (replicate seats (K.first book)) }
        ensures own { IfOk result (λ r. r.1.table_id ≡ r.0.table.shared.table_id) }
        ensures seats { IfOk result (λ r. r.0.layout.seats ≡ seats) }
        ensures book { IfOk result (λ r. r.0.table.shared.key.book.value ≡ book) }
        ensures whole { IfOk result (λ r. r.1.me
            ≡ (fresh_stepping_seat_run (K.first r.0.table.shared.key.book.value) 0 r.0.layout.seats, [])) }
    {
        let words = W::words(alloc, seats)?;
        let layout = BoardLayout::new(seats, words.len());
        let terms = Terms {
            seats,
            entries: ENTRIES,
            book: Snapshot::of(&book),
        };
        let slots = slot_with(alloc, book)?;
        match Table::new(alloc, words.as_slice(), slots, &terms) {
            Ok((table, rest)) => Ok((
                TurnLock {
                    table,
                    layout,
                    sleepers: Sleepers::none(),
                },
                rest,
            )),
            Err(_) => Err(AllocError),
        }
    }

    // Gives each place of the lock to a chair of its own.
    fn deal(&self, mut rest: LockSeat<B, K::View>, mut chairs: Vec<Chair<B, K>>) -> Vec<Chair<B, K>>
        requires own { rest.table_id ≡ self.now.table.shared.table_id }
        requires whole { rest.me ≡ (
          fresh_stepping_seat_run (K.first self.now.table.shared.key.book.value) 0
              self.now.layout.seats,
          [],
        ) }
        requires room { (chairs.items ≡ []) × (self.now.layout.seats ≤ vec_capacity chairs) }
        ensures all { length result.items ≡ self.now.layout.seats }
        ensures fresh { AreUnusedChairs (chair_lock_id self.now.table.shared.table_id ENTRIES)
            (K.first self.now.table.shared.key.book.value) result.items }
    {
        for _ in 0..self.layout.seats {
            let seat = self.table.shared.split_seat::<Deal>(&mut rest);
            chairs.push_reserved(ChairToken::fresh(seat, ENTRIES));
        }
        chairs
    }

    // Takes the chairs in, the last one first, so that one seat has all places.
    fn gather(&self, mut chairs: Vec<Chair<B, K>>) -> LockSeat<B, K::View>
        requires { AreChairsInOrder (chair_lock_id self.now.table.shared.table_id ENTRIES) self.now.layout.seats
            chairs.items }
        ensures own { result.table_id ≡ self.now.table.shared.table_id }
        ensures free { result.me.1 ≡ [] }
        ensures whole { (result.me.0.live ≡ true) × (result.me.0.place ≡ 0)
            × (chairs_of_run result.me.0 ≡ map chair_state_of chairs.items) }
    {
        let Some(last) = chairs.pop() else {
            unreachable!()
        };
        let mut whole = last.into_seat();
        while let Some(chair) = chairs.pop() {
            self.table
                .shared
                .join_seat::<Gather<K>>(&mut whole, chair.into_seat());
        }
        whole
    }
}

impl<B: Send, K: Keeper<B>, W: Board + Sync, const ENTRIES: u64> Turn<B, K>
    for TurnLock<B, K, W, ENTRIES> {
    ghost use Rattle.turn.specs.Chairs.{chair_lock_id, chair_view, AreChairsInOrder};

    const ENTRIES: u64 = ENTRIES;

    ghost ENTRIES = { ENTRIES };

    ghost id = { λ l. chair_lock_id l.table.shared.table_id ENTRIES };

    ghost size = { λ l. l.layout.seats };

    ghost width = { W.width };

    fn new(alloc: Global, book: B, seats: usize) -> Result<(Self, Vec<Chair<B, K>>), AllocError>
    where
        B: Drop,
    {
        let chairs = Vec::with_capacity(alloc, seats)?;
        let (lock, rest) = Self::open(alloc, book, seats)?;
        let chairs = lock.deal(rest, chairs);
        Ok((lock, chairs))
    }

    fn enter<R: Wait>(&self, rt: &R, chair: &mut Chair<B, K>) -> Result<(Held, B), Spent> {
        if chair.entries == chair.limit {
            return Err(Spent);
        }
        let number = self.draw(&mut chair.seat);
        let book = self.step_in(rt, &mut chair.seat, number);
        chair.entries += 1;
        Ok((Held { number }, book))
    }

    fn leave<M: Outcome<B, K::View>>(&self, chair: &mut Chair<B, K>, held: Held, book: B) {
        let Held { number } = held;
        self.hand_in::<M>(&mut chair.seat, number, book);
        self.wake_next_turn(number);
    }

    fn confer<M: Lesson<K::View>>(&self, chair: &mut Chair<B, K>, other: &mut Chair<B, K>) {
        self.confer_at::<M>(&mut chair.seat, &mut other.seat);
    }

    fn close(self, chairs: Vec<Chair<B, K>>) -> B
        requires { AreChairsInOrder (chair_lock_id self.table.shared.table_id ENTRIES) self.layout.seats
            chairs.items }
        ensures { K.fact result (map chair_view chairs.items) }
    {
        let whole = self.gather(chairs);
        let TurnLock {
            table,
            layout: _,
            sleepers: _,
        } = self;
        let mut closed = table.close_with(whole);
        let slot = closed.take(0);
        closed.free();
        let Some(book) = slot else { unreachable!() };
        book
    }

    ghost limits = { λ _. refl };

    ghost wide = { λ l. l.wide.0 ∙ l.layout.wide };
}

impl<B: Drop, K: Keeper<B>, W: Board, const ENTRIES: u64> Drop for TurnLock<B, K, W, ENTRIES> {
    fn drop(self) {
        let TurnLock {
            table,
            layout,
            sleepers,
        } = self;
        drop(table);
        drop(layout);
        drop(sleepers);
    }
}

#[cfg(test)]
mod tests;
