ghost use Rattle.std.specs.Prelude.{◌≡◌, ◌*◌, ◌^◌, ◌<◌, ◌≤◌, IfOk};
ghost use Rattle.turn.specs.Prelude.{entries, lock, chair_lock_id, IsChairOutside, IsSameChair, AreChairsInOrder};

use super::{ArrayLock, TicketLock, TurnLock};
use crate::boards::{ArrayBoard, Board, LINE, TicketBoard};
use crate::chair::{Chair, Spent};
use crate::turn::{Keeper, Outcome, Turn};
use std::alloc::{AllocError, Global};
use std::process::Abort;
use std::sync::{Arc, Wait};
use std::test::Fail;
use std::thread::{self, Threads, map_vec};
use std::time::{Clock, Duration};

// Keeps nothing.
struct Anything;

impl<B> Keeper<B> for Anything {
    ghost use Rattle.std.specs.Prelude.{◌<◌};

    type View = ();

    ghost fact = { λ _ _. Unit {0} };

    ghost first = { λ _. tt };

    ghost nobody = { tt };
}

impl<B> Outcome<B, ()> for Anything {
    ghost use Rattle.std.specs.Prelude.{◌<◌};

    ghost then = { λ _ _ _ _ _. Unit {0} };
}

// Enters, and leaves at once.
fn pass_through<B, T: Turn<B, Anything>, R: Wait>(
    rt: &R,
    turn: &T,
    chair: &mut Chair<B, Anything>,
) -> Result<(), Spent>
    requires own { lock chair.old ≡ T.id turn.now }
    requires outside { IsChairOutside chair.old }
    ensures { IsSameChair chair.old chair.new × IsChairOutside chair.new }
{
    let (held, book) = turn.enter(rt, chair)?;
    turn.leave::<Anything>(chair, held, book);
    Ok(())
}

// The words at which the first two chairs look.
fn shown<B, K: Keeper<B>, W: Board, const ENTRIES: u64>(
    lock: &TurnLock<B, K, W, ENTRIES>,
) -> [u64; 2] {
    let words = lock.layout.words;
    let first = if LINE < words {
        lock.table.shared.peek(LINE)
    } else {
        0
    };
    let second = if 2 * LINE < words {
        lock.table.shared.peek(2 * LINE)
    } else {
        0
    };
    [first, second]
}

// Enters with the chair at this place, and leaves at once.
fn enter_at<B, T: Turn<B, Anything>, R: Wait>(
    rt: &R,
    turn: &T,
    chairs: &mut Vec<Chair<B, Anything>>,
    place: usize,
) -> Result<(), Spent>
    requires all { AreChairsInOrder (T.id turn.now) (T.size turn.now) chairs.old.items }
    requires place { place < T.size turn.now }
    ensures { AreChairsInOrder (T.id turn.now) (T.size turn.now) chairs.new.items }
{
    pass_through(rt, turn, &mut chairs[place])
}

/// A chair's place, whether it may still enter, and then the words after the next number.
type Step = (usize, bool, [u64; 2]);

// Whether the step goes so: a spent chair doesn't enter, and leaves the words as they are.
fn goes<W: Board + Sync, R: Wait>(
    rt: &R,
    turn: &TurnLock<u64, Anything, W, 3>,
    chairs: &mut Vec<Chair<u64, Anything>>,
    step: &Step,
) -> bool
    requires { AreChairsInOrder (chair_lock_id turn.now.table.shared.table_id 3) turn.now.layout.seats
        chairs.old.items }
    ensures { AreChairsInOrder (chair_lock_id turn.now.table.shared.table_id 3) turn.now.layout.seats
        chairs.new.items }
{
    let (place, enters, words) = *step;
    place < turn.layout.seats
        && enter_at(rt, turn, chairs, place).is_ok() == enters
        && shown(turn) == words
}

// Opens a lock over 7 with that many chairs, each of which may enter three times, makes the steps, and closes it.
fn makes<W: Board + Sync, R: Wait + Abort>(
    rt: &R,
    alloc: Global,
    seats: usize,
    steps: &[Step],
) -> Result<(), AllocError>
    requires { (1 ≤ seats) × (seats ≤ 2) }
{
    let (turn, mut chairs) = TurnLock::<u64, Anything, W, 3>::new(alloc, 7, seats)?;
    assert!(rt; shown(&turn) == [0, 0]);
    for step in steps {
        assert!(rt; goes(rt, &turn, &mut chairs, step));
    }
    assert!(rt; turn.close(chairs) == 7);
    Ok(())
}

#[test]
fn the_words_of_the_row(rt: HostRuntime) -> Result<(), Fail> {
    let steps = [(0, true, [0, 1]), (1, true, [2, 1]), (0, true, [2, 3])];
    makes::<ArrayBoard, _>(&rt, rt.alloc(), 2, &steps)?;
    makes::<ArrayBoard, _>(&rt, rt.alloc(), 1, &[(0, true, [1, 0]), (0, true, [2, 0])])?;
    Ok(())
}

#[test]
fn the_word_of_the_counter(rt: HostRuntime) -> Result<(), Fail> {
    makes::<TicketBoard, _>(&rt, rt.alloc(), 2, &[(0, true, [1, 0]), (1, true, [2, 0])])?;
    Ok(())
}

// One chair of two enters three times; then it is spent, the words stay, and the other chair enters.
#[test]
fn a_chair_is_spent_after_its_entries(rt: HostRuntime) -> Result<(), Fail> {
    let steps = [
        (0, true, [1, 0]),
        (0, true, [2, 0]),
        (0, true, [3, 0]),
        (0, false, [3, 0]),
        (1, true, [4, 0]),
        (0, false, [4, 0]),
    ];
    makes::<TicketBoard, _>(&rt, rt.alloc(), 2, &steps)?;
    let steps = [
        (0, true, [0, 1]),
        (0, true, [2, 1]),
        (0, true, [2, 3]),
        (0, false, [2, 3]),
        (1, true, [4, 3]),
        (0, false, [4, 3]),
    ];
    makes::<ArrayBoard, _>(&rt, rt.alloc(), 2, &steps)?;
    Ok(())
}

// Opens a lock over a shared book, and drops it: each time the book is dropped too, also if memory is refused.
fn drops_its_book<T: Turn<Arc<u8>, Anything> + Drop, R: Abort>(rt: &R, alloc: Global)
    requires { 3 * T.ENTRIES < 2 ^ 64 }
{
    let Ok(book) = Arc::new(alloc, 7u8) else {
        return;
    };
    let Ok(shared) = Arc::try_clone(&book) else {
        return;
    };
    if let Ok((turn, _chairs)) = T::new(alloc, shared, 3) {
        assert!(rt; Arc::strong_count(&book) == 2);
        drop(turn);
    }
    assert!(rt; Arc::strong_count(&book) == 1);
}

#[test]
fn a_book_is_dropped_with_its_lock(rt: HostRuntime) {
    drops_its_book::<TicketLock<Arc<u8>, Anything, 3>, _>(&rt, rt.alloc());
    drops_its_book::<ArrayLock<Arc<u8>, Anything, 3>, _>(&rt, rt.alloc());
}

// Waits until that many threads sleep. Wakes the first of them for no reason, so that it is the last to sleep.
fn let_sleep<W: Board, R: Wait + Clock>(rt: &R, turn: &TurnLock<u64, Anything, W, 3>, many: u64) {
    for _ in rt.forever() {
        if turn.sleepers.number() == many {
            break;
        }
        thread::yield_now();
    }
    thread::sleep(rt, Duration::from_millis(50));
    W::lawful(turn.layout.seats);
    turn.table.shared.wake_one(W::at(turn.layout.seats, 1));
    thread::sleep(rt, Duration::from_millis(50));
}

// Enters, hands in the next book, and answers the book that it found. The first chair stays inside until all others sleep.
fn enters_once<W: Board + Sync, R: Wait + Clock>(
    rt: &R,
    turn: &TurnLock<u64, Anything, W, 3>,
    mut chair: Chair<u64, Anything>,
    others: u64,
) -> Result<u64, Spent>
    requires own { lock chair ≡ chair_lock_id turn.now.table.shared.table_id 3 }
    requires outside { IsChairOutside chair }
{
    let (held, book) = turn.enter(rt, &mut chair)?;
    if book == 0 {
        let_sleep(rt, turn, others);
    }
    turn.leave::<Anything>(&mut chair, held, book.wrapping_add(1));
    Ok(book)
}

// The books that sixteen chairs find, of which fifteen sleep while the first is inside, in rising order. A wait that looks
// once and never again doesn't end here, nor does a sleep that nobody ends.
fn books_found<W: Board + Sync, R: Threads + Wait + Clock + Sync>(
    rt: &R,
    alloc: Global,
) -> Result<Vec<u64>, AllocError> {
    let (turn, chairs) = TurnLock::<u64, Anything, W, 3>::new(alloc, 0, 16)?;
    let shared = &turn;
    let mut books = map_vec(
        rt,
        chairs,
        &|chair: Chair<u64, Anything>| -> u64
            requires { (lock chair ≡ chair_lock_id shared.now.table.shared.table_id 3) × IsChairOutside chair }
        { enters_once(rt, shared, chair, 15).unwrap_or(u64::MAX) },
    )?;
    books.sort()?;
    Ok(books)
}

#[test]
fn chairs_that_sleep_get_in(rt: HostRuntime) -> Result<(), Fail> {
    let each_once = [0, 1, 2, 3, 4, 5, 6, 7, 8, 9, 10, 11, 12, 13, 14, 15];
    assert!(rt; books_found::<TicketBoard, _>(&rt, rt.alloc())?.as_slice() == each_once.as_slice());
    assert!(rt; books_found::<ArrayBoard, _>(&rt, rt.alloc())?.as_slice() == each_once.as_slice());
    Ok(())
}

// Enters a free lock as one who waits no more awake: its number is served before it sleeps, and nobody would wake it.
// Answers the book, and never leaves.
fn enters_asleep<W: Board + Sync, R: Wait>(
    rt: &R,
    turn: &TurnLock<u64, Anything, W, 3>,
    chair: Chair<u64, Anything>,
) -> u64
    requires own { lock chair ≡ chair_lock_id turn.now.table.shared.table_id 3 }
    requires outside { IsChairOutside chair }
    requires left { entries chair < 3 }
{
    let mut seat = chair.into_seat();
    let number = turn.draw(&mut seat);
    let word = W::at(turn.layout.seats, number);
    turn.wait_asleep(rt, &mut seat, word, number);
    turn.take_book(&mut seat)
}

// The book of a free lock, found so.
fn found_asleep<W: Board + Sync, R: Wait>(rt: &R, alloc: Global) -> Result<u64, AllocError> {
    let (turn, mut chairs) = TurnLock::<u64, Anything, W, 3>::new(alloc, 7, 1)?;
    let Some(chair) = chairs.pop() else {
        unreachable!()
    };
    Ok(enters_asleep(rt, &turn, chair))
}

#[test]
fn a_thread_looks_again_before_it_sleeps(rt: HostRuntime) -> Result<(), Fail> {
    assert!(rt; found_asleep::<TicketBoard, _>(&rt, rt.alloc())? == 7);
    assert!(rt; found_asleep::<ArrayBoard, _>(&rt, rt.alloc())? == 7);
    Ok(())
}

#[test]
fn the_text_of_a_spent_chair(rt: HostRuntime) -> Result<(), Fail> {
    let text = format!(in rt.alloc(); "{Spent}")?;
    assert!(rt; text.as_str() == "lock entries spent");
    Ok(())
}

fn crosses<T: Send + Drop>() {}

fn is_shared<T: Sync>() {}

#[test]
fn locks_and_chairs_cross_threads(_rt: HostRuntime) {
    crosses::<TicketLock<u64, Anything, 3>>();
    crosses::<ArrayLock<u64, Anything, 3>>();
    is_shared::<TicketLock<u64, Anything, 3>>();
    is_shared::<ArrayLock<u64, Anything, 3>>();
    crosses::<Vec<Chair<u64, Anything>>>();
}
