//! The boards on which the locks show whose turn it is.
ghost use Rattle.std.specs.Prelude.{◌≡◌, ℕ, List, ◌+◌, ◌*◌, ◌%◌, ◌^◌, ◌<◌, ◌≤◌, length, slice_index, IfOk};
ghost use Rattle.atomic_table.specs.Table.{Me, Allows};
ghost use Rattle.turn.specs.Boards.{IsBoard, CountingBoardLetsIn, PointingBoardLetsIn, board_line_words, board_own_word, counting_board_width, pointing_board_width};

use atomic_table::{Play, Seat, Shared, TableRule};
use std::alloc::{AllocError, Global};
use std::marker::PhantomData;

/// What a step makes of a seat, whatever word it finds.
pub trait Change<S, V> {
    ghost then: { Me S V → Me S V → Type 0 };
}

/// A step of the table that makes this change.
pub struct Changing<M> {
    change: PhantomData<M>,
}

impl<S, V, M: Change<S, V>> Play<S, V> for Changing<M> {
    ghost then = { λ _ before _ after. M.then before after };
}

/// Where a lock shows whose turn it is. Word 0 of the lock is the next number to draw.
pub trait Board {
    // How many words a lock with this many chairs has.
    ghost width: { ℕ → ℕ };

    // The word at which the chair with a number looks.
    ghost at: { ℕ → ℕ → ℕ };

    // What the chair that leaves with a number makes of the next number's word.
    ghost passed: { ℕ → ℕ → ℕ };

    // The words let a number in.
    ghost shows: { ℕ → List ℕ → ℕ → Type 0 };

    /// The words at the start, which let 0 in.
    fn words(alloc: Global, seats: usize) -> Result<Vec<u64>, AllocError>
        requires { 1 ≤ seats }
        ensures width { IfOk result (λ words. length words.items ≡ width seats) }
        ensures next { IfOk result (λ words. slice_index words.items 0 ≡ 0) }
        ensures shows { IfOk result (λ words. shows seats words.items 0) };

    /// The word at which the chair with a number looks.
    fn at(seats: usize, number: u64) -> usize
        requires some { 1 ≤ seats }
        requires fits { width seats < 2 ^ 64 }
        ensures { result ≡ at seats number };

    /// The one step with which the chair that leaves with a number lets the next one in.
    fn pass<S, V, X, P: TableRule<S, V, X>, M: Change<S, V>>(
        shared: &Shared<S, V, X, P>,
        seat: &mut Seat<S, V>,
        seats: usize,
        number: u64,
    )
        requires own { seat.old.table_id ≡ shared.now.table_id }
        requires some { 1 ≤ seats }
        requires width { shared.now.table_id.words ≡ width seats }
        requires fits { width seats < 2 ^ 64 }
        requires small { number + 1 < 2 ^ 64 }
        requires rule { Allows (P.holds shared.now.key) shared.now.table_id.slots seat.old.id seat.old.me
            (at seats (number + 1)) (passed number) (λ _ after. M.then seat.old.me after) }
        ensures own { seat.new.table_id ≡ seat.old.table_id }
        ensures then { M.then seat.old.me seat.new.me };

    /// Does nothing: its contract is what the locks rest on, and they call it for that.
    fn lawful(seats: usize)
        requires { 1 ≤ seats }
        ensures { IsBoard (width seats) (shows seats) (at seats) passed };
}

/// What is known of a board for a lock with this many chairs.
#[derive(Drop)]
pub struct BoardLayout<W: Board> {
    pub(crate) seats: usize,
    // How many words the lock's table has.
    pub(crate) words: usize,
    board: PhantomData<W>,
    ghost some: { 1 ≤ seats },
    ghost wide: { words ≡ W.width seats },
    ghost fits: { W.width seats < 2 ^ 64 },
    ghost more: { 1 ≤ words },
}

impl<W: Board> BoardLayout<W> {
    // The layout of a table with that many words.
    pub(crate) fn new(seats: usize, words: usize) -> BoardLayout<W>
        requires some { 1 ≤ seats }
        requires wide { words ≡ W.width seats }
        ensures { (result.seats ≡ seats) × (result.words ≡ words) }
    {
        W::lawful(seats);
        BoardLayout {
            seats,
            words,
            board: PhantomData,
        }
    }
}

/// How many words apart those words lie at which threads look. So each has a cache line of its own, and a step at one
/// doesn't disturb who looks at another.
pub(crate) const LINE: usize = 8;

/// The board of the ticket lock: one word for all chairs, the number that is served.
pub struct TicketBoard;

const SERVING: usize = LINE;

impl Board for TicketBoard {
    ghost width = { counting_board_width };

    ghost at = { λ _ _. board_line_words };

    ghost passed = { λ _ found. (found + 1) % 2 ^ 64 };

    ghost shows = { λ _. CountingBoardLetsIn };

    fn words(alloc: Global, _seats: usize) -> Result<Vec<u64>, AllocError> {
        vec![in alloc; 0; LINE + 1]
    }

    fn at(_seats: usize, _number: u64) -> usize {
        SERVING
    }

    fn pass<S, V, X, P: TableRule<S, V, X>, M: Change<S, V>>(
        shared: &Shared<S, V, X, P>,
        seat: &mut Seat<S, V>,
        _seats: usize,
        _number: u64,
    ) {
        shared.fetch_add::<Changing<M>>(seat, SERVING, 1);
    }

    fn lawful(_seats: usize) {}
}

/// The board of the array lock: one word for each chair, so that waiting chairs look at different words.
pub struct ArrayBoard;

impl Board for ArrayBoard {
    ghost width = { pointing_board_width };

    ghost at = { board_own_word };

    ghost passed = { λ m _. m + 1 };

    ghost shows = { PointingBoardLetsIn };

    fn words(alloc: Global, seats: usize) -> Result<Vec<u64>, AllocError> {
        let Some(words) = seats
            .checked_add(1)
            .and_then(|lines| lines.checked_mul(LINE))
        else {
            return Err(AllocError);
        };
        vec![in alloc; 0; words]
    }

    fn at(seats: usize, number: u64) -> usize {
        ((number % seats as u64) as usize + 1) * LINE
    }

    fn pass<S, V, X, P: TableRule<S, V, X>, M: Change<S, V>>(
        shared: &Shared<S, V, X, P>,
        seat: &mut Seat<S, V>,
        seats: usize,
        number: u64,
    ) {
        shared.store::<Changing<M>>(seat, Self::at(seats, number + 1), number + 1);
    }

    fn lawful(_seats: usize) {}
}
