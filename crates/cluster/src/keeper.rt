//! What the book's lock keeps.
ghost use Rattle.cluster.specs.Prelude.{KeptWithViews, view_of_nothing, view_book_sizes, SeesKeptViewBeside, SeesKeptView};

use crate::shape::Shape;
use book::Book;
use journal::Event;
use std::collections::LinkedList;
use turn::{ArrayLock, Keeper, Lesson, Outcome, TicketLock, Turn};

/// What one processor knows of the book while it is outside: the sizes of its cluster, the history as its last call
/// that entered left it, how many of its first events were cut off then, and how many its own cuts took off in all. It
/// exists only in proofs.
pub struct View {
    pub shape: Shape,
    pub seen: LinkedList<Event>,
    pub cut: u64,
    pub own_cut: u64,
}

/// The keeper of the book, with its lock invariant: the book represents some history, of which the journal holds what
/// is left. Each load of it is explained, and it goes on from what each processor has seen.
pub struct Rule;

impl Keeper<Book> for Rule {
    ghost use Rattle.cluster.specs.KeptViews.{KeptWithViews, view_of_nothing, view_book_sizes};

    type View = View;

    ghost fact = { KeptWithViews };

    ghost first = { λ b. view_of_nothing (view_book_sizes b) };

    ghost nobody = { view_of_nothing (record
        { processors = 0; pages = 0; words = 0; locks = 0; flags = 0 }) };
}

/// Of each call that enters: the processor has seen what it found, and the events of its own that it leaves there.
pub(crate) struct Looking;

impl Outcome<Book, View> for Looking {
    ghost use Rattle.cluster.specs.KeptViews.{SeesKeptView};

    ghost then = { SeesKeptView };
}

/// Of two processors in one thread's hands: the one has seen all that there is, and so all that the other has.
pub(crate) struct LookingOver;

impl Lesson<View> for LookingOver {
    ghost use Rattle.cluster.specs.KeptViews.{SeesKeptViewBeside};

    ghost then = { SeesKeptViewBeside };
}

/// A lock round the book, under this crate's rule. A lock of one's own that meets [`Turn`] gets it by an impl with nothing
/// in it.
pub trait BookTurn: Turn<Book, Rule> {}

impl<const ENTRIES: u64> BookTurn for ArrayLock<Book, Rule, ENTRIES> {}

impl<const ENTRIES: u64> BookTurn for TicketLock<Book, Rule, ENTRIES> {}

/// The lock round the book: an array lock of 2^40 entries a processor.
pub type BookLock = ArrayLock<Book, Rule, 1099511627776>;

/// The same as a ticket lock.
pub type TicketBookLock = TicketLock<Book, Rule, 1099511627776>;
