//! The contract of the lock round the book.
ghost use Rattle.std.specs.Prelude.{◌≡◌, ℕ, List, ◌+◌, ◌*◌, ◌^◌, ◌<◌, ◌≤◌, length, map, replicate, IfOk, IfErr};
ghost use Rattle.turn.specs.Prelude.{ChairLockId, lock, chair_place, chair_view, entries, IsChairOutside, IsChairInside, IsSameChair, AreUnusedChairs};
ghost use Rattle.turn.specs.Prelude.{AreChairsInOrder, ChairStands, ChairMayConfer, ChairMayHandIn};

use crate::chair::{Chair, Held, Spent};
use std::alloc::{AllocError, Global};
use std::sync::Wait;

/// What the lock keeps. A view is plain data of one chair, which exists in proofs alone.
pub trait Keeper<B> {
    ghost use Rattle.std.specs.Prelude.{List, ◌<◌};
    ghost use Rattle.turn.specs.Chairs.{lock, chair_place, chair_view};

    type View;

    // The fact over the book and all chairs' views, in the order of their places, that holds whenever the lock is free.
    ghost fact: { B → List Self.View → Type 0 };

    // The view with which each chair of a lock over this book starts.
    ghost first: { B → Self.View };

    // A view of no chair.
    ghost nobody: { Self.View };
}

/// What one call does: the relation between the book that it found, the one that it hands in, its chair's place, the
/// chair's old view and its new one.
pub trait Outcome<B, V> {
    ghost use Rattle.std.specs.Prelude.{ℕ, ◌<◌};

    ghost then: { B → B → ℕ → V → V → Type 0 };
}

/// What one chair learns of another: the relation between its place and its old view, the other's place and view, and its
/// new view.
pub trait Lesson<V> {
    ghost use Rattle.std.specs.Prelude.{ℕ, ◌<◌};

    ghost then: { ℕ → V → ℕ → V → V → Type 0 };
}

/// A lock round one value, the book, under a keeper.
///
/// Nothing is promised of progress, fairness or time: `enter` may never return.
///
/// Chairs are made in this crate alone. So a lock of another crate can meet the contract only by handing its calls on to
/// one of this crate's locks.
pub trait Turn<B, K: Keeper<B>>: Sized + Sync {
    ghost use Rattle.std.specs.Prelude.{◌≡◌, ℕ, ◌+◌, ◌*◌, ◌^◌, ◌<◌, ◌≤◌, length, map, replicate, IfOk, IfErr};
    ghost use Rattle.turn.specs.Chairs.{ChairLockId, lock, chair_place, chair_view, entries, IsChairOutside, IsChairInside, IsSameChair};
    ghost use Rattle.turn.specs.Chairs.{AreUnusedChairs, AreChairsInOrder, ChairStands, ChairMayConfer, ChairMayHandIn};

    /// How often a chair may enter.
    const ENTRIES: u64;

    ghost ENTRIES: { ℕ };

    // Which lock it is. A chair fits the lock whose name it has.
    ghost id: { Self → ChairLockId };

    // How many chairs it has.
    ghost size: { Self → ℕ };

    // How many words the table of such a lock has, by its chairs. It tells one kind of lock from another.
    ghost width: { ℕ → ℕ };

    /// A lock with `seats` chairs, in the order of their places. If memory runs out the book is dropped.
    fn new(alloc: Global, book: B, seats: usize) -> Result<(Self, Vec<Chair<B, K>>), AllocError>
    where
        B: Drop,
        requires some { 1 ≤ seats }
        requires room { seats * ENTRIES < 2 ^ 64 }
        requires fact { K.fact book (replicate seats (K.first book)) }
        ensures { IfOk result (λ t.
            (size t.0 ≡ seats) × (length t.1.items ≡ seats)
            × AreUnusedChairs (id t.0) (K.first book) t.1.items) };

    /// Waits for the chair's turn, and answers the book. It takes no memory.
    ///
    /// [`Spent`] if the chair has entered [`ENTRIES`](Turn::ENTRIES) times; then nothing has changed.
    fn enter<R: Wait>(&self, rt: &R, chair: &mut Chair<B, K>) -> Result<(Held, B), Spent>
        requires own { lock chair.old ≡ id self.now }
        requires outside { IsChairOutside chair.old }
        ensures entered { IfOk result (λ r.
            (entries chair.old < ENTRIES) × (entries chair.new ≡ entries chair.old + 1)
            × IsSameChair chair.old chair.new × (chair_view chair.new ≡ chair_view chair.old)
            × IsChairInside chair.new r.0 r.1) }
        ensures fact { IfOk result (λ r. ChairStands K.fact r.1 (chair_place chair.old) (chair_view chair.old)) }
        ensures spent { IfErr result (λ _. (entries chair.old ≡ ENTRIES) × (chair.new ≡ chair.old)) };

    /// Hands the book in and lets the next one enter. It waits for nothing and takes no memory.
    fn leave<M: Outcome<B, K::View>>(&self, chair: &mut Chair<B, K>, held: Held, book: B)
        requires own { lock chair.old ≡ id self.now }
        requires inside { (found : B) × IsChairInside chair.old held found
            × ChairMayHandIn K.fact M.then found book (chair_place chair.old) (chair_view chair.old) }
        ensures left { IsSameChair chair.old chair.new × (entries chair.new ≡ entries chair.old)
            × IsChairOutside chair.new }
        ensures then { (found : B) → IsChairInside chair.old held found
            → M.then found book (chair_place chair.old) (chair_view chair.old) (chair_view chair.new) };

    /// Gives the chair a new view, by what both chairs know, which are in one thread's hands. So what a thread knows by one
    /// chair it can know by another. It waits for nothing, enters nothing and takes no memory.
    fn confer<M: Lesson<K::View>>(&self, chair: &mut Chair<B, K>, other: &mut Chair<B, K>)
        requires own { (lock chair.old ≡ id self.now) × (lock other.old ≡ id self.now) }
        requires outside { IsChairOutside chair.old × IsChairOutside other.old }
        requires may { ChairMayConfer K.fact M.then (chair_place chair.old) (chair_view chair.old)
            (chair_place other.old) (chair_view other.old) }
        ensures same { IsSameChair chair.old chair.new × (entries chair.new ≡ entries chair.old)
            × IsChairOutside chair.new }
        ensures then { M.then (chair_place chair.old) (chair_view chair.old) (chair_place other.old)
            (chair_view other.old) (chair_view chair.new) }
        ensures other { IsSameChair other.old other.new × (entries other.new ≡ entries other.old)
            × IsChairOutside other.new × (chair_view other.new ≡ chair_view other.old) };

    /// Takes the lock apart, with all its chairs in the order of their places. It waits for nothing and takes no memory.
    fn close(self, chairs: Vec<Chair<B, K>>) -> B
        requires { AreChairsInOrder (id self) (size self) chairs.items }
        ensures { K.fact result (map chair_view chairs.items) };

    // How many times a chair of the lock may enter.
    ghost limits: { (l : Self) → (id l).limit ≡ ENTRIES };

    // A lock is of its kind.
    ghost wide: { (l : Self) → (id l).table.words ≡ width (size l) };
}
