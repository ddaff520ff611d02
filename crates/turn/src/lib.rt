//! A lock round one value, with an invariant that the user names.
//!
//! A [`Keeper`] names the lock invariant: a fact over the value (the book) and the list of all chairs' views, which
//! holds whenever the lock is free. A [`Turn`] is a lock that keeps it: a chair that enters gets the book with that
//! fact, and owes it again on leaving.
//! Two locks meet the contract, from one text.
//!
//! - The ticket lock: Reed and Kanodia, "Synchronization with eventcounts and sequencers", CACM 1979. Also Mellor-Crummey and
//!   Scott, "Algorithms for scalable synchronization on shared-memory multiprocessors", ACM TOCS 1991, section 2.2.
//! - The array lock: Anderson, "The performance of spin lock alternatives for shared-memory multiprocessors", IEEE TPDS 1990.
//!
//! **The steps.** Each is one atomic operation on a word; all words are 0 at the start. In the array lock the own word of
//! number m is word m modulo the chairs.
//!
//! | Step | Ticket lock (words `next`, `serving`) | Array lock (word `next`, and one for each chair) |
//! |---|---|---|
//! | draw | `fetch_add` on `next`: the caller's number | the same |
//! | look | a load of `serving` that finds another number | a load of the own word that finds another number |
//! | enter | a load of `serving` that finds the own number | a load of the own word that finds the own number |
//! | leave | `fetch_add` on `serving`, after the book was put back | a store of the next number into its own word, likewise |
//! | talk | a load of `next`, by which a chair outside is told what another one of its thread knows | the same |
//!
//! Who waits looks again and again, and sleeps between two looks after a while. Who leaves wakes the next one.
//!
//! **What contracts see** (`specs/Chairs`): of a chair its `lock`, `place`, `view`, `entries`, and whether it `IsChairOutside`
//! or `IsChairInside` with the book that it took; of a lock its `id`, `size` and `ENTRIES`. Lists are read by `slice_get`.
//!
//! **What is proved**: the lock invariant whenever the lock is free. [`Spent`] exactly after that many entries, with
//! nothing changed. `turns_law` of both locks: the numbers are served in turn, and one chair at most is inside.
//! [`Turn::confer`] gives a chair what both chairs know, and so what a thread left by one of them.
//!
//! **What is only tested**: that waiting chairs get in, though their threads sleep; the words of both boards; that who listens
//! to a [`Bell`] sleeps until it is told. Fairness, time
//! and that `enter` returns are neither proved nor promised.
#![tactic(auto)]

mod bell;
mod boards;
mod chair;
mod laws;
mod lock;
mod sleepers;
mod turn;

pub use bell::Bell;
pub use chair::{Chair, ChairToken, Held, Spent};
pub use lock::{ArrayLock, TicketLock};
pub use turn::{Keeper, Lesson, Outcome, Turn};
