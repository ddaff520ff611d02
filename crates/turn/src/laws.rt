//! The lock's law, as the contract of a method that does nothing.
//!
//! It has no body that an edit could turn: what it says of the rule is proved, and each step keeps the rule by its own
//! contract.
ghost use Rattle.turn.specs.Prelude.{TurnsLaw};

use crate::boards::Board;
use crate::lock::TurnLock;
use crate::turn::Keeper;

impl<B, K: Keeper<B>, W: Board, const ENTRIES: u64> TurnLock<B, K, W, ENTRIES> {
    /// What is so in each state that meets the lock's rule, which holds between any two steps. The numbers drawn and not left
    /// are those from the number of leaves up to the next one, each of one chair. One chair at most is inside, and it has the
    /// least of them. The slot is empty only while a chair is inside, and of the book in it the lock invariant holds.
    /// The chair whose turn it is finds its number where it looks.
    pub fn turns_law(&self)
        ensures { TurnsLaw K.fact (W.shows self.now.layout.seats) (W.at self.now.layout.seats)
            self.now.layout.seats ENTRIES }
    {
        W::lawful(self.layout.seats);
    }
}
