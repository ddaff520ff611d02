//! What a thread enters with: its chair, and what it has while it is inside.
ghost use Rattle.std.specs.Prelude.{◌≡◌, ◌+◌, ◌^◌, ◌<◌, ◌≤◌, nat_le, true, [], None};
ghost use Rattle.turn.specs.declared.chair.ChairStage.TheVariants.{Outside};
ghost use Rattle.turn.specs.Stages.{stage_carries};

use crate::turn::Keeper;
use atomic_table::Seat;
use std::collections::LinkedList;
use thiserror::Error;

/// Where a chair stands, for proofs alone: outside, waiting with its number, or inside with its number and the book as
/// it took it. No value of it is made.
pub enum ChairStage<B> {
    Outside,
    Waiting(u64),
    Inside(u64, B),
}

/// What the lock's rule says of one chair, for proofs alone: its stage, how often it has entered, and the keeper's view.
pub struct ChairState<B, V> {
    pub stage: ChairStage<B>,
    pub entries: u64,
    pub view: V,
}

/// A chair that a seat of the table has besides its own ones, for proofs alone.
pub struct ChairGuest<C> {
    pub place: u64,
    pub chair: C,
}

/// The chairs of a seat of the table, for proofs alone: `lead` has `place`, and `others` have the places after it; the
/// guest, if there is one, stands at another place. Of a seat that is not live nothing is known.
pub struct ChairRun<C> {
    pub live: bool,
    pub place: u64,
    pub lead: C,
    pub others: LinkedList<C>,
    pub guest: Option<ChairGuest<C>>,
}

/// The token with which one thread enters one lock, over the book `B` under the keeper `K`.
pub type Chair<B, K> = ChairToken<B, <K as Keeper<B>>::View>;

/// A chair by the type of its view, as contracts name it. Write [`Chair`].
#[derive(Drop)]
pub struct ChairToken<B, V> {
    pub(crate) seat: Seat<Option<B>, ChairRun<ChairState<B, V>>>,
    pub(crate) entries: u64,
    pub(crate) limit: u64,
    ghost single: { (seat.me.0.live ≡ true) × (seat.me.0.others ≡ []) × (seat.me.0.guest ≡ None) },
    ghost counted: { (entries ≡ seat.me.0.lead.entries) × (entries ≤ limit) },
    ghost carries: { seat.me.1 ≡ stage_carries seat.me.0.lead.stage },
}

impl<B, V> ChairToken<B, V> {
    ghost use Rattle.turn.specs.Chairs.{chair_lock_id, lock, entries, IsUnusedChair};
    ghost use Rattle.turn.specs.SeatSteps.{IsSteppingSeatAtStage};

    // A chair that never entered.
    pub(crate) fn fresh(
        seat: Seat<Option<B>, ChairRun<ChairState<B, V>>>,
        limit: u64,
    ) -> ChairToken<B, V>
        requires outside { IsSteppingSeatAtStage Outside seat.me }
        requires never { seat.me.0.lead.entries ≡ 0 }
        ensures { IsUnusedChair (chair_lock_id seat.table_id limit) seat.me.0.place seat.me.0.lead.view result }
    {
        ChairToken {
            seat,
            entries: 0,
            limit,
        }
    }

    /// Whether the chair has entered as often as it may.
    pub fn is_spent(&self) -> bool
        ensures { result ≡ nat_le (lock self.now).limit (entries self.now) }
    {
        self.entries >= self.limit
    }

    pub(crate) fn into_seat(self) -> Seat<Option<B>, ChairRun<ChairState<B, V>>>
        ensures { result ≡ self.seat }
    {
        let ChairToken {
            seat,
            entries: _,
            limit: _,
        } = self;
        seat
    }
}

/// The right to be inside, which `enter` alone gives and `leave` takes. It must be spent.
pub struct Held {
    pub(crate) number: u64,
    ghost small: { number + 1 < 2 ^ 64 },
}

/// The chair has entered as often as it may.
#[derive(Debug, Clone, Copy, PartialEq, Eq, Drop, Error)]
#[error("lock entries spent")]
pub struct Spent;
