//! Which processor of which cluster a seat is, by its type.
ghost use Rattle.seats.specs.Sitting.{SittingSeat, sitting_nowhere};

use std::marker::{Brand, PhantomData};
use std::sync::Wait;

/// Which processor of which cluster a [`Seat`](crate::Seat) is: `S.at` in contracts. So a function that is lent a seat
/// gives the same one back, whatever it does. It is a handle by which a thread may wait, too.
pub trait Sitting: Wait {
    ghost at: { SittingSeat };
}

/// The same, as whoever makes a seat picks it.
pub(crate) trait Placing {
    ghost at: { SittingSeat };
}

impl Placing for Brand {
    ghost at = { sitting_nowhere };
}

/// A seat that was picked, of a thread with the handle `R`.
#[derive(Drop)]
pub(crate) struct PlacedSitting<P, R> {
    at: PhantomData<P>,
    by: PhantomData<R>,
}

impl<P: Placing, R: Wait> PlacedSitting<P, R> {
    /// The seat that `P` names, with the thread's handle.
    pub(crate) fn by(_handle: &R) -> PlacedSitting<P, R> {
        PlacedSitting {
            at: PhantomData,
            by: PhantomData,
        }
    }
}

impl<P: Placing, R: Wait> Wait for PlacedSitting<P, R> {}

impl<P: Placing, R: Wait> Sitting for PlacedSitting<P, R> {
    ghost at = { P.at };
}
