//! The keeper of a count.
ghost use Rattle.std.specs.Prelude.{◌≡◌, ◌+◌};
ghost use Rattle.test_crews.specs.Counters.Tallies.{IsTallied};

use turn::{Keeper, Outcome};

/// The book is a count, and a view is what one chair has added to it.
pub struct Counter;

impl Keeper<u64> for Counter {
    ghost use Rattle.test_crews.specs.Counters.Tallies.{IsTallied};

    type View = u64;

    ghost fact = { IsTallied };

    ghost first = { λ _. 0 };

    ghost nobody = { 0 };
}

/// One more.
pub struct AddsOne;

impl Outcome<u64, u64> for AddsOne {
    ghost use Rattle.std.specs.Prelude.{◌≡◌, ◌+◌};

    ghost then = { λ _ _ _ added now. now ≡ added + 1 };
}
