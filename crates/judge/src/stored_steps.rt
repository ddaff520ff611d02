//! What a processor has stored in a page, by the places where its intervals first store in it.
ghost use Rattle.std.specs.Prelude.{◌≡◌, ◌≤◌, ◌<◌, ◌+◌, ◌^◌, ℕ, IfOk, cond, nat_lt};
ghost use Rattle.base.specs.InOrderOnce.{InOrder};
ghost use Rattle.judge.specs.Prelude.{asked_steps_from, stored_before, stored_total_next};

use crate::asked_places::AskedPlaces;
use std::alloc::{AllocError, Global};

/// What a processor has stored in a page.
#[derive(Clone, Copy)]
pub(crate) struct StoredAmounts {
    /// In how many of its intervals.
    pub(crate) records: u32,
    /// How many words, each counted once for each of these intervals.
    pub(crate) words: u32,
}

/// Where an interval first stores in a page. It takes 12 bytes.
#[derive(Clone, Copy)]
pub(crate) struct StoredStep {
    pub(crate) place: u32,
    /// What its processor had stored in the page before.
    pub(crate) before: StoredAmounts,
}

/// All that a processor has stored in a page so far.
#[derive(Clone, Copy)]
pub(crate) struct StoredTotal {
    /// One more than the number of the last interval that stored in it, 0 if none did.
    pub(crate) until: u32,
    pub(crate) amounts: StoredAmounts,
}

/// What had been stored before the limit, looked for by halving; `all` if no step is from it on.
fn halve_stored_steps(steps: &[StoredStep], all: StoredAmounts, limit: u32) -> StoredAmounts
    requires { InOrder (λ x y. x.place ≤ y.place) steps.now }
    ensures { result ≡ stored_before steps.now all limit }
{
    let first = steps.partition_point(|step| step.place < limit);
    if first < steps.len() {
        steps[first].before
    } else {
        all
    }
}

/// What had been stored before the limit; `all` if no step is from it on. Mostly none is, so the last is looked at first.
pub(crate) fn amounts_before(steps: &[StoredStep], all: StoredAmounts, limit: u32) -> StoredAmounts
    requires { InOrder (λ x y. x.place ≤ y.place) steps.now }
    ensures { result ≡ stored_before steps.now all limit }
{
    let count = steps.len();
    if count == 0 {
        return all;
    }
    if steps[count - 1].place < limit {
        all
    } else {
        halve_stored_steps(steps, all, limit)
    }
}

/// The steps that tell what had been stored before the asked places: of each the first one from it on. For each step it looks at
/// each of these places, at most one a processor and one. The only error is running out of memory.
pub(crate) fn asked_steps(
    alloc: Global,
    steps: &[StoredStep],
    asked: &AskedPlaces,
) -> Result<Vec<StoredStep>, AllocError>
    ensures { IfOk result (λ left. left.items ≡ asked_steps_from asked.now 0 steps.now) }
{
    let mut left = Vec::new(alloc);
    let mut from = 0;
    for step in steps {
        let place = step.place as usize;
        if asked.has_between(from, place) {
            left.push(*step)?;
        }
        from = place + 1;
    }
    Ok(left)
}

impl StoredTotal {
    /// Of nothing.
    pub(crate) fn none() -> StoredTotal
        ensures { result ≡ record { until = 0; amounts = record { records = 0; words = 0 } } }
    {
        StoredTotal {
            until: 0,
            amounts: StoredAmounts {
                records: 0,
                words: 0,
            },
        }
    }

    /// With a word more in this interval, which none is past.
    pub(crate) fn with_word(self, interval: u32) -> StoredTotal
        requires interval { interval < 2 ^ 31 }
        requires records { self.amounts.records < 2 ^ 31 }
        requires words { self.amounts.words < 2 ^ 31 }
        ensures { result ≡ stored_total_next self interval }
    {
        let first = self.until <= interval;
        StoredTotal {
            until: interval + 1,
            amounts: StoredAmounts {
                records: self.amounts.records + u32::from(first),
                words: self.amounts.words + 1,
            },
        }
    }
}
