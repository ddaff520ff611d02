//! Trims of the closed intervals.
ghost use Rattle.std.specs.Prelude.{◌≡◌, ℕ, ◌<◌, List, Some, length, slice_get};
ghost use Rattle.book.specs.Prelude.{transition_least, transition_trimmed_by, AllowsTrimOfCall};

use interval::Closed;
use vtime::VTime;

/// The least entry of these timestamps for owner `q`.
fn least(times: &[VTime], q: usize) -> u64
    requires some { 0 < length times.now }
    requires long { (i : ℕ) (t : List ℕ) → slice_get times.now i ≡ Some t → q < length t }
    ensures { result ≡ transition_least times.now q }
{
    let mut least = times[0].entry(q);
    for time in times {
        least = least.min(time.entry(q));
    }
    least
}

/// Drops the intervals that all of these timestamps cover, after that of `processor` has risen from `before`. Of an
/// owner whose entry hasn't risen nothing is left to drop, unless `processor` is the only one.
pub(crate) fn trim(closed: &mut Closed, times: &[VTime], processor: usize, before: &VTime)
    requires { AllowsTrimOfCall closed.old times.now processor before.now }
    ensures { closed.new ≡ transition_trimmed_by closed.old times.now (length times.now) }
{
    for owner in 0..times.len() {
        let has_risen = before.entry(owner) < times[processor].entry(owner);
        if has_risen || owner == processor {
            closed.trim(owner, least(times, owner));
        }
    }
}
