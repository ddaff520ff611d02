//! Who waits, and who of them may go on.
ghost use Rattle.std.specs.Prelude.{ℕ, ◌≡◌, ◌<◌, ◌↔◌, EachIndex, IfSome, IsTrue, Some, true, false, length, slice_get};
ghost use Rattle.base.specs.Prelude.{most_processors, Has};
ghost use Rattle.journal.specs.Prelude.{closing_awaits_kind};
ghost use Rattle.book.specs.Prelude.{message_has_come};
ghost use Rattle.journal.specs.declared.closing_and_awaited.Awaited.{Awaited as AnAwaited};

use crate::mail::mail_has_come;
use crate::waiters::Waiters;
use journal::Awaited;
use transit::Transit;
use vtime::VTime;

/// Whether each processor waits for what hasn't come.
pub(crate) fn all_wait_in_vain(
    awaits: &[Option<Awaited>],
    flags: &[Option<VTime>],
    mail: &Transit,
) -> bool
    requires mail { length awaits.now ≡ length mail.now }
    requires flags { (p f : ℕ) → slice_get awaits.now p ≡ Some (Some (Awaited.Signal f))
        → f < length flags.now }
    ensures { IsTrue result ↔ EachIndex awaits.now (λ p. (a : AnAwaited)
        × (slice_get awaits.now p ≡ Some (Some a))
        × (message_has_come flags.now mail.now p (closing_awaits_kind a) ≡ false)) }
{
    for (p, awaited) in awaits.iter().enumerate() {
        let Some(awaited) = *awaited else {
            return false;
        };
        if mail_has_come(flags, mail, p, awaited) {
            return false;
        }
    }
    true
}

/// Those who wait for this, which has come for them.
pub(crate) fn all_done_waiting(
    awaits: &[Option<Awaited>],
    flags: &[Option<VTime>],
    mail: &Transit,
    awaited: Awaited,
) -> Waiters
    requires mail { length awaits.now ≡ length mail.now }
    requires flag { (f : ℕ) → awaited ≡ Awaited.Signal f → f < length flags.now }
    ensures { (p : ℕ) → Has result p ↔ ((p < most_processors)
        × (slice_get awaits.now p ≡ Some (Some awaited))
        × (message_has_come flags.now mail.now p (closing_awaits_kind awaited) ≡ true)) }
{
    let mut waiters = Waiters::none();
    for p in 0..awaits.len() {
        if is_done_waiting(awaits, flags, mail, p, awaited) {
            waiters.add(p);
        }
    }
    waiters
}

/// The same of one processor, if there is one.
pub(crate) fn one_done_waiting(
    awaits: &[Option<Awaited>],
    flags: &[Option<VTime>],
    mail: &Transit,
    awaited: Awaited,
    one: Option<usize>,
) -> Waiters
    requires mail { length awaits.now ≡ length mail.now }
    requires flag { (f : ℕ) → awaited ≡ Awaited.Signal f → f < length flags.now }
    requires one { IfSome one (λ p. p < length awaits.now) }
    ensures { (p : ℕ) → Has result p ↔ ((one ≡ Some p) × (p < most_processors)
        × (slice_get awaits.now p ≡ Some (Some awaited))
        × (message_has_come flags.now mail.now p (closing_awaits_kind awaited) ≡ true)) }
{
    let mut waiters = Waiters::none();
    if let Some(p) = one {
        if is_done_waiting(awaits, flags, mail, p, awaited) {
            waiters.add(p);
        }
    }
    waiters
}

/// Whether `processor` waits for this, which has come.
fn is_done_waiting(
    awaits: &[Option<Awaited>],
    flags: &[Option<VTime>],
    mail: &Transit,
    processor: usize,
    awaited: Awaited,
) -> bool
    requires processor { processor < length awaits.now }
    requires mail { length awaits.now ≡ length mail.now }
    requires flag { (f : ℕ) → awaited ≡ Awaited.Signal f → f < length flags.now }
    ensures { IsTrue result ↔ ((slice_get awaits.now processor ≡ Some (Some awaited))
        × (message_has_come flags.now mail.now processor (closing_awaits_kind awaited) ≡ true)) }
{
    let waits = awaits[processor];
    waits == Some(awaited) && mail_has_come(flags, mail, processor, awaited)
}
