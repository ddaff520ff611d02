//! Whom an event lets go on.
ghost use Rattle.std.specs.Prelude.{ℕ, ◌↔◌};
ghost use Rattle.base.specs.Prelude.{Has};
ghost use Rattle.book.specs.Prelude.{HasClosedBeforeBookWaits, IsNamedByBookWaits};

use super::Protocol;
use crate::done_waiting::{all_done_waiting, one_done_waiting};
use crate::waiters::Waiters;
use journal::{Awaited, Kind};

impl Protocol {
    /// Whom `processor` has let go on by this event, with which it has just closed its interval.
    pub(crate) fn named_by(&self, processor: usize, kind: Kind) -> Waiters
        requires closed { HasClosedBeforeBookWaits self.now processor kind }
        ensures { (q : ℕ) → Has result q ↔ IsNamedByBookWaits self.now processor kind q }
    {
        let (awaits, flags, mail) = (&self.awaits, &self.flags, &self.transit);
        match kind {
            Kind::Release(lock) => {
                let next = self.locks.holder(lock);
                one_done_waiting(awaits, flags, mail, Awaited::Grant(lock), next)
            }
            Kind::Arrive => {
                if !mail.ready(processor) {
                    return Waiters::none();
                }
                all_done_waiting(awaits, flags, mail, Awaited::Departure)
            }
            Kind::Set(flag) => all_done_waiting(awaits, flags, mail, Awaited::Signal(flag)),
            _ => Waiters::none(),
        }
    }
}
