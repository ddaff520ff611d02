//! What a program calls: asks, releases, arrivals, sets and watches. Each is a close by its event, under a name and
//! with reasons of refusal of its own.
ghost use Rattle.std.specs.Prelude.{◌≡◌};
ghost use Rattle.std.specs.Result.{result_err};
ghost use Rattle.journal.specs.declared.event.Kind.TheVariants.{Ask, Release, Arrive, Set, Watch};
ghost use Rattle.cluster.specs.Prelude.{processor_refusal_of_arrival, processor_refusal_of_ask, processor_refusal_of_release, processor_refusal_of_flag, IsClosingCall};

use super::Cluster;
use crate::keeper::BookTurn;
use crate::processor::Processor;
use book::Refused;
use journal::Closing;
use std::sync::Wait;

impl<T: BookTurn> Cluster<T> {
    /// Asks for a lock that the processor doesn't hold: hands its open block in and closes its interval, and
    /// from then on it waits for the lock until a [`take`](Cluster::take) succeeds.
    ///
    /// The first of these that applies: [`BadLock`](Refused::BadLock) past the last lock,
    /// [`Waiting`](Refused::Waiting) if it waits already, [`AlreadyHeld`](Refused::AlreadyHeld),
    /// [`SeatSpent`](Refused::SeatSpent) if it has entered the book as often as it may. Else
    /// [`JournalFull`](Refused::JournalFull) exactly if the journal would have more than 2^20 events, or
    /// [`NoMemory`](Refused::NoMemory). A refused call leaves the processor as it was, except that it may have seen
    /// more of the journal.
    pub fn ask<R: Wait>(
        &self,
        rt: &R,
        processor: &mut Processor<T>,
        lock: usize,
    ) -> Result<(), Refused>
        requires own { processor.old.lock ≡ self.now.lock }
        ensures { IsClosingCall (processor_refusal_of_ask processor.old lock) (Ask lock)
            processor.old processor.new (result_err result) }
    {
        self.close(rt, processor, Closing::Ask(lock))
    }

    /// Releases a lock that the processor holds: hands its open block in and closes its interval. The next
    /// processor to acquire the lock learns of it.
    ///
    /// Refused as [`ask`](Cluster::ask) is, with [`NotHeld`](Refused::NotHeld) in the place of `AlreadyHeld`.
    pub fn release<R: Wait>(
        &self,
        rt: &R,
        processor: &mut Processor<T>,
        lock: usize,
    ) -> Result<(), Refused>
        requires own { processor.old.lock ≡ self.now.lock }
        ensures { IsClosingCall (processor_refusal_of_release processor.old lock) (Release lock)
            processor.old processor.new (result_err result) }
    {
        self.close(rt, processor, Closing::Release(lock))
    }

    /// Arrives at the barrier: hands the open block in and closes the interval, and from then on the processor
    /// waits until all have arrived and a [`take`](Cluster::take) succeeds.
    ///
    /// Refused as [`ask`](Cluster::ask) is, with none of the reasons that name the lock.
    pub fn arrive<R: Wait>(&self, rt: &R, processor: &mut Processor<T>) -> Result<(), Refused>
        requires own { processor.old.lock ≡ self.now.lock }
        ensures { IsClosingCall (processor_refusal_of_arrival processor.old) Arrive
            processor.old processor.new (result_err result) }
    {
        self.close(rt, processor, Closing::Arrive)
    }

    /// Sets a flag, which stays set: hands the open block in and closes the interval. Each
    /// processor that awaits the flag from then on learns of it.
    ///
    /// The first of these that applies: [`BadFlag`](Refused::BadFlag) past the last flag,
    /// [`Waiting`](Refused::Waiting), and then as for [`ask`](Cluster::ask).
    pub fn set<R: Wait>(
        &self,
        rt: &R,
        processor: &mut Processor<T>,
        flag: usize,
    ) -> Result<(), Refused>
        requires own { processor.old.lock ≡ self.now.lock }
        ensures { IsClosingCall (processor_refusal_of_flag processor.old flag) (Set flag)
            processor.old processor.new (result_err result) }
    {
        self.close(rt, processor, Closing::Set(flag))
    }

    /// Watches a flag: hands the open block in and closes the interval, and from then on the processor waits
    /// until the flag is set and a [`take`](Cluster::take) succeeds.
    ///
    /// Refused as [`set`](Cluster::set) is.
    pub fn watch<R: Wait>(
        &self,
        rt: &R,
        processor: &mut Processor<T>,
        flag: usize,
    ) -> Result<(), Refused>
        requires own { processor.old.lock ≡ self.now.lock }
        ensures { IsClosingCall (processor_refusal_of_flag processor.old flag) (Watch flag)
            processor.old processor.new (result_err result) }
    {
        self.close(rt, processor, Closing::Watch(flag))
    }
}
