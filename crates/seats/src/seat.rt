//! Seats.
ghost use Rattle.std.specs.Prelude.{◌≡◌, ◌/◌, ◌∷◌, [], Err, IfErr, IfOk, IsOk, None, OnErr, OnOk, Some, false, true, slice_index_or};
ghost use Rattle.book.specs.declared.refused.Refused.{Refused as ARefusal};
ghost use Rattle.journal.specs.declared.event.Kind.TheVariants as kind;
ghost use Rattle.cluster.specs.Prelude.{processor_refusal_of_arrival, processor_refusal_of_ask, processor_refusal_of_flag, processor_refusal_of_release};
ghost use Rattle.seats.specs.Prelude.{AccessesPage, HasDone, IsLeftUndone, IsSitting, kept_layout_lets_access, new_sitting_processor, processor_refusal_at_once, seat_deeds};
ghost use Rattle.seats.specs.Prelude.{IsSeatCallAccessFault, IsSeatCallFault, processor_refusal_of_access, processor_refusal_or_spent};
ghost use Rattle.seats.specs.PhaseGuards.{KeepsToPhaseGuards};
ghost use Rattle.seats.specs.Tables.{guards_of};
ghost use Rattle.seats.specs.declared.fault.SeatFault.TheVariants as fault;

use crate::fault::SeatFault;
use crate::guard::Guard;
use crate::layout::Layout;
use crate::seat_closings::pass;
use crate::sitting::Sitting;
use crate::word_access::access_word;
use cluster::{BookLock, Cluster, Processor, WordAccess};
use journal::Closing;
use std::marker::Model;

/// A processor on its thread. Its calls do what a program over shared words means by them: they fetch a stale copy, hand in
/// a full block, and wait for what they ask for.
///
/// Each call says what a fault leaves, which faults come at once, and what any other one tells. Whether that comes, no call
/// says, since it is the cluster's to answer.
#[derive(Drop)]
pub struct Seat<'a, S: Sitting> {
    rt: &'a S,
    cluster: &'a Cluster<BookLock>,
    processor: Processor<BookLock>,
    layout: &'a Layout,
    /// The table of its phase.
    table: usize,
}

impl<'a, S: Sitting> Model for Seat<'a, S> {
    ghost use Rattle.std.specs.Prelude.{◌≡◌};
    ghost use Rattle.cluster.specs.Copies.Local.{Local};
    ghost use Rattle.seats.specs.Sitting.{IsSitting};
    ghost use Rattle.seats.specs.KeptLayout.{HasKeptSeatLayout};

    ghost Value = { Local };

    ghost view = { λ s. s.processor };

    ghost invariant = { λ s. IsSitting S.at s.cluster.now s.processor × (s.layout.now ≡ S.at.layout)
        × HasKeptSeatLayout S.at s.table s.processor };
}

impl<'a, S: Sitting> Seat<'a, S> {
    /// The seat of this new processor, beside its cluster, under the layout.
    pub(crate) fn new(
        rt: &'a S,
        cluster: &'a Cluster<BookLock>,
        processor: Processor<BookLock>,
        layout: &'a Layout,
    ) -> Seat<'a, S>
        requires sits { IsSitting S.at cluster.now processor }
        requires new { processor ≡ new_sitting_processor S.at }
        requires layout { layout.now ≡ S.at.layout }
        ensures { result ≡ processor }
    {
        Seat {
            rt,
            cluster,
            processor,
            layout,
            table: 0,
        }
    }

    /// Its processor, at the end.
    pub(crate) fn vacate(self) -> Processor<BookLock>
        ensures is { result ≡ self.entry }
        ensures sits { IsSitting S.at S.at.cluster result }
        ensures kept { KeepsToPhaseGuards (guards_of S.at.layout) S.at.number (seat_deeds result) }
    {
        let Seat {
            rt: _,
            cluster: _,
            processor,
            layout: _,
            table: _,
        } = self;
        processor
    }

    /// Whether the layout lets it access the address now.
    pub(crate) fn may_access(&self, address: usize, stores: bool) -> bool
        ensures { result ≡ kept_layout_lets_access S.at self.now address stores }
    {
        match self.layout.guard(self.table, address) {
            Some(Guard::Under(lock)) => self.processor.holds(lock),
            Some(Guard::Of(owner)) => owner == self.processor.number(),
            Some(Guard::Shared) => !stores,
            Some(Guard::Open) => true,
            None => false,
        }
    }

    /// The processor's number, from 0.
    pub fn number(&self) -> usize
        ensures number { result ≡ self.now.number }
        ensures at { result ≡ S.at.number }
    {
        self.processor.number()
    }

    /// Whether it holds the lock. False past the last lock.
    pub fn holds(&self, lock: usize) -> bool
        ensures { result ≡ slice_index_or self.now.held lock false }
    {
        self.processor.holds(lock)
    }

    /// The word at the address. Before the load stands at most a fetch of the address's page.
    ///
    /// The first of these that applies, with nothing done: [`NotAllowed`](SeatFault::NotAllowed) exactly if the layout doesn't
    /// let it; refused as [`Waiting`](cluster::Refused::Waiting) if an earlier call left it waiting,
    /// [`OutOfRange`](cluster::Refused::OutOfRange) past the last address. After any other fault that fetch alone was made, if
    /// any, and the block is full and couldn't be handed in: the journal has no room for it
    /// ([`JournalFull`](cluster::Refused::JournalFull)), the processor has entered the book as often as it may
    /// ([`SeatSpent`](cluster::Refused::SeatSpent)), or no memory was to be had ([`NoMemory`](cluster::Refused::NoMemory)). It
    /// succeeds if the copy is valid and the block has room.
    pub fn load(&mut self, address: usize) -> Result<u32, SeatFault>
        ensures ok { IfOk result (λ v. AccessesPage self.old self.new (address / self.old.sizes.words)
            (kind.Load address v ∷ [])) }
        ensures err { OnErr result (AccessesPage self.old self.new (address / self.old.sizes.words) []) }
        ensures barred { kept_layout_lets_access S.at self.old address false ≡ false
            → (result ≡ Err (fault.NotAllowed address)) × (self.new ≡ self.old) }
        ensures outside { (e : ARefusal) → kept_layout_lets_access S.at self.old address false ≡ true
            → processor_refusal_at_once self.old address ≡ Some e → (result ≡ Err (fault.Refused e)) × (self.new ≡ self.old) }
        ensures fits { kept_layout_lets_access S.at self.old address false ≡ true → processor_refusal_of_access self.old address ≡ None
            → IsOk result }
        ensures fault { IfErr result (IsSeatCallAccessFault S.at self.old self.new address false) }
    {
        if !self.may_access(address, false) {
            return Err(SeatFault::NotAllowed(address));
        }
        match access_word(
            self.rt,
            self.cluster,
            &mut self.processor,
            address,
            WordAccess::Load,
        ) {
            Ok(word) => Ok(word),
            Err(refused) => Err(SeatFault::Refused(refused)),
        }
    }

    /// Stores the word at the address. Before the store stands at most a fetch of the address's page, and it faults as
    /// [`load`](Seat::load) does.
    pub fn store(&mut self, address: usize, word: u32) -> Result<(), SeatFault>
        ensures ok { OnOk result (AccessesPage self.old self.new (address / self.old.sizes.words)
            (kind.Store address word ∷ [])) }
        ensures err { OnErr result (AccessesPage self.old self.new (address / self.old.sizes.words) []) }
        ensures barred { kept_layout_lets_access S.at self.old address true ≡ false
            → (result ≡ Err (fault.NotAllowed address)) × (self.new ≡ self.old) }
        ensures outside { (e : ARefusal) → kept_layout_lets_access S.at self.old address true ≡ true
            → processor_refusal_at_once self.old address ≡ Some e → (result ≡ Err (fault.Refused e)) × (self.new ≡ self.old) }
        ensures fits { kept_layout_lets_access S.at self.old address true ≡ true → processor_refusal_of_access self.old address ≡ None
            → IsOk result }
        ensures fault { IfErr result (IsSeatCallAccessFault S.at self.old self.new address true) }
    {
        if !self.may_access(address, true) {
            return Err(SeatFault::NotAllowed(address));
        }
        match access_word(
            self.rt,
            self.cluster,
            &mut self.processor,
            address,
            WordAccess::Store(word),
        ) {
            Ok(_) => Ok(()),
            Err(refused) => Err(SeatFault::Refused(refused)),
        }
    }

    /// Acquires the lock, for which it waits.
    ///
    /// The first of these that applies, with nothing done: refused as [`BadLock`](cluster::Refused::BadLock) past the last
    /// lock, [`Waiting`](cluster::Refused::Waiting), [`AlreadyHeld`](cluster::Refused::AlreadyHeld),
    /// [`SeatSpent`](cluster::Refused::SeatSpent). Else nothing was done and the journal is full
    /// ([`JournalFull`](cluster::Refused::JournalFull)) or no memory was to be had
    /// ([`NoMemory`](cluster::Refused::NoMemory)); or it has asked and waits still: for one of these three reasons,
    /// [`Stuck`](SeatFault::Stuck) in a deadlock, or [`Deserted`](SeatFault::Deserted) while what it awaits hasn't come. Other
    /// processors decide which of these comes, if any.
    pub fn lock(&mut self, lock: usize) -> Result<(), SeatFault>
        ensures ok { OnOk result (HasDone self.old self.new (kind.Ask lock ∷ kind.Acquire lock ∷ [])) }
        ensures err { OnErr result (IsLeftUndone self.old self.new (kind.Ask lock)) }
        ensures outside { (e : ARefusal) → processor_refusal_or_spent (processor_refusal_of_ask self.old lock) self.old ≡ Some e
            → (result ≡ Err (fault.Refused e)) × (self.new ≡ self.old) }
        ensures fault { IfErr result (IsSeatCallFault self.old self.new (kind.Ask lock)) }
    {
        pass(
            self.rt,
            self.cluster,
            &mut self.processor,
            Closing::Ask(lock),
        )
    }

    /// Releases the lock. Refused as [`lock`](Seat::lock) is before it asks, with [`NotHeld`](cluster::Refused::NotHeld) in the
    /// place of `AlreadyHeld`. After any fault nothing was done.
    pub fn unlock(&mut self, lock: usize) -> Result<(), SeatFault>
        ensures ok { OnOk result (HasDone self.old self.new (kind.Release lock ∷ [])) }
        ensures err { OnErr result (IsLeftUndone self.old self.new (kind.Release lock)) }
        ensures outside { (e : ARefusal) → processor_refusal_or_spent (processor_refusal_of_release self.old lock) self.old ≡ Some e
            → (result ≡ Err (fault.Refused e)) × (self.new ≡ self.old) }
        ensures fault { IfErr result (IsSeatCallFault self.old self.new (kind.Release lock)) }
    {
        pass(
            self.rt,
            self.cluster,
            &mut self.processor,
            Closing::Release(lock),
        )
    }

    /// Passes the barrier, where it waits until all have come. What any of them stored before, all know of after it.
    /// Refused with nothing done as [`Waiting`](cluster::Refused::Waiting) and then as [`lock`](Seat::lock) is from
    /// `SeatSpent` on; or it has arrived and waits still, for the reasons that are told there.
    pub fn barrier(&mut self) -> Result<(), SeatFault>
        ensures ok { OnOk result (HasDone self.old self.new (kind.Arrive ∷ kind.Depart ∷ [])) }
        ensures err { OnErr result (IsLeftUndone self.old self.new kind.Arrive) }
        ensures outside { (e : ARefusal) → processor_refusal_or_spent (processor_refusal_of_arrival self.old) self.old ≡ Some e
            → (result ≡ Err (fault.Refused e)) × (self.new ≡ self.old) }
        ensures fault { IfErr result (IsSeatCallFault self.old self.new kind.Arrive) }
    {
        pass(self.rt, self.cluster, &mut self.processor, Closing::Arrive)?;
        self.table = self.layout.next(self.table);
        Ok(())
    }

    /// Sets the flag, which stays set. The first of these that applies, with nothing done: refused as
    /// [`BadFlag`](cluster::Refused::BadFlag) past the last flag, [`Waiting`](cluster::Refused::Waiting), and then as
    /// [`lock`](Seat::lock) is from `SeatSpent` on. After any fault nothing was done.
    pub fn set(&mut self, flag: usize) -> Result<(), SeatFault>
        ensures ok { OnOk result (HasDone self.old self.new (kind.Set flag ∷ [])) }
        ensures err { OnErr result (IsLeftUndone self.old self.new (kind.Set flag)) }
        ensures outside { (e : ARefusal) → processor_refusal_or_spent (processor_refusal_of_flag self.old flag) self.old ≡ Some e
            → (result ≡ Err (fault.Refused e)) × (self.new ≡ self.old) }
        ensures fault { IfErr result (IsSeatCallFault self.old self.new (kind.Set flag)) }
    {
        pass(
            self.rt,
            self.cluster,
            &mut self.processor,
            Closing::Set(flag),
        )
    }

    /// Waits until the flag is set. What was stored before it was set is known after this. Refused as [`set`](Seat::set) is; or
    /// it watches and waits still, for the reasons that [`lock`](Seat::lock) tells.
    pub fn await_flag(&mut self, flag: usize) -> Result<(), SeatFault>
        ensures ok { OnOk result (HasDone self.old self.new (kind.Watch flag ∷ kind.Await flag ∷ [])) }
        ensures err { OnErr result (IsLeftUndone self.old self.new (kind.Watch flag)) }
        ensures outside { (e : ARefusal) → processor_refusal_or_spent (processor_refusal_of_flag self.old flag) self.old ≡ Some e
            → (result ≡ Err (fault.Refused e)) × (self.new ≡ self.old) }
        ensures fault { IfErr result (IsSeatCallFault self.old self.new (kind.Watch flag)) }
    {
        pass(
            self.rt,
            self.cluster,
            &mut self.processor,
            Closing::Watch(flag),
        )
    }
}
