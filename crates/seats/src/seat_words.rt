//! What is made of a seat's calls: words that are added to, many words, and words as values of other types.
ghost use Rattle.std.specs.Prelude.{◌≡◌, ◌⊎◌, ◌+◌, ◌-◌, ◌/◌, ◌∷◌, ◌++◌, ◌==◌, [], ℕ, List, Err, IfErr, IfOk, IsOk, None, OnErr, OnOk, Some, true, false, if◌then◌else◌, length, vec_len};
ghost use Rattle.book.specs.declared.refused.Refused.{Refused as ARefusal};
ghost use Rattle.book.specs.declared.refused.Refused.TheVariants.{NoMemory};
ghost use Rattle.journal.specs.declared.event.Kind.TheVariants as kind;
ghost use Rattle.cluster.specs.Prelude.{processor_refusal_of_ask};
ghost use Rattle.seats.specs.Prelude.{AccessesPage, AddsUpTo, HasActed, HasActedInPart, HasFoundKept, HasSeatCallFaultIn, HasSummed, HasWeighed, IsBetweenTenures, IsSeatCallAccessFault, KeepsBalanceFact};
ghost use Rattle.seats.specs.Prelude.{word_tally_adding, balance_fact_adds_two, balance_fact, loads_at, acting_loads_from, kept_layout_lets_access, processor_refusal_at_once, seat_deeds, tenure_of_lock, processor_refusal_of_access, processor_refusal_or_spent};
ghost use Rattle.seats.specs.declared.fault.SeatFault.TheVariants as fault;

use crate::fault::SeatFault;
use crate::seat::Seat;
use crate::sitting::Sitting;
use crate::word::Word;
use std::alloc::Global;

impl<'a, S: Sitting> Seat<'a, S> {
    /// Adds the number to the word at the address, modulo 2^32: loads it, and stores it with the number added. Answers the word
    /// as it was. Under a lock, hold that; [`add`](Seat::add) takes it.
    ///
    /// [`NotAllowed`](SeatFault::NotAllowed) exactly if the layout doesn't let it store there, with nothing done. It faults as
    /// [`load`](Seat::load) and [`store`](Seat::store) do; then nothing was done, or only the load.
    pub fn increase(&mut self, address: usize, number: u32) -> Result<u32, SeatFault>
        ensures ok { IfOk result (λ v. HasActed self.old self.new (word_tally_adding address v number)) }
        ensures err { OnErr result ((v : ℕ) × HasActedInPart self.old self.new (word_tally_adding address v number)) }
        ensures fault { IfErr result (λ f. (v : ℕ) × HasSeatCallFaultIn S.at self.old self.new (word_tally_adding address v number) f) }
        ensures awaits { self.new.awaits ≡ self.old.awaits }
        ensures barred { kept_layout_lets_access S.at self.old address true ≡ false
            → (result ≡ Err (fault.NotAllowed address)) × (self.new ≡ self.old) }
        ensures sum { OnOk result ((l a n : ℕ) → AddsUpTo l a n (seat_deeds self.old)
            → AddsUpTo l a (n + (if address == a then number else 0)) (seat_deeds self.new)) }
    {
        if !self.may_access(address, true) {
            return Err(SeatFault::NotAllowed(address));
        }
        let word = self.load(address)?;
        self.store(address, word.wrapping_add(number))?;
        Ok(word)
    }

    /// Adds the number to the word at the address under the lock, modulo 2^32: acquires the lock, for which it waits, loads the
    /// word, stores it with the number added, and releases the lock. Answers the word as it was.
    ///
    /// Nothing else need be shown for the word's total: that is what all have added (`AddsUpTo`, `added_law`). It faults as
    /// [`lock`](Seat::lock), [`increase`](Seat::increase) and [`unlock`](Seat::unlock) do, and then has done a beginning of this:
    /// it may hold the lock.
    pub fn add(&mut self, lock: usize, address: usize, number: u32) -> Result<u32, SeatFault>
        ensures ok { IfOk result (λ v. HasActed self.old self.new (tenure_of_lock lock (word_tally_adding address v number))) }
        ensures err { OnErr result ((v : ℕ) × HasActedInPart self.old self.new (tenure_of_lock lock (word_tally_adding address v number))) }
        ensures fault { IfErr result (λ f. (v : ℕ)
            × HasSeatCallFaultIn S.at self.old self.new (tenure_of_lock lock (word_tally_adding address v number)) f) }
        ensures idle { OnOk result (self.new.awaits ≡ None) }
        ensures sum { OnOk result ((l a n : ℕ) → AddsUpTo l a n (seat_deeds self.old)
            → AddsUpTo l a (n + (if address == a then number else 0)) (seat_deeds self.new)) }
        ensures outside { (e : ARefusal) → processor_refusal_or_spent (processor_refusal_of_ask self.old lock) self.old ≡ Some e
            → (result ≡ Err (fault.Refused e)) × (self.new ≡ self.old) }
    {
        self.lock(lock)?;
        let word = self.increase(address, number)?;
        self.unlock(lock)?;
        Ok(word)
    }

    /// Adds to two words under the lock, in one tenure: to each of these addresses its number, modulo 2^32, as
    /// [`add`](Seat::add) does. If the lock keeps some words as great as others, and what is added keeps them so, then nothing
    /// else need be shown for that (`balance_fact`).
    ///
    /// It faults as [`add`](Seat::add) does, and then has done a beginning of this: it may hold the lock.
    pub fn add_two(
        &mut self,
        lock: usize,
        first: (usize, u32),
        second: (usize, u32),
    ) -> Result<(), SeatFault>
        ensures ok { OnOk result ((v w : ℕ) × HasActed self.old self.new
            (tenure_of_lock lock (word_tally_adding first.0 v first.1 ++ word_tally_adding second.0 w second.1))) }
        ensures err { OnErr result ((v w : ℕ) × HasActedInPart self.old self.new
            (tenure_of_lock lock (word_tally_adding first.0 v first.1 ++ word_tally_adding second.0 w second.1))) }
        ensures fault { IfErr result (λ f. (v w : ℕ) × HasSeatCallFaultIn S.at self.old self.new
            (tenure_of_lock lock (word_tally_adding first.0 v first.1 ++ word_tally_adding second.0 w second.1)) f) }
        ensures idle { OnOk result (self.new.awaits ≡ None) }
        ensures sum { OnOk result ((l a n : ℕ) → AddsUpTo l a n (seat_deeds self.old)
            → AddsUpTo l a (n + balance_fact_adds_two first.0 first.1 second.0 second.1 a) (seat_deeds self.new)) }
        ensures balance { OnOk result ((left right : List ℕ) → KeepsBalanceFact left right first.0 first.1 second.0 second.1
            → IsBetweenTenures (balance_fact lock left right) (seat_deeds self.old)
            → IsBetweenTenures (balance_fact lock left right) (seat_deeds self.new)) }
        ensures outside { (e : ARefusal) → processor_refusal_or_spent (processor_refusal_of_ask self.old lock) self.old ≡ Some e
            → (result ≡ Err (fault.Refused e)) × (self.new ≡ self.old) }
    {
        self.lock(lock)?;
        self.increase(first.0, first.1)?;
        self.increase(second.0, second.1)?;
        self.unlock(lock)?;
        Ok(())
    }

    /// The words from one address up to before another, loaded one after another. The addresses of page `p` are those from
    /// `p` times the words of a page.
    ///
    /// It faults as [`load`](Seat::load) does, and then has loaded a beginning of them, and as there is no memory for them, with
    /// nothing done.
    pub fn words(&mut self, alloc: Global, from: usize, to: usize) -> Result<Vec<u32>, SeatFault>
        ensures ok { IfOk result (λ words. HasActed self.old self.new (acting_loads_from from words.items)) }
        ensures all { IfOk result (λ words. vec_len words ≡ to - from) }
        ensures err { OnErr result ((words : List ℕ) × HasActed self.old self.new (acting_loads_from from words)) }
        ensures fault { IfErr result (λ f. ((f ≡ fault.Refused NoMemory) × (self.new ≡ self.old))
            ⊎ ((words : List ℕ) × HasSeatCallFaultIn S.at self.old self.new (acting_loads_from from words) f)) }
        ensures awaits { self.new.awaits ≡ self.old.awaits }
    {
        let mut words = Vec::with_capacity(alloc, to.saturating_sub(from))?;
        for address in from..to {
            let word = self.load(address)?;
            words.push_reserved(word);
        }
        Ok(words)
    }

    /// The words at the addresses added up, modulo 2^32, loaded one after another.
    ///
    /// It faults as [`load`](Seat::load) does, and then has loaded a beginning of them.
    pub fn sum(&mut self, addresses: &[usize]) -> Result<u32, SeatFault>
        ensures ok { IfOk result (λ n. HasSummed self.old self.new addresses.now n) }
        ensures err { OnErr result ((words : List ℕ) × (length words ≡ length addresses.now)
            × HasActedInPart self.old self.new (loads_at addresses.now words)) }
        ensures fault { IfErr result (λ f. (words : List ℕ) × (length words ≡ length addresses.now)
            × HasSeatCallFaultIn S.at self.old self.new (loads_at addresses.now words) f) }
        ensures awaits { self.new.awaits ≡ self.old.awaits }
    {
        let mut sum = 0u32;
        for address in addresses {
            let word = self.load(*address)?;
            sum = sum.wrapping_add(word);
        }
        Ok(sum)
    }

    /// Whether the words at the addresses of the one side come to as much as those of the other, modulo 2^32, as one sees it
    /// under the lock: acquires the lock, for which it waits, loads the words of both sides, and releases the lock. If the lock
    /// keeps the balance (`balance_fact`), then they do.
    ///
    /// It faults as [`lock`](Seat::lock), [`sum`](Seat::sum) and [`unlock`](Seat::unlock) do, and then has done a beginning of
    /// this: it may hold the lock.
    pub fn balances(
        &mut self,
        lock: usize,
        left: &[usize],
        right: &[usize],
    ) -> Result<bool, SeatFault>
        ensures ok { IfOk result (λ even. HasWeighed lock left.now right.now self.old self.new even) }
        ensures err { OnErr result ((lefts rights : List ℕ) × (length lefts ≡ length left.now) × (length rights ≡ length right.now)
            × HasActedInPart self.old self.new (tenure_of_lock lock (loads_at left.now lefts ++ loads_at right.now rights))) }
        ensures fault { IfErr result (λ f. (lefts rights : List ℕ) × (length lefts ≡ length left.now) × (length rights ≡ length right.now)
            × HasSeatCallFaultIn S.at self.old self.new (tenure_of_lock lock (loads_at left.now lefts ++ loads_at right.now rights)) f) }
        ensures idle { OnOk result (self.new.awaits ≡ None) }
        ensures sum { OnOk result ((l a n : ℕ) → AddsUpTo l a n (seat_deeds self.old) → AddsUpTo l a n (seat_deeds self.new)) }
        ensures balance { IfOk result (λ even. IsBetweenTenures (balance_fact lock left.now right.now) (seat_deeds self.old)
            → HasFoundKept (balance_fact lock left.now right.now) self.new even) }
        ensures outside { (e : ARefusal) → processor_refusal_or_spent (processor_refusal_of_ask self.old lock) self.old ≡ Some e
            → (result ≡ Err (fault.Refused e)) × (self.new ≡ self.old) }
    {
        self.lock(lock)?;
        let lefts = self.sum(left)?;
        let rights = self.sum(right)?;
        self.unlock(lock)?;
        Ok(lefts == rights)
    }

    /// The value whose word is at the address. It does what [`load`](Seat::load) does.
    pub fn load_as<T: Word>(&mut self, address: usize) -> Result<T, SeatFault>
        ensures ok { IfOk result (λ x. (v : ℕ) × ((x ≡ T.value_of v)
            × AccessesPage self.old self.new (address / self.old.sizes.words) (kind.Load address v ∷ []))) }
        ensures err { OnErr result (AccessesPage self.old self.new (address / self.old.sizes.words) []) }
        ensures barred { kept_layout_lets_access S.at self.old address false ≡ false
            → (result ≡ Err (fault.NotAllowed address)) × (self.new ≡ self.old) }
        ensures outside { (e : ARefusal) → kept_layout_lets_access S.at self.old address false ≡ true
            → processor_refusal_at_once self.old address ≡ Some e → (result ≡ Err (fault.Refused e)) × (self.new ≡ self.old) }
        ensures fits { kept_layout_lets_access S.at self.old address false ≡ true → processor_refusal_of_access self.old address ≡ None
            → IsOk result }
        ensures fault { IfErr result (IsSeatCallAccessFault S.at self.old self.new address false) }
    {
        match self.load(address) {
            Ok(word) => Ok(T::of_word(word)),
            Err(fault) => Err(fault),
        }
    }

    /// Stores the value's word at the address. It does what [`store`](Seat::store) does.
    pub fn store_as<T: Word>(&mut self, address: usize, value: T) -> Result<(), SeatFault>
        ensures ok { OnOk result (AccessesPage self.old self.new (address / self.old.sizes.words)
            (kind.Store address (T.word_of value) ∷ [])) }
        ensures err { OnErr result (AccessesPage self.old self.new (address / self.old.sizes.words) []) }
        ensures barred { kept_layout_lets_access S.at self.old address true ≡ false
            → (result ≡ Err (fault.NotAllowed address)) × (self.new ≡ self.old) }
        ensures outside { (e : ARefusal) → kept_layout_lets_access S.at self.old address true ≡ true
            → processor_refusal_at_once self.old address ≡ Some e → (result ≡ Err (fault.Refused e)) × (self.new ≡ self.old) }
        ensures fits { kept_layout_lets_access S.at self.old address true ≡ true → processor_refusal_of_access self.old address ≡ None
            → IsOk result }
        ensures fault { IfErr result (IsSeatCallAccessFault S.at self.old self.new address true) }
    {
        self.store(address, value.to_word())
    }
}
