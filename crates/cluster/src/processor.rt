//! Processors.
ghost use Rattle.std.specs.Prelude.{◌≡◌, ◌<◌, ◌+◌, ◌/◌, ◌%◌, ◌++◌, ◌∷◌, [], OnErr, OnOk, IfOk, Some, false};
ghost use Rattle.std.specs.Prelude.{length, map, replicate, slice_index_or, slice_set};
ghost use Rattle.std.specs.Arc.{arc_value};
ghost use Rattle.std.specs.Option.{option_map};
ghost use Rattle.std.specs.Result.{result_err};
ghost use Rattle.base.specs.Prelude.{most_in_block, most_pages};
ghost use Rattle.turn.specs.Prelude.{lock};
ghost use Rattle.journal.specs.Prelude.{closing_awaits_kind, closing_kind, event};
ghost use Rattle.cluster.specs.Copies.Prelude.{blank_local_copy, CopiesToHarvestAreMarked, copy_cleaned_after_news, AreSoundSizes, calls, local_noted, new_local};
ghost use Rattle.cluster.specs.Copies.Prelude.{AreHarvestsOfCopies, locks_held_after_news};
ghost use Rattle.cluster.specs.Prelude.{AreNewClusterParts, IsNewClusterChair, processor_refusal_page_of, processor_refusal_has_valid, processor_refusal_is_waiting, processor_refusal_of_access};
ghost use Rattle.cluster.specs.Prelude.{processor_refusal_of_fetch, processor_refusal_of_event, processor_refusal_of_arrival, processor_refusal_of_ask, processor_refusal_of_release, processor_refusal_of_flag};
ghost use Rattle.cluster.specs.Prelude.{processor_refusal_of_take, processor_refusal_of_closing, LoadAccessDone, StoreAccessDone, FetchAccessDone, HasCoverage, IsDismantledToFinish};

use crate::copies::{MarkSet, Replica};
use crate::keeper::{BookTurn, Rule};
use crate::shape::Shape;
use base::MOST_IN_BLOCK;
use book::{Book, Refused};
use journal::{Awaited, Closing, Event, Kind};
use page::Record;
use std::alloc::{AllocError, Global};
use std::marker::{Model, PhantomData};
use std::sync::Arc;
use turn::Chair;
use vtime::VTime;

/// What a processor has before it has a chair.
#[derive(Drop)]
pub(crate) struct ProcessorParts {
    pub(crate) block: Vec<Event>,
    pub(crate) replicas: Vec<Replica>,
    pub(crate) held: Vec<bool>,
    pub(crate) time: VTime,
}

impl ProcessorParts {
    /// An open block with room, a zero copy of each page, and a zero timestamp.
    pub(crate) fn new(alloc: Global, shape: Shape) -> Result<ProcessorParts, AllocError>
        requires { AreSoundSizes shape }
        ensures { IfOk result (λ x. AreNewClusterParts shape x) }
    {
        Ok(ProcessorParts {
            block: Vec::with_capacity(alloc, MOST_IN_BLOCK)?,
            replicas: processor_copies(alloc, shape)?,
            held: vec![in alloc; false; shape.locks]?,
            time: VTime::zero(alloc, shape.processors),
        })
    }
}

/// A zero copy of each page.
fn processor_copies(alloc: Global, shape: Shape) -> Result<Vec<Replica>, AllocError>
    requires { AreSoundSizes shape }
    ensures { IfOk result (λ all. all.items ≡ replicate shape.pages (blank_local_copy shape)) }
{
    let mut replicas = Vec::with_capacity(alloc, shape.pages)?;
    for _ in 0..shape.pages {
        replicas.push(Replica::zero(alloc, shape.words)?)?;
    }
    Ok(replicas)
}

/// A processor of a cluster, which one thread owns. Loads, stores and fetches are its own business: they
/// enter no lock and take no memory.
#[derive(Drop)]
pub struct Processor<T: BookTurn> {
    pub(crate) number: usize,
    pub(crate) shape: Shape,
    pub(crate) chair: Chair<Book, Rule>,
    pub(crate) block: Vec<Event>,
    pub(crate) replicas: Vec<Replica>,
    pub(crate) stored: MarkSet,
    pub(crate) time: VTime,
    pub(crate) held: Vec<bool>,
    pub(crate) awaits: Option<Awaited>,
    turn: PhantomData<T>,
}

impl<T: BookTurn> Model for Processor<T> {
    ghost use Rattle.std.specs.Prelude.{◌≡◌, ◌≤◌, vec_capacity};
    ghost use Rattle.std.specs.Option.{option_map};
    ghost use Rattle.turn.specs.Chairs.{lock, chair_view, entries, chair_place, IsChairOutside};
    ghost use Rattle.base.specs.Limits.{most_in_block};
    ghost use Rattle.journal.specs.ClosingKinds.{closing_awaits_kind};
    ghost use Rattle.cluster.specs.Copies.Local.{Local};
    ghost use Rattle.cluster.specs.SeatedProcessor.{seated_processor};
    ghost use Rattle.cluster.specs.Copies.Sound.{IsSound};
    ghost use Rattle.cluster.specs.SeatedProcessor.{IsChairOfSeatedProcessor};

    ghost Value = { Local };

    ghost view = { λ m. seated_processor m.chair m.number m.shape m.block.items m.replicas.items m.stored
        m.time m.held.items (option_map closing_awaits_kind m.awaits) };

    ghost invariant = { λ m.
        IsSound (seated_processor m.chair m.number m.shape m.block.items m.replicas.items m.stored m.time m.held.items
        (option_map closing_awaits_kind m.awaits))
        × IsChairOfSeatedProcessor m.chair m.number m.shape
        × (most_in_block ≤ vec_capacity m.block) };
}

impl<T: BookTurn> Processor<T> {
    /// The processor with this number and chair, before its first call.
    pub(crate) fn seated(
        number: usize,
        shape: Shape,
        chair: Chair<Book, Rule>,
        parts: ProcessorParts,
    ) -> Processor<T>
        requires sizes { AreSoundSizes shape }
        requires number { number < shape.processors }
        requires chair { IsNewClusterChair (lock chair) shape number chair }
        requires parts { AreNewClusterParts shape parts }
        ensures { result ≡ new_local (lock chair) number shape }
    {
        let ProcessorParts {
            block,
            replicas,
            held,
            time,
        } = parts;
        Processor {
            number,
            shape,
            chair,
            block,
            replicas,
            stored: MarkSet::none(),
            time,
            held,
            awaits: None,
            turn: PhantomData,
        }
    }

    /// Its chair and its open block, at the end.
    pub(crate) fn into_parts(self) -> (Chair<Book, Rule>, Vec<Event>)
        ensures { IsDismantledToFinish self result.0 result.1.items }
    {
        (self.chair, self.block)
    }

    /// The processor's number, from 0.
    pub fn number(&self) -> usize
        ensures { result ≡ self.now.number }
    {
        self.number
    }

    /// Its copy of the page: None if that lacks records, or past the last page.
    pub fn page(&self, page: usize) -> Option<&[u32]>
        ensures { option_map (λ words. words.now) result ≡ processor_refusal_page_of self.now page }
    {
        self.replicas.get(page)?.words()
    }

    /// Whether its copy of the page lacks nothing; false past the last page.
    pub fn is_valid(&self, page: usize) -> bool
        ensures { result ≡ processor_refusal_has_valid self.now page }
    {
        match self.replicas.get(page) {
            Some(replica) => replica.is_valid(),
            None => false,
        }
    }

    /// Whether it holds the lock: it acquired it, and has not released it since. False past the last lock.
    pub fn holds(&self, lock: usize) -> bool
        ensures { result ≡ slice_index_or self.now.held lock false }
    {
        match self.held.get(lock) {
            Some(held) => *held,
            None => false,
        }
    }

    /// Whether it has asked, arrived or watched, and not yet taken.
    #[tactic(auto, using(crate::proofs::MayAccessAndFetch::may_access_mapped))]
    pub fn waiting(&self) -> bool
        ensures { result ≡ processor_refusal_is_waiting self.now }
    {
        self.awaits.is_some()
    }

    /// Its timestamp: of each processor, how many intervals have been performed here.
    pub fn timestamp(&self) -> &VTime
        ensures { result.now ≡ self.now.time }
    {
        &self.time
    }

    /// How many events still fit into its open block, at most `MOST_IN_BLOCK`.
    pub fn room(&self) -> usize
        ensures { result + length self.now.block ≡ most_in_block }
    {
        MOST_IN_BLOCK - self.block.len()
    }

    /// The word at the address in the processor's own copy. It is what the store stores from which the copy
    /// has it: the processor's last own one, or, if a fetch came later that brought some, the last one that
    /// the fetch applied; 0 if there is none. So the history says which latest store a racy load answers.
    /// A load costs the address's division, two tests and one event of the open block.
    ///
    /// The first of these that applies: [`OutOfRange`](Refused::OutOfRange) past the last address,
    /// [`Invalid`](Refused::Invalid) if the copy of the address's page lacks records,
    /// [`Waiting`](Refused::Waiting) between a call that waits and its take, and
    /// [`BlockFull`](Refused::BlockFull) at 256 events.
    pub fn load(&mut self, address: usize) -> Result<u32, Refused>
        ensures refused { result_err result ≡ processor_refusal_of_access self.old address }
        ensures err { OnErr result (self.new ≡ self.old) }
        ensures word { IfOk result (λ v. LoadAccessDone self.old address v) }
        ensures ok { IfOk result (λ v. self.new ≡ local_noted self.old (Kind.Load address v)) }
        ensures calls { IfOk result (λ v. calls self.new
            ≡ calls self.old ++ event self.old.number (Kind.Load address v) ∷ []) }
        ensures covers { HasCoverage self.new }
    {
        let (page, offset) = self.admit(address)?;
        let value = self.replicas[page].load(offset);
        self.block.push_reserved(Event {
            processor: self.number,
            kind: Kind::Load(address, value),
        });
        Ok(value)
    }

    /// Writes the word at the address in the processor's own copy, and marks it as stored to. It costs what a
    /// load costs, and is refused as a load is.
    pub fn store(&mut self, address: usize, value: u32) -> Result<(), Refused>
        ensures refused { result_err result ≡ processor_refusal_of_access self.old address }
        ensures err { OnErr result (self.new ≡ self.old) }
        ensures ok { OnOk result (StoreAccessDone self.old address value self.new) }
        ensures calls { OnOk result (calls self.new
            ≡ calls self.old ++ event self.old.number (Kind.Store address value) ∷ []) }
        ensures covers { HasCoverage self.new }
    {
        let (page, offset) = self.admit(address)?;
        self.replicas[page].store(offset, value);
        self.stored.add(page);
        self.block.push_reserved(Event {
            processor: self.number,
            kind: Kind::Store(address, value),
        });
        Ok(())
    }

    /// Applies the records that the copy of the page lacks, in the order in which their intervals were
    /// closed, and makes it valid. It costs its records.
    ///
    /// The first of these that applies: [`OutOfRange`](Refused::OutOfRange) past the last page,
    /// [`Waiting`](Refused::Waiting), [`BlockFull`](Refused::BlockFull), and
    /// [`AlreadyValid`](Refused::AlreadyValid) if the copy lacks nothing.
    pub fn fetch(&mut self, page: usize) -> Result<(), Refused>
        ensures refused { result_err result ≡ processor_refusal_of_fetch self.old page }
        ensures err { OnErr result (self.new ≡ self.old) }
        ensures ok { OnOk result (FetchAccessDone self.old page self.new) }
        ensures covers { HasCoverage self.new }
    {
        self.admit_fetch(page)?;
        let counts = self.replicas[page].fetch();
        self.block.push_reserved(Event {
            processor: self.number,
            kind: Kind::Fetch {
                page,
                writers: counts.writers,
                records: counts.records,
                words: counts.words,
            },
        });
        Ok(())
    }

    /// The records of the open interval.
    pub(crate) fn harvest(&self) -> Result<Vec<Arc<Record>>, AllocError>
        ensures { IfOk result (λ rs. AreHarvestsOfCopies self.now.copies (map arc_value rs.items)) }
    {
        crate::copies::harvest(
            *self.block.allocator(),
            self.replicas.as_slice(),
            &self.stored,
        )
    }

    /// Whether a fetch of the page may be done.
    fn admit_fetch(&self, page: usize) -> Result<(), Refused>
        ensures { result_err result ≡ processor_refusal_of_fetch self.now page }
    {
        let Some(replica) = self.replicas.get(page) else {
            return Err(Refused::OutOfRange);
        };
        self.admit_event()?;
        if replica.is_valid() {
            return Err(Refused::AlreadyValid);
        }
        Ok(())
    }

    /// Whether the open block may have one more event.
    fn admit_event(&self) -> Result<(), Refused>
        ensures { result_err result ≡ processor_refusal_of_event self.now }
    {
        if self.waiting() {
            return Err(Refused::Waiting);
        }
        if self.block.len() == MOST_IN_BLOCK {
            return Err(Refused::BlockFull);
        }
        Ok(())
    }

    /// Whether the processor may make the call that closes its interval.
    pub(crate) fn admit_closing(&self, closing: Closing) -> Result<(), Refused>
        ensures { result_err result ≡ processor_refusal_of_closing self.now (closing_kind closing) }
    {
        match closing {
            Closing::Ask(lock) => self.admit_ask(lock),
            Closing::Release(lock) => self.admit_release(lock),
            Closing::Arrive => self.admit_arrival(),
            Closing::Set(flag) | Closing::Watch(flag) => self.admit_flag(flag),
        }
    }

    /// Whether the processor may arrive at the barrier.
    fn admit_arrival(&self) -> Result<(), Refused>
        ensures { result_err result ≡ processor_refusal_of_arrival self.now }
    {
        if self.waiting() {
            Err(Refused::Waiting)
        } else {
            Ok(())
        }
    }

    /// Whether it may ask for the lock.
    fn admit_ask(&self, lock: usize) -> Result<(), Refused>
        ensures { result_err result ≡ processor_refusal_of_ask self.now lock }
    {
        if lock >= self.shape.locks {
            Err(Refused::BadLock)
        } else if self.waiting() {
            Err(Refused::Waiting)
        } else if self.holds(lock) {
            Err(Refused::AlreadyHeld)
        } else {
            Ok(())
        }
    }

    /// Whether it may release the lock.
    fn admit_release(&self, lock: usize) -> Result<(), Refused>
        ensures { result_err result ≡ processor_refusal_of_release self.now lock }
    {
        if lock >= self.shape.locks {
            Err(Refused::BadLock)
        } else if self.waiting() {
            Err(Refused::Waiting)
        } else if !self.holds(lock) {
            Err(Refused::NotHeld)
        } else {
            Ok(())
        }
    }

    /// Whether it may set the flag, or watch it.
    fn admit_flag(&self, flag: usize) -> Result<(), Refused>
        ensures { result_err result ≡ processor_refusal_of_flag self.now flag }
    {
        if flag >= self.shape.flags {
            Err(Refused::BadFlag)
        } else if self.waiting() {
            Err(Refused::Waiting)
        } else {
            Ok(())
        }
    }

    /// What it waits for.
    pub(crate) fn admit_take(&self) -> Result<Awaited, Refused>
        ensures test { result_err result ≡ processor_refusal_of_take self.now }
        ensures waits { IfOk result (λ awaited. self.now.awaits ≡ Some (closing_awaits_kind awaited)) }
    {
        match self.awaits {
            Some(awaited) => Ok(awaited),
            None => Err(Refused::NothingAwaited),
        }
    }

    /// Where the word at the address is, if a load or a store may use it: its page and its offset there.
    fn admit(&self, address: usize) -> Result<(usize, usize), Refused>
        ensures refused { result_err result ≡ processor_refusal_of_access self.now address }
        ensures place { IfOk result (λ r. (r.0 ≡ address / self.now.sizes.words)
            × (r.1 ≡ address % self.now.sizes.words)) }
    {
        let words = self.shape.words;
        let (page, offset) = (address / words, address % words);
        let Some(replica) = self.replicas.get(page) else {
            return Err(Refused::OutOfRange);
        };
        if !replica.is_valid() {
            return Err(Refused::Invalid(page));
        }
        self.admit_event()?;
        Ok((page, offset))
    }
}

/// Cleans the copies, and unmarks all pages.
pub(crate) fn clean(replicas: &mut Vec<Replica>, stored: &mut MarkSet)
    requires { CopiesToHarvestAreMarked replicas.old.items stored.old }
    ensures copies { replicas.new.items ≡ map copy_cleaned_after_news replicas.old.items }
    ensures stored { stored.new ≡ replicate most_pages false }
{
    crate::copies::clean(replicas.as_mut_slice(), stored);
}

/// The locks held after the event: a grant gives one, and a release gives one away.
pub(crate) fn update_held_by_processor(held: &mut Vec<bool>, kind: Kind)
    ensures { held.new.items ≡ locks_held_after_news kind held.old.items }
{
    match kind {
        Kind::Acquire(lock) => update_one_held_by_processor(held, lock, true),
        Kind::Release(lock) => update_one_held_by_processor(held, lock, false),
        _ => {}
    }
}

/// Says whether the lock is held; past the last lock it does nothing.
#[tactic(auto, using(std::proofs::lemmas::List::set_past))]
fn update_one_held_by_processor(held: &mut Vec<bool>, lock: usize, is_held: bool)
    ensures { held.new.items ≡ slice_set held.old.items lock is_held }
{
    if lock < held.len() {
        held[lock] = is_held;
    }
}
