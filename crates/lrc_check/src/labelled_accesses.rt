//! The accesses that have a label and may still be told, though they aren't at hand any more.

use crate::kept_lists::KeptLists;
use crate::told_events::KnownEvent;
use crate::traces::reader::Reader;
use indexmap::IndexMap;
use journal::{Event, Kind};
use judge::locksets::{Guarded, PairedAccess, Unprotected};
use std::alloc::{AllocError, Global};

/// Of how many words without a lock at most accesses are told that aren't at hand any more: each of those is looked for among all.
const MOST_TOLD: usize = 256;

/// Fewer labels than this are all kept.
const FEW_LABELS: usize = 4096;

/// A word, as one processor accesses it.
#[derive(Clone, Copy, PartialEq, Eq, Hash)]
struct AccessedWord {
    address: usize,
    processor: usize,
}

/// An access with its label.
#[derive(Clone, Copy)]
struct LabelledAccess {
    /// The number of the list of locks that its processor held, rising; an empty one if they aren't kept.
    locks: usize,
    place: usize,
    /// The number of its label.
    label: usize,
    value: u32,
    stores: bool,
}

/// The accesses that have a label, those that a finder may still tell. Of each word, processor, kind and set of locks held it is
/// the last one, which `NearestRaces` and `LocksetFinder` keep, too. Then come those of words without a lock that were found, and
/// of each word two that hold a lock in common. These are told if the word turns out to lack one at times.
///
/// It takes memory for these accesses, 32 bytes each and up to twice that, and for their labels, of which equal ones are kept
/// once, however long the trace is.
#[derive(Drop)]
pub(crate) struct LabelledAccesses {
    /// Whether it is kept which locks are held.
    by_locks: bool,
    /// Of each processor the locks that it holds, rising.
    held: Vec<Vec<usize>>,
    last: IndexMap<AccessedWord, Vec<LabelledAccess>>,
    /// The locks that these have.
    locks: KeptLists<usize>,
    /// Their labels, and some that none of them has any more.
    labels: KeptLists<u8>,
    /// How many labels there were when the others were let go of.
    labels_left: usize,
    /// By place the accesses of words without a lock, and those that hold a lock in common.
    found: IndexMap<usize, KnownEvent>,
    /// The places of those that are still at hand.
    wanted: IndexMap<usize, ()>,
}

impl LabelledAccess {
    /// The event that it is.
    fn event(self, word: AccessedWord) -> Event {
        let AccessedWord { address, processor } = word;
        let kind = if self.stores {
            Kind::Store(address, self.value)
        } else {
            Kind::Load(address, self.value)
        };
        Event { processor, kind }
    }

    /// Whether it is of the kind of the other, with the same locks held.
    fn is_of_sort(self, other: LabelledAccess) -> bool {
        self.stores == other.stores && self.locks == other.locks
    }
}

/// The word that the event accesses, whether it is stored to, and its value; None if it accesses none.
fn labelled_access_of(event: Event) -> Option<(AccessedWord, bool, u32)> {
    let processor = event.processor;
    match event.kind {
        Kind::Load(address, value) => Some((AccessedWord { address, processor }, false, value)),
        Kind::Store(address, value) => Some((AccessedWord { address, processor }, true, value)),
        _ => None,
    }
}

/// The accesses of a word without a lock that are told: two that hold none in common, and two that do, if there are such.
fn accesses_of_unprotected(word: &Unprotected) -> [Option<PairedAccess>; 4] {
    let (one, other) = word.unguarded;
    let (third, fourth) = match word.guarded {
        Some(guarded) => (Some(guarded.accesses.0), Some(guarded.accesses.1)),
        None => (None, None),
    };
    [Some(one), Some(other), third, fourth]
}

/// Takes note of the lock that the event acquires or releases.
fn note_labelled_locks(locks: &mut Vec<usize>, kind: Kind) -> Result<(), AllocError> {
    match kind {
        Kind::Acquire(lock) if !locks.contains(&lock) => {
            let place = locks.partition_point(|held| *held < lock);
            locks.insert(place, lock)?;
        }
        Kind::Release(lock) => locks.retain(|held| *held != lock),
        _ => {}
    }
    Ok(())
}

/// The locks that the processor holds, as far as it is kept.
fn labelled_locks_of(held: &[Vec<usize>], processor: usize) -> &[usize] {
    match held.get(processor) {
        Some(locks) => locks,
        None => &[],
    }
}

/// Keeps an access in the place of the last one of its sort, if there is one. The only error is running out of memory.
fn keep_labelled_access(
    accesses: &mut Vec<LabelledAccess>,
    access: LabelledAccess,
) -> Result<(), AllocError> {
    for kept in accesses.iter_mut() {
        if kept.is_of_sort(access) {
            *kept = access;
            return Ok(());
        }
    }
    accesses.push(access)?;
    Ok(())
}

/// The first access of a word. The only error is running out of memory.
fn first_labelled_access(
    alloc: Global,
    access: LabelledAccess,
) -> Result<Vec<LabelledAccess>, AllocError> {
    let mut accesses = Vec::with_capacity(alloc, 1)?;
    accesses.push(access)?;
    Ok(accesses)
}

/// Has the accesses name their labels by numbers among those that are left. The only error is running out of memory.
fn move_labels(
    alloc: Global,
    accesses: &mut [LabelledAccess],
    labels: &KeptLists<u8>,
    left: &mut KeptLists<u8>,
) -> Result<(), AllocError> {
    for access in accesses.iter_mut() {
        access.label = left.number_of(alloc, labels.list(access.label))?;
    }
    Ok(())
}

/// The labels that these accesses have, which name them by their numbers then. The only error is running out of memory.
fn labels_of_accesses(
    alloc: Global,
    last: &mut IndexMap<AccessedWord, Vec<LabelledAccess>>,
    labels: &KeptLists<u8>,
) -> Result<KeptLists<u8>, AllocError> {
    let mut left = KeptLists::new(alloc);
    for index in 0..last.len() {
        if let Some(accesses) = last.get_index_mut(index) {
            move_labels(alloc, accesses, labels, &mut left)?;
        }
    }
    Ok(left)
}

impl LabelledAccesses {
    /// Before the first event. If words without a lock are looked for, it is kept which locks are held.
    pub(crate) fn new(alloc: Global, by_locks: bool) -> LabelledAccesses {
        LabelledAccesses {
            by_locks,
            held: Vec::new(alloc),
            last: IndexMap::new(alloc),
            locks: KeptLists::new(alloc),
            labels: KeptLists::new(alloc),
            labels_left: 0,
            found: IndexMap::new(alloc),
            wanted: IndexMap::new(alloc),
        }
    }

    /// Takes note of the locks that the event's processor holds behind it. The only error is running out of memory.
    fn note_locks(&mut self, alloc: Global, event: Event) -> Result<(), AllocError> {
        if !self.by_locks {
            return Ok(());
        }
        for _ in self.held.len()..event.processor.saturating_add(1) {
            self.held.push(Vec::new(alloc))?;
        }
        match self.held.get_mut(event.processor) {
            Some(locks) => note_labelled_locks(locks, event.kind),
            None => Ok(()),
        }
    }

    /// Keeps this access of the word. The only error is running out of memory.
    fn keep_access(
        &mut self,
        alloc: Global,
        word: AccessedWord,
        access: LabelledAccess,
    ) -> Result<(), AllocError> {
        if let Some(accesses) = self.last.get_mut(&word) {
            return keep_labelled_access(accesses, access);
        }
        let accesses = first_labelled_access(alloc, access)?;
        self.last.insert(word, accesses)?;
        Ok(())
    }

    /// Keeps the event, if it is an access. The only error is running out of memory.
    fn keep(
        &mut self,
        alloc: Global,
        place: usize,
        event: Event,
        label: &[u8],
    ) -> Result<(), AllocError> {
        let Some((word, stores, value)) = labelled_access_of(event) else {
            return Ok(());
        };
        let locks = labelled_locks_of(&self.held, event.processor);
        let access = LabelledAccess {
            locks: self.locks.number_of(alloc, locks)?,
            place,
            label: self.labels.number_of(alloc, label)?,
            value,
            stores,
        };
        self.keep_access(alloc, word, access)
    }

    /// Lets go of the labels that no access has any more, if most labels may be such. The only error is running out of memory, after
    /// which the labels may be those of no access.
    fn let_go_of_labels(&mut self, alloc: Global) -> Result<(), AllocError> {
        if self.labels.count() / 2 > self.labels_left.max(FEW_LABELS) {
            self.labels = labels_of_accesses(alloc, &mut self.last, &self.labels)?;
            self.labels_left = self.labels.count();
        }
        Ok(())
    }

    /// Keeps the event, if it is an access of a word without a lock. The only error is running out of memory.
    fn keep_wanted(
        &mut self,
        alloc: Global,
        place: usize,
        event: Event,
        label: &[u8],
    ) -> Result<(), AllocError> {
        if !self.wanted.contains_key(&place) {
            return Ok(());
        }
        let known = KnownEvent::of(alloc, place, event, label)?;
        self.found.insert(place, known)?;
        Ok(())
    }

    /// Takes note of the events at hand, which are to be let go of. The only error is running out of memory.
    pub(crate) fn note(&mut self, alloc: Global, reader: &Reader) -> Result<(), AllocError> {
        let mut labels = reader.labels().walk(reader.is_headed());
        for (index, event) in reader.events().iter().enumerate() {
            let label = labels.next_label();
            let place = reader.gone().saturating_add(index);
            if !label.is_empty() {
                self.keep_wanted(alloc, place, *event, label)?;
                self.keep(alloc, place, *event, label)?;
            }
            self.note_locks(alloc, *event)?;
        }
        self.wanted.clear();
        self.let_go_of_labels(alloc)
    }

    /// The processor's last access of a sort of this word, if it stands at this place. The only error is running out of memory.
    fn last_at(
        &self,
        alloc: Global,
        word: AccessedWord,
        place: usize,
    ) -> Result<Option<KnownEvent>, AllocError> {
        if let Some(accesses) = self.last.get(&word) {
            for access in accesses {
                if access.place == place {
                    let label = self.labels.list(access.label);
                    let known = KnownEvent::of(alloc, place, access.event(word), label)?;
                    return Ok(Some(known));
                }
            }
        }
        Ok(None)
    }

    /// The access of this word at this place by one of so many processors, if it is kept. The only error is running out of memory.
    pub(crate) fn at(
        &self,
        alloc: Global,
        processors: usize,
        address: usize,
        place: usize,
    ) -> Result<Option<KnownEvent>, AllocError> {
        for processor in 0..processors {
            let known = self.last_at(alloc, AccessedWord { address, processor }, place)?;
            if known.is_some() {
                return Ok(known);
            }
        }
        Ok(None)
    }

    /// Keeps an access of a word without a lock from now on; `gone` events aren't at hand any more. The only error is running out
    /// of memory.
    fn keep_paired(
        &mut self,
        alloc: Global,
        gone: usize,
        address: usize,
        access: PairedAccess,
    ) -> Result<(), AllocError> {
        let PairedAccess { place, processor } = access;
        if self.found.contains_key(&place) {
            return Ok(());
        }
        if place >= gone {
            self.wanted.insert(place, ())?;
            return Ok(());
        }
        if let Some(known) = self.last_at(alloc, AccessedWord { address, processor }, place)? {
            self.found.insert(place, known)?;
        }
        Ok(())
    }

    /// Keeps the accesses of these words without a lock from now on, those that have a label, before the events at hand are noted.
    /// `gone` events aren't at hand any more. The only error is running out of memory.
    pub(crate) fn keep_found(
        &mut self,
        alloc: Global,
        gone: usize,
        words: &[Unprotected],
    ) -> Result<(), AllocError> {
        for word in words {
            for access in accesses_of_unprotected(word) {
                if let Some(access) = access {
                    self.keep_paired(alloc, gone, word.address, access)?;
                }
            }
        }
        Ok(())
    }

    /// Keeps these two accesses of a word, which hold a lock in common, from now on, those that have a label: they are told if the word
    /// turns out to lack a lock. It is called before the events at hand are noted; `gone` events aren't at hand any more. The only
    /// error is running out of memory.
    pub(crate) fn keep_guarded(
        &mut self,
        alloc: Global,
        gone: usize,
        address: usize,
        pair: Guarded,
    ) -> Result<(), AllocError> {
        let (first, second) = pair.accesses;
        self.keep_paired(alloc, gone, address, first)?;
        self.keep_paired(alloc, gone, address, second)
    }

    /// What is kept of an access of a word without a lock. The only error is running out of memory.
    fn told_access(
        &self,
        alloc: Global,
        address: usize,
        access: PairedAccess,
    ) -> Result<Option<KnownEvent>, AllocError> {
        let PairedAccess { place, processor } = access;
        match self.found.get(&place) {
            Some(known) => Ok(Some(KnownEvent::of(alloc, place, known.event, &known.label)?)),
            None => self.last_at(alloc, AccessedWord { address, processor }, place),
        }
    }

    /// Adds what is kept of the accesses of a word without a lock that aren't at hand any more. The only error is running out of
    /// memory.
    fn tell_word(
        &self,
        alloc: Global,
        gone: usize,
        word: &Unprotected,
        told: &mut Vec<KnownEvent>,
    ) -> Result<(), AllocError> {
        for access in accesses_of_unprotected(word) {
            let Some(access) = access else {
                continue;
            };
            if access.place < gone
                && let Some(known) = self.told_access(alloc, word.address, access)?
            {
                told.push(known)?;
            }
        }
        Ok(())
    }

    /// Adds what is kept of the accesses of these words without a lock that aren't at hand any more, of `MOST_TOLD` words at most.
    /// The only error is running out of memory.
    pub(crate) fn tell(
        &self,
        alloc: Global,
        gone: usize,
        words: &[Unprotected],
        told: &mut Vec<KnownEvent>,
    ) -> Result<(), AllocError> {
        for word in words.iter().take(MOST_TOLD) {
            self.tell_word(alloc, gone, word, told)?;
        }
        Ok(())
    }
}
