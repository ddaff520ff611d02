//! What a run's front has left standing, and what each event changes of that: locks, flags, who waits for what, which words are
//! dirty, and which copies are known.

use crate::changes::{Standing, StateChange, sizes_in_changes};
use causes::Due;
use journal::{Awaited, Event, Kind};
use judge::{History, Sizes};
use std::alloc::{AllocError, Global};

/// What a lock's front is.
#[derive(Drop)]
struct RunFrontLock {
    holder: Option<usize>,
    /// Who asked for it, in order.
    queue: Vec<usize>,
    /// Whether it is known who holds it: not where something was cut off, up to its first acquire or release.
    is_known: bool,
}

/// What a run's front has left.
#[derive(Drop)]
struct RunFront {
    alloc: Global,
    /// How many words a page has.
    words: usize,
    locks: Vec<RunFrontLock>,
    flags: Vec<bool>,
    /// Of each processor for what it waits.
    standings: Vec<Standing>,
    /// How many have not arrived at the barrier's open episode.
    missing: usize,
    /// Of each processor the addresses of its dirty words.
    dirty: Vec<Vec<usize>>,
    /// Of each word of each processor's copies, whether it is dirty.
    marks: Vec<bool>,
    /// Of each processor's copy of each page, whether it is known to be stale or valid: not where something was cut off, up
    /// to its first access or notice.
    known: Vec<bool>,
}

/// Whether an event of this kind closes its processor's interval.
fn run_front_closes(kind: Kind) -> bool {
    match kind {
        Kind::Ask(_) | Kind::Release(_) | Kind::Arrive | Kind::Set(_) | Kind::Watch(_) => true,
        _ => false,
    }
}

/// So many locks that nobody holds, as far as is known. The only error is running out of memory.
fn run_front_of_free_locks(
    alloc: Global,
    count: usize,
    is_known: bool,
) -> Result<Vec<RunFrontLock>, AllocError> {
    let mut locks = Vec::new(alloc);
    for _ in 0..count {
        locks.push(RunFrontLock {
            holder: None,
            queue: Vec::new(alloc),
            is_known,
        })?;
    }
    Ok(locks)
}

/// So many lists with nothing in them. The only error is running out of memory.
fn empty_run_front_lists(alloc: Global, count: usize) -> Result<Vec<Vec<usize>>, AllocError> {
    let mut lists = Vec::new(alloc);
    for _ in 0..count {
        lists.push(Vec::new(alloc))?;
    }
    Ok(lists)
}

impl RunFrontLock {
    /// The one of those who asked first, where nobody holds the lock.
    fn next(&self) -> Option<usize> {
        if self.is_known && self.holder.is_none() {
            self.queue.first().copied()
        } else {
            None
        }
    }

    /// Takes the processor out of the queue. The only error is running out of memory.
    fn leave(&mut self, alloc: Global, processor: usize) -> Result<(), AllocError> {
        let mut left = Vec::new(alloc);
        for other in &self.queue {
            if *other != processor {
                left.push(*other)?;
            }
        }
        self.queue = left;
        Ok(())
    }
}

impl RunFront {
    /// Before the first event, where something was cut off or not. The only error is running out of memory.
    fn new(alloc: Global, sizes: Sizes, is_cut: bool) -> Result<RunFront, AllocError> {
        let copies = sizes.pages.saturating_mul(sizes.processors);
        Ok(RunFront {
            alloc,
            words: sizes.words,
            locks: run_front_of_free_locks(alloc, sizes.locks, !is_cut)?,
            flags: vec![in alloc; false; sizes.flags]?,
            standings: vec![in alloc; Standing::Runs; sizes.processors]?,
            missing: sizes.processors,
            dirty: empty_run_front_lists(alloc, sizes.processors)?,
            marks: vec![in alloc; false; copies.saturating_mul(sizes.words)]?,
            known: vec![in alloc; !is_cut; copies]?,
        })
    }

    /// The processor waits for this now, or for nothing.
    fn stand(
        &mut self,
        changes: &mut Vec<StateChange>,
        processor: usize,
        standing: Standing,
    ) -> Result<(), AllocError> {
        if let Some(now) = self.standings.get_mut(processor)
            && *now != standing
        {
            *now = standing;
            changes.push(StateChange::Stands {
                processor,
                standing,
            })?;
        }
        Ok(())
    }

    /// What the processors wait for has been sent to all who wait for it.
    fn send(&mut self, changes: &mut Vec<StateChange>, awaited: Awaited) -> Result<(), AllocError> {
        for processor in 0..self.standings.len() {
            if self.standings.get(processor) == Some(&Standing::Waits(awaited)) {
                self.stand(changes, processor, Standing::Sent(awaited))?;
            }
        }
        Ok(())
    }

    /// Adds how the lock is now; where nobody holds it, it is granted to the first who asked.
    fn add_lock(&mut self, changes: &mut Vec<StateChange>, lock: usize) -> Result<(), AllocError> {
        let Some(front) = self.locks.get(lock) else {
            return Ok(());
        };
        let next = front.next();
        changes.push(StateChange::Lock {
            lock,
            holder: front.holder,
            is_known: front.is_known,
            queue: front.queue.clone()?,
        })?;
        match next {
            Some(processor) => {
                self.stand(changes, processor, Standing::Sent(Awaited::Grant(lock)))
            }
            None => Ok(()),
        }
    }

    /// Takes note of the processor's ask for the lock.
    fn ask(
        &mut self,
        changes: &mut Vec<StateChange>,
        processor: usize,
        lock: usize,
    ) -> Result<(), AllocError> {
        if let Some(front) = self.locks.get_mut(lock) {
            front.queue.push(processor)?;
        }
        self.stand(changes, processor, Standing::Waits(Awaited::Grant(lock)))?;
        self.add_lock(changes, lock)
    }

    /// Takes note that the processor holds the lock now.
    fn acquire(
        &mut self,
        changes: &mut Vec<StateChange>,
        processor: usize,
        lock: usize,
    ) -> Result<(), AllocError> {
        let alloc = self.alloc;
        if let Some(front) = self.locks.get_mut(lock) {
            front.leave(alloc, processor)?;
            front.holder = Some(processor);
            front.is_known = true;
        }
        self.stand(changes, processor, Standing::Runs)?;
        self.add_lock(changes, lock)
    }

    /// Takes note that nobody holds the lock any more.
    fn release(&mut self, changes: &mut Vec<StateChange>, lock: usize) -> Result<(), AllocError> {
        if let Some(front) = self.locks.get_mut(lock) {
            front.holder = None;
            front.is_known = true;
        }
        self.add_lock(changes, lock)
    }

    /// Takes note of the processor's arrival. The last one of an episode lets all depart.
    fn arrive(
        &mut self,
        changes: &mut Vec<StateChange>,
        processor: usize,
    ) -> Result<(), AllocError> {
        self.stand(changes, processor, Standing::Waits(Awaited::Departure))?;
        self.missing = self.missing.saturating_sub(1);
        if self.missing > 0 {
            return Ok(());
        }
        self.missing = self.standings.len();
        self.send(changes, Awaited::Departure)
    }

    /// Takes note that the flag is set.
    fn set(&mut self, changes: &mut Vec<StateChange>, flag: usize) -> Result<(), AllocError> {
        if let Some(is_set) = self.flags.get_mut(flag) {
            *is_set = true;
        }
        changes.push(StateChange::Flag { flag })?;
        self.send(changes, Awaited::Signal(flag))
    }

    /// Takes note that the processor waits for the flag, which may be set.
    fn watch(
        &mut self,
        changes: &mut Vec<StateChange>,
        processor: usize,
        flag: usize,
    ) -> Result<(), AllocError> {
        let awaited = Awaited::Signal(flag);
        let standing = if self.flags.get(flag) == Some(&true) {
            Standing::Sent(awaited)
        } else {
            Standing::Waits(awaited)
        };
        self.stand(changes, processor, standing)
    }

    /// Takes note of what the event changes of locks, flags, and who waits.
    fn note(&mut self, changes: &mut Vec<StateChange>, event: Event) -> Result<(), AllocError> {
        let processor = event.processor;
        match event.kind {
            Kind::Load(..) | Kind::Store(..) | Kind::Fetch { .. } => Ok(()),
            Kind::Ask(lock) => self.ask(changes, processor, lock),
            Kind::Acquire(lock) => self.acquire(changes, processor, lock),
            Kind::Release(lock) => self.release(changes, lock),
            Kind::Arrive => self.arrive(changes, processor),
            Kind::Depart | Kind::Await(_) => self.stand(changes, processor, Standing::Runs),
            Kind::Set(flag) => self.set(changes, flag),
            Kind::Watch(flag) => self.watch(changes, processor, flag),
        }
    }

    /// Where the processor's copy of the page is kept.
    fn copy_index(&self, processor: usize, page: usize) -> usize {
        page.saturating_mul(self.standings.len())
            .saturating_add(processor)
    }

    /// The processor's copy of the page is known to be stale or valid from now on. Answers whether it was before.
    fn learn(&mut self, processor: usize, page: usize) -> bool {
        let index = self.copy_index(processor, page);
        match self.known.get_mut(index) {
            Some(is_known) => std::mem::replace(is_known, true),
            None => true,
        }
    }

    /// Takes note of which copies the event shows to be stale or valid: of one that takes by the records that it tells of. An
    /// access shows that the copy of its page lacks nothing, where nothing was known of that.
    fn note_copies(
        &mut self,
        changes: &mut Vec<StateChange>,
        event: Event,
        dues: &[Due],
    ) -> Result<(), AllocError> {
        let processor = event.processor;
        match event.kind {
            Kind::Load(address, _) | Kind::Store(address, _) => {
                let page = address.checked_div(self.words).unwrap_or(0);
                if !self.learn(processor, page) {
                    changes.push(StateChange::Valid { processor, page })?;
                }
            }
            Kind::Fetch { page, .. } => {
                let _ = self.learn(processor, page);
            }
            _ => {
                for due in dues {
                    let _ = self.learn(processor, due.page);
                }
            }
        }
        Ok(())
    }

    /// Where the word of the processor's copy is kept.
    fn word_index(&self, processor: usize, address: usize) -> usize {
        address
            .saturating_mul(self.standings.len())
            .saturating_add(processor)
    }

    /// The processor's word at this address is dirty.
    fn soil(&mut self, processor: usize, address: usize) -> Result<(), AllocError> {
        let index = self.word_index(processor, address);
        if let Some(mark) = self.marks.get_mut(index)
            && !*mark
            && let Some(dirty) = self.dirty.get_mut(processor)
        {
            *mark = true;
            dirty.push(address)?;
        }
        Ok(())
    }

    /// The processor's words are clean, since its interval is closed.
    fn clean(
        &mut self,
        changes: &mut Vec<StateChange>,
        processor: usize,
    ) -> Result<(), AllocError> {
        let Some(dirty) = self.dirty.get_mut(processor) else {
            return Ok(());
        };
        let addresses = std::mem::replace(dirty, Vec::new(self.alloc));
        for address in &addresses {
            let index = self.word_index(processor, *address);
            if let Some(mark) = self.marks.get_mut(index) {
                *mark = false;
            }
            changes.push(StateChange::Clean {
                processor,
                address: *address,
            })?;
        }
        Ok(())
    }
}

/// What the event at this place changes besides, which tells of these records.
fn run_front_changes_at(
    front: &mut RunFront,
    event: Event,
    dues: &[Due],
) -> Result<Vec<StateChange>, AllocError> {
    let mut changes = Vec::new(front.alloc);
    match event.kind {
        Kind::Store(address, _) => front.soil(event.processor, address)?,
        _ if run_front_closes(event.kind) => front.clean(&mut changes, event.processor)?,
        _ => {}
    }
    front.note_copies(&mut changes, event, dues)?;
    front.note(&mut changes, event)?;
    Ok(changes)
}

/// The records of the event at this place; none if copies aren't told.
fn run_front_records_at(dues: &[Vec<Due>], place: usize) -> &[Due] {
    match dues.get(place) {
        Some(records) => records.as_slice(),
        None => &[],
    }
}

/// What each of these events changes besides, before which the run stands so. The only error is running out of memory.
fn run_front_changes_behind(
    alloc: Global,
    front: &mut RunFront,
    events: &[Event],
    dues: &[Vec<Due>],
) -> Result<Vec<Vec<StateChange>>, AllocError> {
    let mut others = Vec::with_capacity(alloc, events.len())?;
    for (place, event) in events.iter().enumerate() {
        let records = run_front_records_at(dues, place);
        others.push(run_front_changes_at(front, *event, records)?)?;
    }
    Ok(others)
}

/// What each event of the history changes besides, which tells of these records; of none if copies aren't told. The only error is
/// running out of memory.
pub fn run_front_changes_of(
    alloc: Global,
    history: &History<'_>,
    dues: &[Vec<Due>],
) -> Result<Vec<Vec<StateChange>>, AllocError> {
    let sizes = sizes_in_changes(history.sizes());
    let mut front = RunFront::new(alloc, sizes, history.cut_events() > 0)?;
    let others = run_front_changes_behind(alloc, &mut front, history.events(), dues);
    drop(front);
    others
}
