//! What is held, set and arrived at a place of a history.

use journal::{Event, Kind};
use std::alloc::{AllocError, Global};
use std::collections::BTreeMap;

/// What an event was: where it stands, and whose it is.
#[derive(Clone, Copy)]
pub struct PastDeed {
    pub place: usize,
    pub processor: usize,
}

/// What is known of a lock.
#[derive(Clone, Copy)]
pub struct LockState {
    /// Who holds it.
    pub holder: Option<usize>,
    /// Its last release.
    pub released: Option<PastDeed>,
}

/// Of a lock of which there was nothing.
const UNTOUCHED: LockState = LockState {
    holder: None,
    released: None,
};

/// An ask that isn't granted yet: for which lock, and where it stands.
#[derive(Clone, Copy)]
struct OpenAsk {
    lock: usize,
    place: usize,
}

/// What is held, set and arrived after a history's front.
#[derive(Drop)]
pub struct HeldNow {
    locks: BTreeMap<usize, LockState>,
    /// The open ask of each processor, which has one at most.
    asks: Vec<Option<OpenAsk>>,
    /// The first set of each flag.
    flags: BTreeMap<usize, PastDeed>,
    /// Whether each processor has arrived at the barrier's open episode.
    arrived: Vec<bool>,
}

impl HeldNow {
    /// Before the first event, of so many processors.
    pub fn new(alloc: Global, processors: usize) -> Result<HeldNow, AllocError> {
        Ok(HeldNow {
            locks: BTreeMap::new(alloc),
            asks: vec![in alloc; None; processors]?,
            flags: BTreeMap::new(alloc),
            arrived: vec![in alloc; false; processors]?,
        })
    }

    /// What is known of the lock.
    pub fn lock(&self, lock: usize) -> LockState {
        match self.locks.get(&lock) {
            Some(state) => *state,
            None => UNTOUCHED,
        }
    }

    /// Who asked for the lock last of those whose asks aren't granted yet. Where locks needn't be granted in the order of the
    /// asks, an earlier ask may be open longer than a later one.
    pub fn asker(&self, lock: usize) -> Option<usize> {
        let mut asker = None;
        let mut last = 0;
        for (processor, ask) in self.asks.iter().enumerate() {
            if let Some(ask) = ask
                && ask.lock == lock
                && last <= ask.place
            {
                asker = Some(processor);
                last = ask.place;
            }
        }
        asker
    }

    /// The first set of the flag.
    pub fn set(&self, flag: usize) -> Option<PastDeed> {
        self.flags.get(&flag).copied()
    }

    /// Whether each processor has arrived at the barrier's open episode.
    pub fn arrived(&self) -> &[bool] {
        &self.arrived
    }

    /// The arrival of a processor. Where all have arrived, the next episode is open.
    fn arrive(&mut self, processor: usize) {
        if let Some(has_arrived) = self.arrived.get_mut(processor) {
            *has_arrived = true;
        }
        if !self.arrived.contains(&false) {
            self.arrived.fill(false);
        }
    }

    /// The processor's open ask from now on.
    fn put_ask(&mut self, processor: usize, ask: Option<OpenAsk>) {
        if let Some(open) = self.asks.get_mut(processor) {
            *open = ask;
        }
    }

    /// The lock's new state.
    fn put_lock(&mut self, lock: usize, state: LockState) -> Result<(), AllocError> {
        self.locks.insert(lock, state)?;
        Ok(())
    }

    /// The flag's set, where it is the first.
    fn put_set(&mut self, flag: usize, set: PastDeed) -> Result<(), AllocError> {
        if !self.flags.contains_key(&flag) {
            self.flags.insert(flag, set)?;
        }
        Ok(())
    }

    /// Takes note of the event at this place, the next one. The only error is running out of memory.
    pub fn note(&mut self, place: usize, event: Event) -> Result<(), AllocError> {
        let processor = event.processor;
        match event.kind {
            Kind::Ask(lock) => {
                self.put_ask(processor, Some(OpenAsk { lock, place }));
                Ok(())
            }
            Kind::Acquire(lock) => {
                self.put_ask(processor, None);
                let holder = Some(processor);
                self.put_lock(
                    lock,
                    LockState {
                        holder,
                        ..self.lock(lock)
                    },
                )
            }
            Kind::Release(lock) => {
                let released = Some(PastDeed { place, processor });
                let holder = None;
                self.put_lock(lock, LockState { holder, released })
            }
            Kind::Set(flag) => self.put_set(flag, PastDeed { place, processor }),
            Kind::Arrive => {
                self.arrive(processor);
                Ok(())
            }
            _ => Ok(()),
        }
    }
}
