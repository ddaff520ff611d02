//! Which words each processor has heard of that others stored to. Nothing is proved of it beyond that it is safe.

use journal::{Event, Kind};
use std::alloc::{AllocError, Global};
use std::collections::VecDeque;

/// How many stores are kept at least before some are let go of.
const FEW_STORES: usize = 4096;

/// In rows, of each processor how many of its stores are known.
#[derive(Drop)]
struct StoreCuts {
    /// How many processors there are.
    processors: usize,
    entries: Vec<usize>,
}

/// What one processor has stored.
#[derive(Drop)]
struct StoreLog {
    /// The words that it stored to, each once for an interval, but for those that all have heard of.
    addresses: Vec<usize>,
    /// How many were let go of, which stood before them.
    gone: usize,
    /// How many there were when some were last let go of.
    left: usize,
    /// By words, in which of its intervals it last stored there, counted from 1; 0 if it never did.
    stored: Vec<u32>,
    /// How many intervals it has closed.
    closed: u32,
}

/// A barrier episode: what those know that arrived, and how many have departed.
#[derive(Drop)]
struct Episode {
    known: Vec<usize>,
    departures: usize,
}

/// What a processor has heard of others' stores to a word.
#[derive(Clone, Copy)]
pub(crate) struct Heard {
    /// How often it has taken.
    pub(crate) takes: u32,
    /// The take by which it last heard of such a store; 0 if it never did.
    pub(crate) last: u32,
}

/// Of each processor the words that others stored to and that it has heard of, with the last take by which it did. Of a store
/// it is kept that it was made until all processors have heard of it.
///
/// It takes 8 bytes for each store that some processor has still to hear of, and 8 for each word and processor up to the last word
/// stored to. Each processor, lock, flag and open episode takes 8 for each processor.
#[derive(Drop)]
pub(crate) struct HeardStores {
    logs: Vec<StoreLog>,
    /// What each processor knows of the others.
    known: StoreCuts,
    /// How often each has taken.
    takes: Vec<u32>,
    /// By processors, and then by words: the take by which it last heard of another's store there; 0 if it never did.
    heard: Vec<Vec<u32>>,
    locks: StoreCuts,
    flags: StoreCuts,
    /// What the processor at hand is told.
    told: Vec<usize>,
    episodes: VecDeque<Episode>,
    /// How many episodes were let go of.
    past_episodes: usize,
    arrived: Vec<usize>,
    departed: Vec<usize>,
}

/// Lengthens the row so that it has the place. The only error is running out of memory.
pub(crate) fn lengthen_row<T: Clone + Drop>(
    row: &mut Vec<T>,
    place: usize,
    filler: T,
) -> Result<(), AllocError> {
    if row.len() <= place {
        row.resize(place.saturating_add(1), filler)?;
    }
    Ok(())
}

/// The greater of each number.
fn join_cut(cut: &mut [usize], other: &[usize]) {
    for (mine, theirs) in cut.iter_mut().zip(other.iter()) {
        *mine = (*mine).max(*theirs);
    }
}

/// The number at this place of a cut; 0 past the end.
fn stores_at(cut: &[usize], place: usize) -> usize {
    match cut.get(place) {
        Some(number) => *number,
        None => 0,
    }
}

/// Puts the cut in the place of what stood here. The only error is running out of memory.
fn copy_cut(to: &mut Vec<usize>, cut: &[usize]) -> Result<(), AllocError> {
    to.clear();
    to.extend_from_slice(cut)?;
    Ok(())
}

impl StoreCuts {
    /// No row yet.
    fn new(alloc: Global) -> StoreCuts {
        StoreCuts {
            processors: 0,
            entries: Vec::new(alloc),
        }
    }

    /// Where the row begins and ends.
    fn ends(&self, row: usize) -> (usize, usize) {
        let from = row.saturating_mul(self.processors);
        (from, from.saturating_add(self.processors))
    }

    /// Makes the row if there is none, with zeros. The only error is running out of memory.
    fn make(&mut self, row: usize) -> Result<(), AllocError> {
        let (_, to) = self.ends(row);
        if self.entries.len() < to {
            self.entries.resize(to, 0)?;
        }
        Ok(())
    }

    /// The row; without an entry if there is none.
    fn row(&self, row: usize) -> &[usize] {
        let (from, to) = self.ends(row);
        self.entries.get(from..to).unwrap_or(&[])
    }

    /// The row, to be changed, if there is one.
    fn row_mut(&mut self, row: usize) -> Option<&mut [usize]> {
        let (from, to) = self.ends(row);
        self.entries.as_mut_slice().get_mut(from..to)
    }

    /// Joins the cut into the row, which is made if there is none. The only error is running out of memory.
    fn join(&mut self, row: usize, cut: &[usize]) -> Result<(), AllocError> {
        self.make(row)?;
        if let Some(kept) = self.row_mut(row) {
            join_cut(kept, cut);
        }
        Ok(())
    }
}

/// The barrier episode of this place among those that aren't over, of so many processors. The only error is running out of memory.
fn episode_at(
    episodes: &mut VecDeque<Episode>,
    alloc: Global,
    processors: usize,
    place: usize,
) -> Result<Option<&mut Episode>, AllocError> {
    for _ in episodes.len()..place.saturating_add(1) {
        episodes.push_back(Episode {
            known: vec![in alloc; 0; processors]?,
            departures: 0,
        })?;
    }
    Ok(episodes.get_mut(place))
}

/// The number at this place; 0 past the end.
fn number_at(row: &[u32], place: usize) -> u32 {
    match row.get(place) {
        Some(number) => *number,
        None => 0,
    }
}

impl StoreLog {
    /// Before the first store.
    fn new(alloc: Global) -> StoreLog {
        StoreLog {
            addresses: Vec::new(alloc),
            gone: 0,
            left: 0,
            stored: Vec::new(alloc),
            closed: 0,
        }
    }

    /// How many stores there are, with those let go of.
    fn end(&self) -> usize {
        self.gone.saturating_add(self.addresses.len())
    }

    /// Keeps a store to the word, if it is the interval's first. The only error is running out of memory.
    fn store(&mut self, address: usize) -> Result<(), AllocError> {
        lengthen_row(&mut self.stored, address, 0)?;
        let interval = self.closed.saturating_add(1);
        if let Some(last) = self.stored.get_mut(address)
            && *last != interval
        {
            *last = interval;
            self.addresses.push(address)?;
        }
        Ok(())
    }

    /// Marks the words of these stores as heard of by this take. The only error is running out of memory.
    fn tell(
        &self,
        from: usize,
        to: usize,
        heard: &mut Vec<u32>,
        take: u32,
    ) -> Result<(), AllocError> {
        for place in from.saturating_sub(self.gone)..to.saturating_sub(self.gone) {
            if let Some(address) = self.addresses.get(place) {
                lengthen_row(heard, *address, 0)?;
                if let Some(last) = heard.get_mut(*address) {
                    *last = take;
                }
            }
        }
        Ok(())
    }

    /// Whether there are twice as many as were left, so that it is time to let go of some.
    fn is_long(&self) -> bool {
        self.addresses.len() / 2 > self.left.max(FEW_STORES)
    }

    /// Lets go of the stores before this one.
    fn let_go(&mut self, known: usize) {
        let gone = known.saturating_sub(self.gone).min(self.addresses.len());
        for place in gone..self.addresses.len() {
            self.addresses[place - gone] = self.addresses[place];
        }
        self.addresses.truncate(self.addresses.len() - gone);
        self.gone = self.gone.saturating_add(gone);
        self.left = self.addresses.len();
    }
}

impl HeardStores {
    /// Before the first event.
    pub(crate) fn new(alloc: Global) -> HeardStores {
        HeardStores {
            logs: Vec::new(alloc),
            known: StoreCuts::new(alloc),
            takes: Vec::new(alloc),
            heard: Vec::new(alloc),
            locks: StoreCuts::new(alloc),
            flags: StoreCuts::new(alloc),
            told: Vec::new(alloc),
            episodes: VecDeque::new(alloc),
            past_episodes: 0,
            arrived: Vec::new(alloc),
            departed: Vec::new(alloc),
        }
    }

    /// What the processor has heard of others' stores to the word.
    pub(crate) fn of(&self, processor: usize, address: usize) -> Heard {
        let last = match self.heard.get(processor) {
            Some(row) => number_at(row, address),
            None => 0,
        };
        Heard {
            takes: number_at(&self.takes, processor),
            last,
        }
    }

    /// Makes room for these processors. The only error is running out of memory.
    fn begin(&mut self, alloc: Global, processors: usize) -> Result<(), AllocError> {
        for processor in self.logs.len()..processors {
            self.known.processors = processors;
            self.locks.processors = processors;
            self.flags.processors = processors;
            self.logs.push(StoreLog::new(alloc))?;
            self.known.make(processor)?;
            self.takes.push(0)?;
            self.heard.push(Vec::new(alloc))?;
            self.arrived.push(0)?;
            self.departed.push(0)?;
        }
        Ok(())
    }

    /// The processor's interval is closed: it knows its own stores.
    fn close(&mut self, processor: usize) {
        if let Some(log) = self.logs.get_mut(processor)
            && let Some(known) = self.known.row_mut(processor)
        {
            log.closed = log.closed.saturating_add(1);
            if let Some(own) = known.get_mut(processor) {
                *own = log.end();
            }
        }
    }

    /// Tells the processor of the stores that are to be told. The only error is running out of memory.
    fn take(&mut self, processor: usize) -> Result<(), AllocError> {
        let (Some(known), Some(heard), Some(take)) = (
            self.known.row_mut(processor),
            self.heard.get_mut(processor),
            self.takes.get_mut(processor),
        ) else {
            return Ok(());
        };
        *take = (*take).saturating_add(1);
        for (by, log) in self.logs.iter().enumerate() {
            if by != processor {
                log.tell(
                    stores_at(known, by),
                    stores_at(&self.told, by),
                    heard,
                    *take,
                )?;
            }
        }
        join_cut(known, &self.told);
        Ok(())
    }

    /// Tells the processor what the lock hands over. The only error is running out of memory.
    fn acquire(&mut self, processor: usize, lock: usize) -> Result<(), AllocError> {
        copy_cut(&mut self.told, self.locks.row(lock))?;
        self.take(processor)
    }

    /// Tells the processor what the flag tells. The only error is running out of memory.
    fn awaits(&mut self, processor: usize, flag: usize) -> Result<(), AllocError> {
        copy_cut(&mut self.told, self.flags.row(flag))?;
        self.take(processor)
    }

    /// The processor arrives at the barrier. The only error is running out of memory.
    fn arrive(&mut self, alloc: Global, processor: usize) -> Result<(), AllocError> {
        self.close(processor);
        let Some(arrived) = self.arrived.get_mut(processor) else {
            return Ok(());
        };
        let place = (*arrived).saturating_sub(self.past_episodes);
        *arrived = (*arrived).saturating_add(1);
        let processors = self.known.processors;
        if let Some(episode) = episode_at(&mut self.episodes, alloc, processors, place)? {
            join_cut(&mut episode.known, self.known.row(processor));
        }
        Ok(())
    }

    /// It departs. The only error is running out of memory.
    fn depart(&mut self, alloc: Global, processor: usize) -> Result<(), AllocError> {
        let Some(departed) = self.departed.get_mut(processor) else {
            return Ok(());
        };
        let place = (*departed).saturating_sub(self.past_episodes);
        *departed = (*departed).saturating_add(1);
        let processors = self.known.processors;
        if let Some(episode) = episode_at(&mut self.episodes, alloc, processors, place)? {
            episode.departures = episode.departures.saturating_add(1);
            copy_cut(&mut self.told, &episode.known)?;
        }
        self.take(processor)?;
        self.let_go_of_episodes();
        Ok(())
    }

    /// Lets go of the episodes from which all have departed.
    fn let_go_of_episodes(&mut self) {
        for _ in 0..self.episodes.len() {
            match self.episodes.front() {
                Some(first) if first.departures >= self.logs.len() => {
                    drop(self.episodes.pop_front());
                    self.past_episodes = self.past_episodes.saturating_add(1);
                }
                _ => return,
            }
        }
    }

    /// Lets go of the processor's stores that all others have heard of.
    fn let_go(&mut self, processor: usize) {
        let Some(log) = self.logs.get_mut(processor) else {
            return;
        };
        if !log.is_long() {
            return;
        }
        let mut known = log.end();
        for by in 0..self.known.processors {
            if by != processor {
                known = known.min(stores_at(self.known.row(by), processor));
            }
        }
        log.let_go(known);
    }

    /// The processor closes its interval and lets others on. The only error is running out of memory.
    fn hand_over(&mut self, processor: usize, kind: Kind) -> Result<(), AllocError> {
        self.close(processor);
        self.let_go(processor);
        let known = self.known.row(processor);
        match kind {
            Kind::Release(lock) => self.locks.join(lock, known),
            Kind::Set(flag) => self.flags.join(flag, known),
            _ => Ok(()),
        }
    }

    /// Takes note of the event, which comes next, of a trace of so many processors. The only error is running out of memory.
    pub(crate) fn note(
        &mut self,
        alloc: Global,
        processors: usize,
        event: Event,
    ) -> Result<(), AllocError> {
        self.begin(alloc, processors)?;
        let processor = event.processor;
        match event.kind {
            Kind::Store(address, _) => match self.logs.get_mut(processor) {
                Some(log) => log.store(address),
                None => Ok(()),
            },
            Kind::Release(_) | Kind::Set(_) => self.hand_over(processor, event.kind),
            Kind::Arrive => {
                self.let_go(processor);
                self.arrive(alloc, processor)
            }
            Kind::Ask(_) | Kind::Watch(_) => {
                self.close(processor);
                Ok(())
            }
            Kind::Acquire(lock) => self.acquire(processor, lock),
            Kind::Await(flag) => self.awaits(processor, flag),
            Kind::Depart => self.depart(alloc, processor),
            _ => Ok(()),
        }
    }
}
