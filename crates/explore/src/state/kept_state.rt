//! States as a search keeps them: a part that several states have in common is there once, and what the calls tell isn't kept.
ghost use Rattle.std.specs.Prelude.{ℕ, IfOk, IsTrue, ◌≡◌, ◌↔◌, ◌<◌, ◌≤◌, ◌-◌, length, slice_index_or, take};
ghost use Rattle.lrc_script.specs.Prelude.{Plan};
ghost use Rattle.explore.specs.CallTables.{IsCallTableOf, IsStateOfCalls};
ghost use Rattle.explore.specs.KeptStates.{AreFewStateParts, AreNoStateParts, IsKeptStateWithin, IsStateKept, IsStateMemoryPlaced, IsStatePartPlaced, most_state_parts, opened_state, trimmed_words, words_over};
ghost use Rattle.explore.specs.Machines.{MachinesInSameState};

use crate::state::call_table::CallTable;
use crate::state::flat_state::FlatState;
use crate::state::hasher::StateSet;
use base::MOST_PROCESSORS;
use indexmap::IndexSet;
use std::alloc::{AllocError, Global};
use std::hash::{BuildHasherDefault, Hash};

/// The words of the memory, but for zeros at the end: most scripts leave most words of their pages alone.
#[derive(Drop, PartialEq, Eq, Hash)]
pub struct StateMemory {
    pub words: Vec<u32>,
}

/// What loads have answered: of each processor the replies that a state keeps.
#[derive(Drop, PartialEq, Eq, Hash)]
pub struct StateReplies {
    pub replies: Vec<Vec<u32>>,
}

/// Who waits for a lock, in the order of their asks.
#[derive(Drop, PartialEq, Eq, Hash)]
pub struct StateAsks {
    pub asked: Vec<usize>,
}

/// A state: the calls that were made, and the places of what these don't tell. There are many states, so places have 32 bits.
#[derive(Drop, PartialEq, Eq, Hash)]
pub struct KeptState {
    /// How many calls each processor has made.
    done: [u16; MOST_PROCESSORS],
    /// The place of its memory.
    memory: u32,
    /// The place of its replies.
    replies: u32,
    /// The place of its asks.
    asks: u32,
}

/// The places of a state's parts.
#[derive(Clone, Copy)]
struct PartPlaces {
    memory: u32,
    replies: u32,
    asks: u32,
}

/// The parts of states, each once.
#[derive(Drop)]
pub struct StateParts {
    /// What the calls tell.
    calls: CallTable,
    memories: StateSet<StateMemory>,
    replies: StateSet<StateReplies>,
    asks: StateSet<StateAsks>,
    /// Those of the state that was kept last. The next one often has some of them too.
    last: PartPlaces,
}

/// The place of a part, which is put at the end if it is a new one. It is looked for at the likely place first. The only error is
/// running out of memory.
fn place_state_part<T: Eq + Hash + Drop>(
    parts: &mut StateSet<T>,
    part: T,
    likely: u32,
) -> Result<u32, AllocError>
    requires { length parts.old.keys < most_state_parts }
    ensures { IfOk result (IsStatePartPlaced T.eq parts.old.keys parts.new.keys part) }
{
    if (likely as usize) < parts.len() && part == parts[likely as usize] {
        return Ok(likely);
    }
    let (place, _) = parts.insert_full(part)?;
    Ok(place as u32)
}

/// Whether these words are all 0. To find the greatest one takes less time than to look for one that isn't 0.
fn are_zeros(words: &[u32]) -> bool
    ensures { IsTrue result ↔ ((i : ℕ) → slice_index_or words.now i 0 ≡ 0) }
{
    let mut greatest = 0;
    for word in words {
        greatest = greatest.max(*word);
    }
    greatest == 0
}

/// So many words that those behind them are 0: as many as is likely, or else all.
fn words_before_zeros(words: &[u32], likely: usize) -> usize
    ensures within { result ≤ length words.now }
    ensures zeros { (i : ℕ) → result ≤ i → slice_index_or words.now i 0 ≡ 0 }
{
    if likely <= words.len() && are_zeros(&words[likely..]) {
        likely
    } else {
        words.len()
    }
}

/// How many words there are up to the last that isn't 0. So many are likely.
fn trimmed_length(words: &[u32], likely: usize) -> usize
    ensures trimmed { take result words.now ≡ trimmed_words words.now }
    ensures within { result ≤ length words.now }
{
    let mut length = words_before_zeros(words, likely);
    while length > 0 && words[length - 1] == 0 {
        length -= 1;
    }
    length
}

/// How many words the memory at the likely place has: another one often has as many.
fn likely_length(memories: &StateSet<StateMemory>, likely: u32) -> usize {
    if (likely as usize) < memories.len() {
        memories[likely as usize].words.len()
    } else {
        0
    }
}

/// The place of the memory's words without the zeros at their end, as of `place_state_part`: they are copied only if they aren't
/// at the likely place. The only error is running out of memory.
fn place_state_memory(
    alloc: Global,
    memories: &mut StateSet<StateMemory>,
    memory: &[u32],
    likely: u32,
) -> Result<u32, AllocError>
    requires { length memories.old.keys < most_state_parts }
    ensures { IfOk result (IsStateMemoryPlaced memories.old.keys memories.new.keys memory.now) }
{
    let length = trimmed_length(memory, likely_length(memories, likely));
    let trimmed = &memory[..length];
    if (likely as usize) < memories.len() && *memories[likely as usize].words == *trimmed {
        return Ok(likely);
    }
    let words = Vec::from_slice(alloc, trimmed)?;
    let (place, _) = memories.insert_full(StateMemory { words })?;
    Ok(place as u32)
}

/// Puts words over the first of the memory.
fn put_words_over(memory: &mut [u32], words: &[u32])
    ensures { memory.new ≡ words_over words.now memory.old }
{
    for place in 0..words.len().min(memory.len()) {
        memory[place] = words[place];
    }
}

impl StateParts {
    /// No parts, of states of which the calls tell this.
    pub fn new(alloc: Global, calls: CallTable) -> StateParts
        ensures { AreNoStateParts calls result }
    {
        StateParts {
            calls,
            memories: IndexSet::with_hasher(alloc, BuildHasherDefault::new()),
            replies: IndexSet::with_hasher(alloc, BuildHasherDefault::new()),
            asks: IndexSet::with_hasher(alloc, BuildHasherDefault::new()),
            last: PartPlaces {
                memory: 0,
                replies: 0,
                asks: 0,
            },
        }
    }

    /// Keeps the parts of a state. The only error is running out of memory.
    pub fn keep(&mut self, alloc: Global, state: FlatState) -> Result<KeptState, AllocError>
        requires known { IsStateOfCalls self.old.calls state }
        requires few { AreFewStateParts self.old (most_state_parts - 1) }
        ensures { IfOk result (IsStateKept self.old self.new state) }
    {
        let FlatState {
            done,
            replies,
            memory,
            waiting,
            ..
        } = state;
        let last = self.last;
        let asks = StateAsks {
            asked: waiting.into_asked(),
        };
        let replies = StateReplies { replies };
        let memory = place_state_memory(alloc, &mut self.memories, &memory, last.memory)?;
        let replies = place_state_part(&mut self.replies, replies, last.replies)?;
        let asks = place_state_part(&mut self.asks, asks, last.asks)?;
        self.last = PartPlaces {
            memory,
            replies,
            asks,
        };
        Ok(KeptState {
            done,
            memory,
            replies,
            asks,
        })
    }

    /// The state that is kept so; what outcomes tell is told by the first one, and its words are 0. The only error is running out of memory.
    pub fn open(&self, first: &FlatState, kept: &KeptState) -> Result<FlatState, AllocError>
        requires calls { (s : Plan) × IsCallTableOf s self.now.calls }
        requires within { IsKeptStateWithin self.now kept.now }
        ensures { IfOk result (MachinesInSameState (opened_state self.now first.now kept.now)) }
    {
        let asked = self.asks[kept.asks as usize].asked.clone()?;
        let mut memory = first.memory.clone()?;
        put_words_over(&mut memory, &self.memories[kept.memory as usize].words);
        Ok(FlatState {
            telling: first.telling,
            done: kept.done,
            replies: self.replies[kept.replies as usize].replies.clone()?,
            memory,
            waiting: self.calls.waiting(&kept.done, asked),
        })
    }
}
