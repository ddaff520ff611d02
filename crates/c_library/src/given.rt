//! What C hands in, and what it stands for.
ghost use Rattle.std.specs.Prelude.{◌≡◌, ◌↔◌, ◌<◌, ◌≤◌, All, IfErr, IfOk, IsTrue, length, map};
ghost use Rattle.base.specs.Prelude.{most_held};
ghost use Rattle.judge.specs.Prelude.{AreJudgedSizesSmall, judged_sizes_of};
ghost use Rattle.c_library.specs.Prelude.{HaveGivenKinds, AreGivenRules, HasGivenKind, given_event_of, given_sizes, given_kind_of, given_model_of, given_rules_of};

use journal::{Event, Kind, MOST_HELD};
use judge::{MemoryModel, Sizes};
use lrc_check::Rules;
use std::alloc::{AllocError, Global};

/// The sizes of the cluster whose history is handed in.
#[repr(C)]
#[derive(Clone, Copy)]
pub struct GivenSizes {
    /// How many processors it has, at most 16.
    pub processors: u32,
    /// How many pages, at most 64.
    pub pages: u32,
    /// How many words a page has, at most 64.
    pub words: u32,
    /// How many locks it has, at most 32.
    pub locks: u32,
    /// How many flags, at most 32.
    pub flags: u32,
}

/// An event. Of the last fields, those that its kind doesn't name say nothing.
#[repr(C)]
#[derive(Clone, Copy)]
pub struct GivenEvent {
    /// The processor that made it, a number from 0.
    pub processor: u32,
    /// What it did: its kind's place among those of `journal::Kind`, from 0.
    pub kind: u32,
    /// The address, page, lock or flag that it names.
    pub number: u32,
    /// The word that a load answered or a store wrote.
    pub value: u32,
    /// How many processors' records a fetch applied.
    pub writers: u32,
    /// How many records it applied.
    pub records: u32,
    /// How many words these records have in all.
    pub words: u32,
}

/// By what a history is judged.
#[repr(C)]
#[derive(Clone, Copy)]
pub struct GivenRules {
    /// What its loads owe: the model's place among those of `judge::MemoryModel`, from 0.
    pub model: u32,
    /// 1 to leave out that a lock's asks are granted in their order, and that fetches count their gaps, else 0.
    pub lax: u32,
    /// 1 to end judging with the first race, else 0.
    pub ends_at_race: u32,
}

impl GivenSizes {
    /// The sizes that they stand for.
    pub fn sizes(&self) -> Sizes
        ensures { judged_sizes_of result ≡ given_sizes self.now }
    {
        Sizes {
            processors: self.processors as usize,
            pages: self.pages as usize,
            words: self.words as usize,
            locks: self.locks as usize,
            flags: self.flags as usize,
        }
    }
}

impl GivenRules {
    /// Whether each number has a meaning.
    pub fn are_known(&self) -> bool
        ensures { IsTrue result ↔ AreGivenRules self.now }
    {
        self.model < 4 && self.lax < 2 && self.ends_at_race < 2
    }

    /// The model that they name.
    fn model(&self) -> MemoryModel
        requires { self.now.model < 4 }
        ensures { result ≡ given_model_of self.now.model }
    {
        match self.model {
            0 => MemoryModel::RaceFree,
            1 => MemoryModel::HappensBefore,
            2 => MemoryModel::LazyRelease,
            _ => MemoryModel::Sequential,
        }
    }

    /// The rules that they stand for.
    pub fn rules(&self) -> Rules
        requires { AreGivenRules self.now }
        ensures { result ≡ given_rules_of self.now }
    {
        Rules {
            model: self.model(),
            lax: self.lax == 1,
            ends_at_race: self.ends_at_race == 1,
            locksets: None,
            all_races: false,
        }
    }
}

impl GivenEvent {
    /// Whether its kind is one of those.
    pub fn has_kind(&self) -> bool
        ensures { IsTrue result ↔ HasGivenKind self.now }
    {
        self.kind < 11
    }

    /// What it did.
    fn kind(&self) -> Kind
        requires { HasGivenKind self.now }
        ensures { result ≡ given_kind_of self.now }
    {
        let number = self.number as usize;
        match self.kind {
            0 => Kind::Load(number, self.value),
            1 => Kind::Store(number, self.value),
            2 => Kind::Fetch {
                writers: self.writers,
                page: number,
                records: self.records,
                words: self.words,
            },
            3 => Kind::Ask(number),
            4 => Kind::Acquire(number),
            5 => Kind::Release(number),
            6 => Kind::Arrive,
            7 => Kind::Depart,
            8 => Kind::Set(number),
            9 => Kind::Watch(number),
            _ => Kind::Await(number),
        }
    }

    /// The event that it stands for.
    pub fn event(&self) -> Event
        requires { HasGivenKind self.now }
        ensures { result ≡ given_event_of self.now }
    {
        Event {
            processor: self.processor as usize,
            kind: self.kind(),
        }
    }
}

/// Whether each event's kind is one of those.
pub fn have_given_kinds(events: &[GivenEvent]) -> bool
    ensures { IsTrue result ↔ HaveGivenKinds events.now }
{
    events.iter().all(|event| event.has_kind())
}

/// Whether there are no more than can be judged.
pub fn are_given_few(events: &[GivenEvent]) -> bool
    ensures { IsTrue result ↔ (length events.now ≤ most_held) }
{
    events.len() <= MOST_HELD
}

/// The events that they stand for. The only error is running out of memory.
pub fn given_events_of(alloc: Global, given: &[GivenEvent]) -> Result<Vec<Event>, AllocError>
    requires { HaveGivenKinds given.now }
    ensures { IfOk result (λ v. v.items ≡ map given_event_of given.now) }
{
    let mut events = Vec::with_capacity(alloc, given.len())?;
    for event in given {
        events.push(event.event())?;
    }
    Ok(events)
}
