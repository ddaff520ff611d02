//! What the loads of a history owe under a model.
ghost use Rattle.std.specs.Prelude.{◌≡◌, ◌↔◌, ℕ, ◌<◌, [], ◌∷◌, ◌++◌, Bool, IfOk, IsTrue, List, OnOk, length};
ghost use Rattle.journal.specs.declared.event.Event.{Event};
ghost use Rattle.journal.specs.declared.event.Kind.TheVariants.{Load};
ghost use Rattle.journal.specs.Sizes.{Sizes as TheSizes, addresses};
ghost use Rattle.journal.specs.Prelude.{did, event as an_event};
ghost use Rattle.journal.specs.Races.{RaceFree};
ghost use Rattle.judge.specs.declared.models.MemoryModel.{MemoryModel as AModel};
ghost use Rattle.judge.specs.declared.models.MemoryModel.TheVariants as model;
ghost use Rattle.judge.specs.Prelude.{AreOwedBy, AreStreamedSizes, IsEventInSizes, IsModelAnswer, IsOwedRacy, PermitsOwed, judged_sizes_of, most_judged_events};

use crate::flat_memory::FlatMemory;
use crate::kept_stores::KeptStores;
use crate::models::MemoryModel;
use crate::permitted::Permitted;
use crate::sizes::Sizes;
use journal::{Event, Kind};
use std::alloc::{AllocError, Global};

/// A history, taken an event at a time, of which it tells what a load that comes next owes under a model.
#[derive(Drop)]
pub enum Owed {
    /// Under `MemoryModel::RaceFree`: up to the first race what a load owes is the word of one flat memory.
    RaceFree(FlatMemory),
    /// Under `MemoryModel::HappensBefore`.
    HappensBefore(KeptStores),
    /// Under `MemoryModel::LazyRelease`.
    LazyRelease(KeptStores),
    /// Under `MemoryModel::Sequential`.
    Sequential(FlatMemory),
}

impl Owed {
    /// Before the first event of a history of these sizes. The only error is running out of memory.
    pub fn new(alloc: Global, model: MemoryModel, sizes: Sizes) -> Result<Owed, AllocError>
        requires { AreStreamedSizes (judged_sizes_of sizes) }
        ensures { IfOk result (AreOwedBy model (judged_sizes_of sizes) []) }
    {
        let addresses = sizes.pages * sizes.words;
        match model {
            MemoryModel::RaceFree => FlatMemory::new(alloc, addresses).map(Owed::RaceFree),
            MemoryModel::HappensBefore => {
                KeptStores::new(alloc, sizes.processors, addresses).map(Owed::HappensBefore)
            }
            MemoryModel::LazyRelease => {
                KeptStores::new(alloc, sizes.processors, addresses).map(Owed::LazyRelease)
            }
            MemoryModel::Sequential => FlatMemory::new(alloc, addresses).map(Owed::Sequential),
        }
    }

    /// Whether a load of the address by this processor that comes next may answer the value. `is_racy` says whether there is a
    /// race then.
    fn may_answer(&self, processor: usize, address: usize, value: u32, is_racy: bool) -> bool
        requires { (m : AModel) × (s : TheSizes) × (j : List Event) × AreOwedBy m s j self.now
            × (processor < s.processors) × (address < addresses s) }
        ensures { (m : AModel) (s : TheSizes) (j : List Event) → AreOwedBy m s j self.now
            → processor < s.processors → address < addresses s
            → IsOwedRacy j (an_event processor (Load address value)) is_racy
            → IsTrue result ↔ IsModelAnswer m s (did j processor (Load address value)) (length j) address value }
    {
        match self {
            Owed::RaceFree(memory) => is_racy || memory.has(address, value),
            Owed::HappensBefore(stores) => {
                stores.may_answer(processor, address, value)
                    || stores.has_unordered(processor, address, value)
            }
            Owed::LazyRelease(stores) => stores.may_answer(processor, address, value),
            Owed::Sequential(memory) => memory.has(address, value),
        }
    }

    /// Whether the event, which comes next, answers what it owes, if it is a load. `is_racy` says whether there is a race with
    /// it.
    pub fn is_paid(&self, event: Event, is_racy: bool) -> bool
        requires { (m : AModel) × (s : TheSizes) × (j : List Event) × AreOwedBy m s j self.now × IsEventInSizes s event }
        ensures { (m : AModel) (s : TheSizes) (j : List Event) → AreOwedBy m s j self.now
            → IsEventInSizes s event → IsOwedRacy j event is_racy
            → IsTrue result ↔ ((a v : ℕ) → event.kind ≡ Load a v → IsModelAnswer m s (j ++ event ∷ []) (length j) a v) }
    {
        match event.kind {
            Kind::Load(address, value) => {
                self.may_answer(event.processor, address, value, is_racy)
            }
            _ => true,
        }
    }

    /// What a load of the address by this processor that comes next may answer; under `MemoryModel::RaceFree` if there is no
    /// race with it. The only error is running out of memory.
    pub fn permitted(
        &self,
        alloc: Global,
        processor: usize,
        address: usize,
    ) -> Result<Permitted, AllocError>
        requires { (m : AModel) × (s : TheSizes) × (j : List Event) × AreOwedBy m s j self.now
            × (processor < s.processors) × (address < addresses s) }
        ensures { IfOk result (λ x. (m : AModel) (s : TheSizes) (j : List Event) → AreOwedBy m s j self.now
            → processor < s.processors → address < addresses s → (v : ℕ)
            → (m ≡ model.RaceFree → RaceFree (did j processor (Load address v)))
            → PermitsOwed m (did j processor (Load address v)) (length j) address x) }
    {
        match self {
            Owed::RaceFree(memory) => Ok(Permitted::One(memory.last(address))),
            Owed::LazyRelease(stores) => {
                let latest = stores.latest(alloc, processor, address)?;
                Ok(Permitted::Latest(latest))
            }
            Owed::HappensBefore(stores) => {
                let latest = stores.latest(alloc, processor, address)?;
                let unordered = stores.unordered(alloc, processor, address)?;
                Ok(Permitted::Heard(latest, unordered))
            }
            Owed::Sequential(memory) => Ok(Permitted::Last(memory.last(address))),
        }
    }

    /// Takes note of the event, the next one, which comes at this place. The only error is running out of memory, after which it
    /// may tell no history.
    pub fn note(&mut self, event: Event, place: usize) -> Result<(), AllocError>
        requires few { place < most_judged_events }
        requires so_far { (m : AModel) × (s : TheSizes) × (j : List Event) × AreOwedBy m s j self.old × (length j ≡ place)
            × IsEventInSizes s event }
        ensures { OnOk result ((m : AModel) (s : TheSizes) (j : List Event) → AreOwedBy m s j self.old → length j ≡ place
            → IsEventInSizes s event → AreOwedBy m s (j ++ event ∷ []) self.new) }
    {
        match self {
            Owed::RaceFree(memory) => memory.note(event, place),
            Owed::HappensBefore(stores) => stores.note(event),
            Owed::LazyRelease(stores) => stores.note(event),
            Owed::Sequential(memory) => memory.note(event, place),
        }
    }
}
