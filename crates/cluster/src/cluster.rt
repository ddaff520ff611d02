//! Clusters.
ghost use Rattle.std.specs.Prelude.{◌≡◌, ◌≢◌, ◌⊎◌, ◌↔◌, ◌^◌, ◌≤◌, ◌<◌, Err, IfErr, IfOk, IsTrue, ℕ, List, [], length};
ghost use Rattle.std.specs.Prelude.{vec_len, vec_capacity, slice_get, Some};
ghost use Rattle.cluster.specs.Copies.Prelude.{AreSoundSizes};
ghost use Rattle.cluster.specs.Prelude.{AreNewClusterParts, AreNewClusterChairs, IsNewClusterSeated, IsNewCluster, HasClusterCoverage};
ghost use Rattle.cluster.specs.Prelude.{HasNewClusterChairs, IsClusterLockOf};

mod accessing;
mod calls;
mod catching_up;
mod closing_calls;
mod cutting;
mod entering;
mod finishing;
mod flush_and_audit;
mod taking;
mod waiting;

pub use self::accessing::WordAccess;
use self::finishing::FinishingRoom;
use crate::bells::Bells;
use crate::keeper::{BookTurn, Rule};
use crate::processor::{Processor, ProcessorParts};
use crate::shape::Shape;
use book::{Book, Refused};
use std::alloc::{AllocError, Global};
use std::marker::Model;
use std::sync::Mutex;
use turn::Chair;

/// A cluster of processors over one book, behind the lock `T`. Its threads share it by reference.
#[derive(Drop)]
pub struct Cluster<T: BookTurn> {
    turn: T,
    shape: Shape,
    bells: Bells,
    // Behind a mutex since a chair is not `Sync`, though nobody locks it.
    spare: Mutex<FinishingRoom>,
}

impl<T: BookTurn> Model for Cluster<T> {
    ghost use Rattle.std.specs.Prelude.{◌≡◌};
    ghost use Rattle.cluster.specs.Copies.Sound.{AreSoundSizes};
    ghost use Rattle.cluster.specs.NewClusters.{SharedCluster, shared_cluster};

    ghost Value = { SharedCluster };

    ghost view = { λ c. shared_cluster (T.id c.turn) c.shape };

    ghost invariant = { λ c. (T.size c.turn ≡ c.shape.processors) × AreSoundSizes c.shape };
}

impl<T: BookTurn> Cluster<T> {
    /// A cluster of these sizes, and its processors in the order of their numbers: 1 to 16 processors, 1 to
    /// 64 pages of 1 to 64 words, and up to 32 locks and flags.
    ///
    /// [`BadSize`](Refused::BadSize) exactly if a size is outside these; else the only error is
    /// [`NoMemory`](Refused::NoMemory).
    pub fn new(
        alloc: Global,
        processors: usize,
        pages: usize,
        words: usize,
        locks: usize,
        flags: usize,
    ) -> Result<(Cluster<T>, Vec<Processor<T>>), Refused>
        requires { T.ENTRIES ≤ 2 ^ 40 }
        ensures size { result ≢ Err Refused.BadSize ↔ AreSoundSizes (record {
          processors = processors;
          pages = pages;
          words = words;
          locks = locks;
          flags = flags;
        }) }
        ensures only { IfErr result (λ e. (e ≡ Refused.BadSize) ⊎ (e ≡ Refused.NoMemory)) }
        ensures sizes { IfOk result (λ r. r.0.sizes ≡ record {
          processors = processors;
          pages = pages;
          words = words;
          locks = locks;
          flags = flags;
        }) }
        // Its lock is of the kind that was asked for.
        ensures turn { IfOk result (λ r. IsClusterLockOf T.width r.0) }
        ensures limit { IfOk result (λ r. r.0.lock.limit ≡ T.ENTRIES) }
        ensures new { IfOk result (λ r. IsNewCluster r.0 r.1.items) }
        ensures covers { IfOk result (λ r. HasClusterCoverage r.1.items) }
    {
        let shape = Shape {
            processors,
            pages,
            words,
            locks,
            flags,
        };
        if !shape.is_lawful() {
            return Err(Refused::BadSize);
        }
        let (cluster, all) = Cluster::lawful(alloc, shape)?;
        Ok((cluster, all))
    }

    /// A cluster of these sizes. All memory but the lock's own is taken first.
    fn lawful(alloc: Global, shape: Shape) -> Result<(Cluster<T>, Vec<Processor<T>>), AllocError>
        requires entries { T.ENTRIES ≤ 2 ^ 40 }
        requires sizes { AreSoundSizes shape }
        ensures sizes { IfOk result (λ r. r.0.sizes ≡ shape) }
        ensures turn { IfOk result (λ r. IsClusterLockOf T.width r.0) }
        ensures limit { IfOk result (λ r. r.0.lock.limit ≡ T.ENTRIES) }
        ensures new { IfOk result (λ r. IsNewCluster r.0 r.1.items) }
        ensures covers { IfOk result (λ r. HasClusterCoverage r.1.items) }
    {
        let all = Vec::with_capacity(alloc, shape.processors)?;
        let parts = cluster_parts_of(alloc, shape)?;
        let (cluster, chairs) = Self::without_processors(alloc, shape)?;
        let all = Self::seat_all(shape, chairs, parts, all);
        Ok((cluster, all))
    }

    /// A cluster of these sizes, with the chairs of its processors.
    fn without_processors(
        alloc: Global,
        shape: Shape,
    ) -> Result<(Cluster<T>, Vec<Chair<Book, Rule>>), AllocError>
        requires entries { T.ENTRIES ≤ 2 ^ 40 }
        requires sizes { AreSoundSizes shape }
        ensures sizes { IfOk result (λ r. r.0.sizes ≡ shape) }
        ensures turn { IfOk result (λ r. IsClusterLockOf T.width r.0) }
        ensures limit { IfOk result (λ r. r.0.lock.limit ≡ T.ENTRIES) }
        ensures chairs { IfOk result (λ r. HasNewClusterChairs r.0 r.1.items) }
    {
        let Shape {
            processors,
            pages,
            words,
            locks,
            flags,
        } = shape;
        let spare = Mutex::new(FinishingRoom::new(alloc)?);
        let bells = Bells::new(alloc, processors)?;
        let book = Book::new(alloc, processors, pages, words, locks, flags)?;
        let (turn, chairs) = T::new(alloc, book, processors)?;
        let cluster = Cluster {
            turn,
            shape,
            bells,
            spare,
        };
        Ok((cluster, chairs))
    }

    /// Gives each chair its processor.
    fn seat_all(
        shape: Shape,
        chairs: Vec<Chair<Book, Rule>>,
        mut parts: Vec<ProcessorParts>,
        mut all: Vec<Processor<T>>,
    ) -> Vec<Processor<T>>
        requires sizes { AreSoundSizes shape }
        requires chairs { (vec_len chairs ≡ shape.processors) × AreNewClusterChairs shape chairs.items }
        requires parts { (vec_len parts ≡ shape.processors)
            × ((p : ℕ) (x : ProcessorParts) → slice_get parts.items p ≡ Some x → AreNewClusterParts shape x) }
        requires room { (all.items ≡ []) × (shape.processors ≤ vec_capacity all) }
        ensures { IsNewClusterSeated shape chairs.items result.items }
    {
        for chair in chairs {
            let Some(own) = parts.pop() else {
                unreachable!("there are as many as chairs")
            };
            all.push_reserved(Processor::seated(all.len(), shape, chair, own));
        }
        all
    }
}

/// What each processor has before it has a chair.
fn cluster_parts_of(alloc: Global, shape: Shape) -> Result<Vec<ProcessorParts>, AllocError>
    requires { AreSoundSizes shape }
    ensures long { IfOk result (λ all. vec_len all ≡ shape.processors) }
    ensures each { IfOk result (λ all. (p : ℕ) (x : ProcessorParts) → slice_get all.items p ≡ Some x
        → AreNewClusterParts shape x) }
{
    let mut all = Vec::with_capacity(alloc, shape.processors)?;
    for _ in 0..shape.processors {
        all.push(ProcessorParts::new(alloc, shape)?)?;
    }
    Ok(all)
}
