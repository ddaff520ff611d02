//! A cluster with its processors.
ghost use Rattle.std.specs.Prelude.{◌≡◌, ◌^◌, ◌≤◌, IfOk, OnErr, length, slice_get, slice_index};
ghost use Rattle.std.specs.Option.{option_map};
ghost use Rattle.cluster.specs.Prelude.{IsNewCluster, IsFinished};
ghost use Rattle.test_crews.specs.Crews.Crews.{IsTurnOf, HaveSameCalls};

use crate::crews::calls::{Call, CallAnswer, make};
use book::Refused;
use cluster::{BookTurn, Cluster, Processor};
use journal::Journal;
use std::alloc::Global;
use std::marker::Model;
use std::sync::Wait;

/// A cluster with all its processors, in the order of their numbers.
#[derive(Drop)]
pub struct Crew<T: BookTurn> {
    pub(crate) cluster: Cluster<T>,
    pub(crate) processors: Vec<Processor<T>>,
}

impl<T: BookTurn> Model for Crew<T> {
    ghost use Rattle.test_crews.specs.Crews.Crews.{Crewed, crewed, AreMembers};

    ghost Value = { Crewed };

    ghost view = { λ c. crewed c.cluster c.processors.items };

    ghost invariant = { λ c. AreMembers c.cluster c.processors.items };
}

impl<T: BookTurn> Crew<T> {
    /// A cluster of these sizes, in the order of `Cluster::new`, and its processors. Refused as that is.
    pub fn new(alloc: Global, sizes: [usize; 5]) -> Result<Crew<T>, Refused>
        requires { T.ENTRIES ≤ 2 ^ 40 }
        ensures sizes { IfOk result (λ c. c.cluster.sizes ≡ record {
          processors = slice_index sizes 0;
          pages = slice_index sizes 1;
          words = slice_index sizes 2;
          locks = slice_index sizes 3;
          flags = slice_index sizes 4;
        }) }
        ensures new { IfOk result (λ c. IsNewCluster c.cluster c.all) }
    {
        let [processors, pages, words, locks, flags] = sizes;
        let (cluster, processors) = Cluster::new(alloc, processors, pages, words, locks, flags)?;
        Ok(Crew {
            cluster,
            processors,
        })
    }

    /// The processor with this number; None where there is none.
    pub fn processor(&self, p: usize) -> Option<&Processor<T>>
        ensures { option_map (λ m. m.now) result ≡ slice_get self.now.all p }
    {
        self.processors.get(p)
    }

    /// Makes this call on processor `p`. Refused as the call is, or [`OutOfRange`](Refused::OutOfRange) where
    /// there is no such processor. A refused call changes no processor's accepted calls.
    pub fn call<R: Wait>(&mut self, rt: &R, p: usize, call: Call) -> Result<CallAnswer, Refused>
        ensures own { IsTurnOf p self.old self.new }
        ensures refused { OnErr result (HaveSameCalls self.old.all self.new.all) }
    {
        if p >= self.processors.len() {
            return Err(Refused::OutOfRange);
        }
        let cluster = &self.cluster;
        make(cluster, rt, &mut self.processors[p], call)
    }

    /// Ends the cluster, and answers its journal: the processors' open blocks are handed in by rising number.
    pub fn finish(self) -> Journal
        ensures { IsFinished self.cluster.sizes self.all result }
    {
        let Crew {
            cluster,
            processors,
        } = self;
        cluster.finish(processors)
    }
}
