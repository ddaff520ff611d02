//! A processor that sees what another one has seen.
ghost use Rattle.std.specs.Prelude.{◌≡◌};
ghost use Rattle.cluster.specs.Prelude.{CatchesUp};

use super::Cluster;
use crate::keeper::{BookTurn, LookingOver};
use crate::processor::Processor;

impl<T: BookTurn> Cluster<T> {
    /// Lets the processor see all of the history, and so all that the other one has seen. What it has and may do stays the
    /// same. It waits for nothing, enters nothing and takes no memory.
    ///
    /// A thread that has several processors calls it between the calls of two of them: all that the other one has handed in
    /// stands in the history before what the processor hands in from then on.
    pub fn catch_up(&self, processor: &mut Processor<T>, other: &mut Processor<T>)
        requires own { (processor.old.lock ≡ self.now.lock) × (other.old.lock ≡ self.now.lock) }
        ensures processor { CatchesUp processor.old other.old processor.new }
        ensures other { other.new ≡ other.old }
    {
        let turn = &self.turn;
        turn.confer::<LookingOver>(&mut processor.chair, &mut other.chair);
    }
}
