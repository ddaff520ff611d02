//! The end of a cluster.
ghost use Rattle.std.specs.Prelude.{◌≡◌, ◌≤◌, ℕ, List, [], length, map, vec_len, vec_capacity};
ghost use Rattle.std.specs.Vec.{vec_items};
ghost use Rattle.journal.specs.declared.event.Event.{Event as AnEvent};
ghost use Rattle.journal.specs.Sizes.{Sizes};
ghost use Rattle.base.specs.Limits.{most_processors};
ghost use Rattle.cluster.specs.Copies.Local.{Local};
ghost use Rattle.cluster.specs.Finishing.{AreAllToFinish, AreDismantledToFinish, AreBlocksToFinish, IsFinished, IsFinishing};

use super::Cluster;
use crate::keeper::{BookTurn, Rule};
use crate::processor::Processor;
use base::MOST_PROCESSORS;
use book::Book;
use journal::{Event, Journal};
use std::alloc::{AllocError, Global};
use turn::Chair;

/// Room for the chairs and the blocks of all processors, with which [`Cluster::finish`] takes no memory.
#[derive(Drop)]
pub(super) struct FinishingRoom {
    chairs: Vec<Chair<Book, Rule>>,
    blocks: Vec<Vec<Event>>,
    ghost no_chairs: { (chairs.items ≡ []) × (most_processors ≤ vec_capacity chairs) },
    ghost no_blocks: { (blocks.items ≡ []) × (most_processors ≤ vec_capacity blocks) },
}

impl FinishingRoom {
    /// Room for as many as a cluster may have.
    pub(super) fn new(alloc: Global) -> Result<FinishingRoom, AllocError> {
        Ok(FinishingRoom {
            chairs: Vec::with_capacity(alloc, MOST_PROCESSORS)?,
            blocks: Vec::with_capacity(alloc, MOST_PROCESSORS)?,
        })
    }
}

impl<T: BookTurn> Cluster<T> {
    /// Hands in the open blocks of all processors, by rising number, and answers the journal. It takes no memory and
    /// waits for nothing; processors that wait may be among them.
    pub fn finish(self, processors: Vec<Processor<T>>) -> Journal
        requires { AreAllToFinish self processors.items }
        ensures { IsFinished self.sizes processors.items result }
    {
        let Cluster {
            turn,
            shape: _,
            bells: _,
            spare,
        } = self;
        let (chairs, blocks) = finish_taking_apart(processors, spare.into_inner());
        let mut book = turn.close(chairs);
        finish_handing_in(&mut book, blocks.as_slice());
        book.into_journal()
    }
}

/// The chairs of the processors, and their open blocks.
fn finish_taking_apart<T: BookTurn>(
    processors: Vec<Processor<T>>,
    spare: FinishingRoom,
) -> (Vec<Chair<Book, Rule>>, Vec<Vec<Event>>)
    requires { vec_len processors ≤ most_processors }
    ensures { AreDismantledToFinish processors.items result.0.items (map vec_items result.1.items) }
{
    let FinishingRoom {
        mut chairs,
        mut blocks,
    } = spare;
    for processor in processors {
        let (chair, block) = processor.into_parts();
        chairs.push_reserved(chair);
        blocks.push_reserved(block);
    }
    (chairs, blocks)
}

/// Hands the blocks in, the one at place p as that of processor p.
fn finish_handing_in(book: &mut Book, blocks: &[Vec<Event>])
    requires { (s : Sizes) × (ms : List Local) × (h : List AnEvent)
        × IsFinishing s ms 0 h book.old × AreBlocksToFinish ms (map vec_items blocks.now) }
    ensures { (s : Sizes) (ms : List Local) (h : List AnEvent)
        → IsFinishing s ms 0 h book.old → AreBlocksToFinish ms (map vec_items blocks.now)
        → (g : List AnEvent) × IsFinishing s ms (length ms) g book.new }
{
    for p in 0..blocks.len() {
        book.last(p, blocks[p].as_slice());
    }
}
