//! Loads and stores for which a stale copy is fetched, and a full block handed in.
ghost use Rattle.std.specs.Prelude.{◌≡◌, ℕ, IfOk, OnErr};
ghost use Rattle.std.specs.Result.{result_err};
ghost use Rattle.cluster.specs.Prelude.{HasCoverage, processor_refusal_of_access};
ghost use Rattle.cluster.specs.ReadyAccess.{IsAccessFetchDue, IsAccessFetchedBy, IsAccessReadyBy, IsAccessRoomBy, IsAccessUnready, IsReadyAccess, IsWordAccessDone};

use super::Cluster;
use crate::keeper::BookTurn;
use crate::processor::Processor;
use book::Refused;
use std::sync::Wait;

/// A load or a store of a word.
#[derive(Clone, Copy)]
pub enum WordAccess {
    /// Answers the word.
    Load,
    /// Makes it this word, and answers that.
    Store(u32),
}

impl<T: BookTurn> Cluster<T> {
    /// Makes the access: of a copy that is fetched if it is stale, and in a block that is handed in if it is full.
    /// [`Waiting`](Refused::Waiting) if the processor waits, [`OutOfRange`](Refused::OutOfRange) past the last address, both
    /// with nothing done; else refused only as the [`flush`](Cluster::flush) of a full block is, after that fetch if any.
    pub fn access<R: Wait>(
        &self,
        rt: &R,
        processor: &mut Processor<T>,
        address: usize,
        access: WordAccess,
    ) -> Result<u32, Refused>
        requires own { processor.old.lock ≡ self.now.lock }
        ensures { IsReadyAccess processor.old address access processor.new result }
    {
        if processor.awaits.is_some() {
            return Err(Refused::Waiting);
        }
        match access_once(processor, address, access) {
            Ok(word) => Ok(word),
            Err(refused) => {
                self.make_ready(rt, processor, refused)?;
                access_once(processor, address, access)
            }
        }
    }

    /// Makes what an access was refused for: a valid copy, and room in the block. Else it is refused as the access was.
    fn make_ready<R: Wait>(
        &self,
        rt: &R,
        processor: &mut Processor<T>,
        refused: Refused,
    ) -> Result<(), Refused>
        requires own { processor.old.lock ≡ self.now.lock }
        ensures { (a : ℕ) → IsAccessUnready processor.old a refused → IsAccessReadyBy processor.old a processor.new result }
    {
        match refused {
            Refused::Invalid(page) => {
                self.bring(rt, processor, page)?;
                self.make_room(rt, processor)
            }
            Refused::BlockFull => self.make_room(rt, processor),
            other => Err(other),
        }
    }

    /// Fetches the page, after a flush if the block is full.
    fn bring<R: Wait>(
        &self,
        rt: &R,
        processor: &mut Processor<T>,
        page: usize,
    ) -> Result<(), Refused>
        requires own { processor.old.lock ≡ self.now.lock }
        ensures own { processor.new.lock ≡ self.now.lock }
        ensures done { IsAccessFetchDue processor.old page → IsAccessFetchedBy processor.old page processor.new result }
    {
        self.make_room(rt, processor)?;
        processor.fetch(page)
    }

    /// Hands the block in, if it is full.
    fn make_room<R: Wait>(&self, rt: &R, processor: &mut Processor<T>) -> Result<(), Refused>
        requires own { processor.old.lock ≡ self.now.lock }
        ensures own { processor.new.lock ≡ self.now.lock }
        ensures room { IsAccessRoomBy processor.old processor.new result }
    {
        if processor.room() == 0 {
            self.flush(rt, processor)
        } else {
            Ok(())
        }
    }
}

/// Makes the access, of a valid copy and in a block with room.
fn access_once<T: BookTurn>(
    processor: &mut Processor<T>,
    address: usize,
    access: WordAccess,
) -> Result<u32, Refused>
    ensures refused { result_err result ≡ processor_refusal_of_access processor.old address }
    ensures err { OnErr result (processor.new ≡ processor.old) }
    ensures ok { IfOk result (λ v. IsWordAccessDone processor.old access address v processor.new) }
    ensures covers { HasCoverage processor.new }
{
    match access {
        WordAccess::Load => processor.load(address),
        WordAccess::Store(word) => match processor.store(address, word) {
            Ok(()) => Ok(word),
            Err(refused) => Err(refused),
        },
    }
}
