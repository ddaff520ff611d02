//! Loads and stores of a seat's processor.
ghost use Rattle.std.specs.Prelude.{◌≡◌, ◌/◌, ℕ, IfErr, IsOk, None, Some};
ghost use Rattle.std.specs.Result.{result_err};
ghost use Rattle.book.specs.declared.refused.Refused.{Refused as ARefusal};
ghost use Rattle.cluster.specs.Prelude.{HasCoverage, processor_refusal_at_once, processor_refusal_of_access};
ghost use Rattle.seats.specs.Prelude.{IsSeatCallAccessRefusal, SeatCallAccessesBy};

use cluster::{BookLock, Cluster, Processor, Refused, WordAccess};
use std::sync::Wait;

/// Makes the access: of a copy that is fetched if it is stale, and in a block that is handed in if it is full.
/// [`Waiting`](Refused::Waiting) if the processor waits, [`OutOfRange`](Refused::OutOfRange) past the last address, both
/// with nothing done; else refused only as the flush of a full block is.
pub(crate) fn access_word<R: Wait>(
    rt: &R,
    cluster: &Cluster<BookLock>,
    processor: &mut Processor<BookLock>,
    address: usize,
    access: WordAccess,
) -> Result<u32, Refused>
    requires own { processor.old.lock ≡ cluster.now.lock }
    requires covers { HasCoverage processor.old }
    ensures done { SeatCallAccessesBy processor.old processor.new (address / processor.old.sizes.words) access address result }
    ensures outside { (e : ARefusal) → processor_refusal_at_once processor.old address ≡ Some e
        → (result_err result ≡ Some e) × (processor.new ≡ processor.old) }
    ensures fits { processor_refusal_of_access processor.old address ≡ None → IsOk result }
    ensures fault { IfErr result (IsSeatCallAccessRefusal processor.old address processor.new) }
{
    cluster.access(rt, processor, address, access)
}
