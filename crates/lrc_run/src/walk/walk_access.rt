//! Loads and stores of a script. A copy that lacks records is fetched, and a block that is full is handed in;
//! else nothing is fetched or handed in.
ghost use Rattle.std.specs.Prelude.{◌≡◌, ◌+◌, ◌%◌, ◌^◌, OnOk, ℕ, [], ◌∷◌};
ghost use Rattle.cluster.specs.Prelude.{IsSameProcessorOfCall};
ghost use Rattle.lrc_run.specs.Prelude.{HasRunCallsAndFetches, AreRunCallsTried};
ghost use Rattle.journal.specs.declared.event.Kind.TheVariants as kind;

use book::Refused;
use cluster::{BookTurn, Cluster, Processor, WordAccess};
use std::sync::Wait;

/// The word at the address, of a copy that is fetched if it is stale. Refused as the load, the fetch or the
/// flush is; neither as [`Invalid`](Refused::Invalid) nor as [`BlockFull`](Refused::BlockFull).
pub(crate) fn load<T: BookTurn, R: Wait>(
    rt: &R,
    cluster: &Cluster<T>,
    processor: &mut Processor<T>,
    address: usize,
) -> Result<u32, Refused>
    requires own { processor.old.lock ≡ cluster.now.lock }
    ensures { AreRunCallsTried processor.old processor.new result (λ v. kind.Load address v ∷ []) }
{
    cluster.access(rt, processor, address, WordAccess::Load)
}

/// Stores the value at the address, as [`load`] loads.
pub(crate) fn store<T: BookTurn, R: Wait>(
    rt: &R,
    cluster: &Cluster<T>,
    processor: &mut Processor<T>,
    address: usize,
    value: u32,
) -> Result<(), Refused>
    requires own { processor.old.lock ≡ cluster.now.lock }
    ensures { AreRunCallsTried processor.old processor.new result (λ _. kind.Store address value ∷ []) }
{
    match cluster.access(rt, processor, address, WordAccess::Store(value)) {
        Ok(_) => Ok(()),
        Err(refused) => Err(refused),
    }
}

/// Adds the value to the word at the address, modulo 2^32: a load and a store.
pub(crate) fn add<T: BookTurn, R: Wait>(
    rt: &R,
    cluster: &Cluster<T>,
    processor: &mut Processor<T>,
    address: usize,
    value: u32,
) -> Result<(), Refused>
    requires own { processor.old.lock ≡ cluster.now.lock }
    ensures same { IsSameProcessorOfCall processor.old processor.new }
    ensures ok { OnOk result ((reply : ℕ) × HasRunCallsAndFetches processor.old processor.new
        (kind.Load address reply ∷ kind.Store address ((reply + value) % 2 ^ 32) ∷ [])) }
{
    let reply = load(rt, cluster, processor, address)?;
    store(rt, cluster, processor, address, reply.wrapping_add(value))
}
