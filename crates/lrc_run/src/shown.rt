//! The loads of the addresses that a script shows.
ghost use Rattle.std.specs.Prelude.{◌≡◌, IfOk, map};
ghost use Rattle.cluster.specs.Prelude.{IsSameProcessorOfCall};
ghost use Rattle.lrc_run.specs.Prelude.{HasRunCallsOfLoads};

use crate::walk::load;
use book::Refused;
use cluster::{BookTurn, Cluster, Processor};
use std::alloc::{AllocError, Global};
use std::sync::Wait;

/// Loads the addresses in their order, each as a script's `load`: answers each with its word. Refused as the
/// loads are, and if memory is.
pub(crate) fn show<T: BookTurn, R: Wait>(
    rt: &R,
    alloc: Global,
    cluster: &Cluster<T>,
    processor: &mut Processor<T>,
    addresses: &[usize],
) -> Result<Vec<(usize, u32)>, Refused>
    requires own { processor.old.lock ≡ cluster.now.lock }
    ensures ok { IfOk result (λ words. HasRunCallsOfLoads processor.old processor.new words.items) }
    ensures addresses { IfOk result (λ words. map (λ x. x.0) words.items ≡ addresses.now) }
{
    let mut words = Vec::with_capacity(alloc, addresses.len())?;
    for address in addresses {
        let word = load(rt, cluster, processor, *address)?;
        words.push((*address, word)).map_err(AllocError::from)?;
    }
    Ok(words)
}
