//! Calls on a processor, as data.
ghost use Rattle.std.specs.Prelude.{◌≡◌};
ghost use Rattle.std.specs.Result.{result_err};
ghost use Rattle.test_crews.specs.Crews.Crews.{IsOf, StaysItself};

use book::Refused;
use cluster::{BookTurn, Cluster, Processor, Waited};
use journal::Journal;
use std::sync::Wait;

/// A call on a processor.
#[derive(Clone, Copy, Debug)]
pub enum Call {
    Load(usize),
    Store(usize, u32),
    Fetch(usize),
    Ask(usize),
    Release(usize),
    Arrive,
    Set(usize),
    Watch(usize),
    Take,
    Flush,
    Audit,
    Cut,
}

/// What a call answers that isn't refused.
#[derive(Drop)]
pub enum CallAnswer {
    Done,
    Word(u32),
    Copy(Journal),
}

/// Loads, as [`Processor::load`] does.
pub(crate) fn load<T: BookTurn>(
    cluster: &Cluster<T>,
    processor: &mut Processor<T>,
    address: usize,
) -> Result<u32, Refused>
    requires { IsOf cluster.now processor.old }
    ensures { StaysItself cluster.now processor.old processor.new (result_err result) }
{
    let _cluster = cluster;
    processor.load(address)
}

/// Waits until what the processor awaits may have come, as [`Cluster::wait`] does.
pub(crate) fn wait_on<T: BookTurn, R: Wait>(
    cluster: &Cluster<T>,
    rt: &R,
    processor: &mut Processor<T>,
) -> Result<Waited, Refused>
    requires { IsOf cluster.now processor.old }
    ensures { StaysItself cluster.now processor.old processor.new (result_err result) }
{
    cluster.wait(rt, processor)
}

/// Makes the call.
pub(crate) fn make<T: BookTurn, R: Wait>(
    cluster: &Cluster<T>,
    rt: &R,
    processor: &mut Processor<T>,
    call: Call,
) -> Result<CallAnswer, Refused>
    requires { IsOf cluster.now processor.old }
    ensures { StaysItself cluster.now processor.old processor.new (result_err result) }
{
    match call {
        Call::Load(address) => word(load(cluster, processor, address)),
        Call::Store(address, value) => done(processor.store(address, value)),
        Call::Fetch(page) => done(processor.fetch(page)),
        Call::Ask(lock) => done(cluster.ask(rt, processor, lock)),
        Call::Release(lock) => done(cluster.release(rt, processor, lock)),
        Call::Arrive => done(cluster.arrive(rt, processor)),
        Call::Set(flag) => done(cluster.set(rt, processor, flag)),
        Call::Watch(flag) => done(cluster.watch(rt, processor, flag)),
        Call::Take => done(cluster.take(rt, processor)),
        Call::Flush => done(cluster.flush(rt, processor)),
        Call::Audit => copy(cluster.audit(rt, processor)),
        Call::Cut => done(cluster.cut(rt, processor)),
    }
}

/// The same of a call that answers nothing.
fn done(outcome: Result<(), Refused>) -> Result<CallAnswer, Refused>
    ensures { result_err result ≡ result_err outcome }
{
    outcome?;
    Ok(CallAnswer::Done)
}

/// The same of a load.
fn word(outcome: Result<u32, Refused>) -> Result<CallAnswer, Refused>
    ensures { result_err result ≡ result_err outcome }
{
    Ok(CallAnswer::Word(outcome?))
}

/// The same of an audit.
fn copy(outcome: Result<Journal, Refused>) -> Result<CallAnswer, Refused>
    ensures { result_err result ≡ result_err outcome }
{
    Ok(CallAnswer::Copy(outcome?))
}
