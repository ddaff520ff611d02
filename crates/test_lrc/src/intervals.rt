//! Closed intervals: what a look takes of memory, and that threads may share them.
//!
//! Each look comes as `once` and as `nine_times`, and `tests/memory/run` compares how many requests for memory the two make.
ghost use Rattle.std.specs.Prelude.{◌≡◌, IfOk, length};

use interval::{Closed, Interval, Notice, Sent};
use page::Record;
use std::alloc::{AllocError, Global};
use std::process::Abort;
use std::sync::Arc;
use std::test::Fail;

/// The interval of one owner that writes to page 3.
fn one(alloc: Global) -> Result<Closed, AllocError>
    ensures { IfOk result (λ c. length c.first ≡ 1) }
{
    let mut closed = Closed::new(alloc, 1)?;
    let record = Record::new(3, vec![in alloc; (0, 1)]?);
    let records = vec![in alloc; Arc::new(alloc, record)?]?;
    let (owner, number) = (0, 0);
    closed.push(Interval {
        owner,
        number,
        records,
    })?;
    Ok(closed)
}

/// Its record's notice.
const NOTICE: Notice = Notice {
    page: 3,
    owner: 0,
    number: 0,
};

/// Whether the record is found until its interval is trimmed, in the third turn.
fn are_found(alloc: Global, times: usize) -> Result<bool, AllocError> {
    let mut closed = one(alloc)?;
    let mut are_right = true;
    for turn in 0..times {
        let is_kept = turn < 2;
        are_right &= closed.record_of(&NOTICE).is_some() == is_kept;
        are_right &= (closed.first(0) == 0) == is_kept;
        closed.trim(0, turn.min(1) as u64);
    }
    Ok(are_right)
}

#[test]
fn once(rt: HostRuntime) -> Result<(), Fail> {
    assert!(rt; are_found(rt.alloc(), 1)?);
    Ok(())
}

#[test]
fn nine_times(rt: HostRuntime) -> Result<(), Fail> {
    assert!(rt; are_found(rt.alloc(), 9)?);
    Ok(())
}

/// What may be shared among threads.
fn shared<T: Send + Sync + Drop>(value: T) -> T {
    value
}

/// Whether closed intervals that may be shared have their record, and notices that may be shared are none yet.
fn are_shared(alloc: Global) -> Result<bool, AllocError> {
    let closed = shared(one(alloc)?);
    let sent: Vec<Sent> = shared(Vec::new(alloc));
    Ok(closed.record_of(&NOTICE).is_some() && sent.is_empty())
}

#[test]
fn are_shared_among_threads(rt: HostRuntime) -> Result<(), Fail> {
    assert!(rt; are_shared(rt.alloc())?);
    Ok(())
}
