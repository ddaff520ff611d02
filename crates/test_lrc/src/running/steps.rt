//! Scripts by turns on one thread: what no case of `tests/program` shows.

use book::{Book, Refused};
use cluster::Rule;
use lrc_run::{Cause, RunFault, step_with};
use lrc_script::script::parse;
use std::test::Fail;
use turn::ArrayLock;

/// Processor 1 has spent its six entries while processor 0 still loads.
#[test]
fn another_has_spent_its_entries(rt: HostRuntime) -> Result<(), Fail> {
    let text =
        b"cluster 2 1 1 1\np 0\nload 0\nload 0\nload 0\nload 0\nload 0\nload 0\nload 0\nload 0\nload 0\np 1\nacquire 0\nrelease 0\nacquire 0\nrelease 0\nacquire 0\nrelease 0\nshow 0\n";
    let script = parse(rt.alloc(), text)?;
    let fault = step_with::<ArrayLock<Book, Rule, 6>, HostRuntime>(
        &rt,
        rt.alloc(),
        &script,
        None,
    ).err();
    let spent = RunFault {
        processor: 1,
        cause: Cause::Refused(Refused::SeatSpent),
    };
    assert_eq!(rt; fault, Some(spent));
    Ok(())
}
