//! The replies that outcomes tell.
ghost use Rattle.std.specs.Prelude.{◌≡◌, ◌≤◌, ◌++◌, IfOk, OnOk, length};
ghost use Rattle.explore.specs.OutcomeTelling.{outcome_telling_replies, outcome_telling_reply};

use crate::outcomes::telling::OutcomeTelling;
use crate::prefixes::ScriptCall;
use journal::Kind;
use std::alloc::{AllocError, Global};

/// Puts the reply of a load at the end, if it is told.
pub fn keep_told_reply(replies: &mut Vec<u32>, is_told: bool, kind: Kind) -> Result<(), AllocError>
    ensures { OnOk result (replies.new.items ≡ replies.old.items ++ outcome_telling_reply is_told kind) }
{
    if let Kind::Load(_, word) = kind {
        if is_told {
            replies.push(word)?;
        }
    }
    Ok(())
}

/// What is told of the processor's first calls, which are these. The only error is running out of memory.
pub fn told_replies_of(
    alloc: Global,
    telling: OutcomeTelling,
    processor: usize,
    steps: &[ScriptCall],
    calls: &[Kind],
) -> Result<Vec<u32>, AllocError>
    requires { length calls.now ≤ length steps.now }
    ensures { IfOk result (λ v. v.items ≡ outcome_telling_replies telling processor steps.now 0 calls.now) }
{
    let mut replies = Vec::new(alloc);
    for place in 0..calls.len() {
        let is_told = telling.is_told(processor, steps, place);
        keep_told_reply(&mut replies, is_told, calls[place])?;
    }
    Ok(replies)
}
