//! Who wait for each other in a circle.
ghost use Rattle.std.specs.Prelude.{◌≡◌, ◌≢◌, ◌+◌, ℕ, [], IfOk, List, OnOk, length};
ghost use Rattle.causes.specs.Prelude.{AreWaitCircles, IsWaitingCircle, waited_for, waits_for};

use crate::waits_at_end::Wait;
use std::alloc::{AllocError, Global};

/// The one processor that is waited for: a lock's holder, or who alone hasn't arrived at the barrier.
fn waited_for(wait: &Wait) -> Option<usize>
    ensures { result ≡ waited_for wait.now }
{
    match wait {
        Wait::Lock { holder, .. } => *holder,
        Wait::Barrier { absent } => match absent.as_slice() {
            [processor] => Some(*processor),
            _ => None,
        },
        _ => None,
    }
}

/// The one processor that this one waits for, by what each waits for: a lock's holder, or who alone hasn't arrived at the
/// barrier. None if it waits for nothing, for a flag, or for several.
pub fn waits_for(waits: &[Wait], processor: usize) -> Option<usize>
    ensures { result ≡ waits_for waits.now processor }
{
    match waits.get(processor) {
        Some(wait) => waited_for(wait),
        None => None,
    }
}

/// The processors that wait for each other in a circle of which this one is the least, each before the one that it waits for;
/// none if there is no such circle. The only error is running out of memory.
fn circle_of_waits(alloc: Global, waits: &[Wait], least: usize) -> Result<Vec<usize>, AllocError>
    ensures circle { IfOk result (λ v. v.items ≢ [] → IsWaitingCircle waits.now least v.items) }
    ensures only { IfOk result (λ v. (circle : List ℕ) → IsWaitingCircle waits.now least circle → v.items ≡ circle) }
{
    let mut circle = Vec::new(alloc);
    let mut at = least;
    for _ in 0..waits.len() {
        circle.push(at)?;
        match waits_for(waits, at) {
            Some(next) if next == least => return Ok(circle),
            Some(next) if next > least => at = next,
            _ => return Ok(Vec::new(alloc)),
        }
    }
    Ok(Vec::new(alloc))
}

/// Adds the circle of which this processor is the least, if there is one. The only error is running out of memory.
fn add_wait_circle(
    circles: &mut Vec<Vec<usize>>,
    alloc: Global,
    waits: &[Wait],
    least: usize,
) -> Result<(), AllocError>
    ensures { OnOk result (AreWaitCircles waits.now least circles.old.items → AreWaitCircles waits.now (least + 1) circles.new.items) }
{
    let circle = circle_of_waits(alloc, waits, least)?;
    if !circle.is_empty() {
        circles.push(circle)?;
    }
    Ok(())
}

/// The circles of processors that wait for each other, by what each waits for: each from its least processor on, by rising
/// ones, each processor before the one that it waits for. The only error is running out of memory.
pub fn wait_circles(alloc: Global, waits: &[Wait]) -> Result<Vec<Vec<usize>>, AllocError>
    ensures { IfOk result (λ v. AreWaitCircles waits.now (length waits.now) v.items) }
{
    let mut circles = Vec::new(alloc);
    for least in 0..waits.len() {
        add_wait_circle(&mut circles, alloc, waits, least)?;
    }
    Ok(circles)
}
