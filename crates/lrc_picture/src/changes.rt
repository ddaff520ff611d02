//! What each event of a run changes: timestamps, copies and their words, locks, flags, and who waits for what.
ghost use Rattle.std.specs.Prelude.{◌≡◌, ◌<◌, ◌≤◌, ◌↔◌, IfOk, IsTrue};
ghost use Rattle.base.specs.Prelude.{most_processors};
ghost use Rattle.judge.specs.Prelude.{judged_sizes_of};
ghost use Rattle.lrc_picture.specs.Prelude.{AreChangesWithoutCopies, AreRunChanges};

use crate::run_front::run_front_changes_of;
use crate::times::picture_times;
use base::MOST_PROCESSORS;
use causes::{Due, WrittenWord, dues, written_words};
use journal::{Awaited, Clock};
use judge::{History, Sizes};
use std::alloc::{AllocError, Global};

/// Whether what a processor waits for is on its way.
#[derive(Clone, Copy, PartialEq, Eq)]
pub enum Standing {
    /// It waits for nothing.
    Runs,
    /// It waits for this, and it hasn't been sent yet.
    Waits(Awaited),
    /// This message waits to be taken.
    Sent(Awaited),
}

/// What an event changes besides its processor's timestamp and copies.
#[derive(Drop)]
pub enum StateChange {
    /// The word isn't dirty any more.
    Clean {
        processor: usize,
        address: usize,
    },
    /// The processor's copy of the page, of which nothing was known, is valid.
    Valid {
        processor: usize,
        page: usize,
    },
    /// Who holds the lock, and who asked for it, in order.
    Lock {
        lock: usize,
        holder: Option<usize>,
        /// Whether it is known that nobody else holds it.
        is_known: bool,
        queue: Vec<usize>,
    },
    /// The flag is set.
    Flag {
        flag: usize,
    },
    /// For what the processor waits.
    Stands {
        processor: usize,
        standing: Standing,
    },
}

/// What each event of a run changes.
#[derive(Drop)]
pub struct RunChanges {
    /// Its processor's vector timestamp after it; empty if timestamps and copies aren't told.
    pub times: Vec<Clock>,
    /// The words that it writes in its processor's copies; empty if these aren't told.
    pub written: Vec<Vec<WrittenWord>>,
    /// The records that it tells of; empty if copies aren't told. By one that takes, its processor's copies of their pages go
    /// stale.
    pub dues: Vec<Vec<Due>>,
    /// What it changes besides.
    pub others: Vec<Vec<StateChange>>,
}

/// Whether timestamps and copies are told of a run of these sizes: if it has at most 16 processors.
pub(crate) fn do_changes_tell_copies(sizes: Sizes) -> bool
    ensures { IsTrue result ↔ (sizes.processors ≤ most_processors) }
{
    sizes.processors <= MOST_PROCESSORS
}

/// The sizes of what is told of a run of these sizes: without pages if its copies aren't told.
pub(crate) fn sizes_in_changes(sizes: Sizes) -> Sizes {
    if do_changes_tell_copies(sizes) {
        sizes
    } else {
        Sizes { pages: 0, ..sizes }
    }
}

/// What each event of the history changes besides timestamps and copies.
fn changes_without_copies(alloc: Global, history: &History<'_>) -> Result<RunChanges, AllocError>
    ensures { IfOk result AreChangesWithoutCopies }
{
    let dues = Vec::new(alloc);
    let others = run_front_changes_of(alloc, history, &dues)?;
    Ok(RunChanges {
        times: Vec::new(alloc),
        written: Vec::new(alloc),
        dues,
        others,
    })
}

/// What each event of the history changes; of more than 16 processors no timestamps and copies are told. Where something was cut
/// off, they begin with an arrival of each processor, which stands for it; then it isn't known at first which copies are valid,
/// and who holds which lock. The only error is running out of memory.
///
/// It takes time and memory as `causes::written_words` and `causes::dues` do.
pub fn changes(alloc: Global, history: &History<'_>) -> Result<RunChanges, AllocError>
    ensures few { IfOk result (λ x. history.now.sizes.processors ≤ most_processors
        → AreRunChanges (judged_sizes_of history.now.sizes) history.now.events x) }
    ensures many { IfOk result (λ x. most_processors < history.now.sizes.processors → AreChangesWithoutCopies x) }
{
    if !do_changes_tell_copies(history.sizes()) {
        return changes_without_copies(alloc, history);
    }
    let times = picture_times(alloc, history)?;
    let written = written_words(alloc, history)?;
    let dues = dues(alloc, history)?;
    let others = run_front_changes_of(alloc, history, &dues)?;
    Ok(RunChanges {
        times,
        written,
        dues,
        others,
    })
}
