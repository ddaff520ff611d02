//! Cuts that stores have before them.
ghost use Rattle.std.specs.Prelude.{◌≡◌, ℕ, ◌<◌, ◌≤◌, IfOk, IsTrue, List, Some, length, slice_index, slice_set, vec_len};
ghost use Rattle.journal.specs.declared.event.Event.{Event};
ghost use Rattle.judge.specs.JudgedSizes.{most_judged_processors};

use crate::cut_rows::CutRows;
use std::alloc::{AllocError, Global};

/// Fewer cuts than this are all kept.
const FEW: usize = 4096;

/// Cuts of processors, each once for all stores that it stands before, without its processor's own entry: one that changes before
/// a store isn't kept.
#[derive(Drop)]
pub(crate) struct KnownCuts {
    pub(crate) cuts: CutRows,
    /// Of each processor, where its cut was kept last, if it was.
    recent: Vec<Option<usize>>,
    ghost long: { vec_len recent ≡ cuts.width },
}

/// Whether the kept cut is the other one without the processor's entry.
fn is_cut_without(kept: &[u32], cut: &[u32], processor: usize) -> bool
    requires { length kept.now ≡ length cut.now }
    ensures { IsTrue result → (q : ℕ) → slice_index kept.now q ≡ slice_index (slice_set cut.now processor 0) q }
{
    for q in 0..cut.len() {
        let known = if q == processor { 0 } else { cut[q] };
        if kept[q] != known {
            return false;
        }
    }
    true
}

impl KnownCuts {
    ghost use Rattle.judge.specs.Prelude.{IsCutOf, KeepsCuts, cut_entry};

    /// None at all, of so many processors. The only error is running out of memory.
    pub(crate) fn new(alloc: Global, processors: usize) -> Result<KnownCuts, AllocError>
        requires { processors ≤ most_judged_processors }
        ensures { IfOk result (λ known. known.cuts.width ≡ processors) }
    {
        Ok(KnownCuts {
            cuts: CutRows::new(alloc, processors),
            recent: vec![in alloc; None; processors]?,
        })
    }

    /// Where these entries stand, but for the processor's own, if they are those of its cut that was kept last.
    fn recent_place(&self, processor: usize, cut: &[u32]) -> Option<usize>
        requires processor { processor < self.now.cuts.width }
        requires cut { length cut.now ≡ self.now.cuts.width }
        ensures { (n : ℕ) → result ≡ Some n → (n < self.now.cuts.count)
            × ((q : ℕ) → cut_entry self.now.cuts n q ≡ slice_index (slice_set cut.now processor 0) q) }
    {
        let place = self.recent[processor]?;
        if place < self.cuts.len() && is_cut_without(self.cuts.row(place), cut, processor) {
            Some(place)
        } else {
            None
        }
    }

    /// Where the processor's cut stands, which is this. It is kept where it wasn't yet. The only error is running out of
    /// memory.
    pub(crate) fn place_of(&mut self, processor: usize, cut: &[u32]) -> Result<usize, AllocError>
        requires processor { processor < self.old.cuts.width }
        requires cut { length cut.now ≡ self.old.cuts.width }
        ensures width { self.new.cuts.width ≡ self.old.cuts.width }
        ensures kept { KeepsCuts self.old.cuts self.new.cuts }
        ensures placed { IfOk result (λ n. (n < self.new.cuts.count)
            × ((j : List Event) → IsCutOf j processor (slice_index cut.now)
            → IsCutOf j processor (cut_entry self.new.cuts n))) }
    {
        if let Some(place) = self.recent_place(processor, cut) {
            return Ok(place);
        }
        let place = self.cuts.len();
        self.cuts.push(cut)?;
        self.cuts.mark(place, processor, 0);
        self.recent[processor] = Some(place);
        Ok(place)
    }

    /// Whether there are so many cuts, and no room for one more.
    pub(crate) fn is_full_with(&self, count: usize) -> bool {
        self.cuts.is_full() && self.cuts.len() >= count.max(FEW)
    }

    /// These cuts, and room for as many again. The only error is running out of memory.
    pub(crate) fn of_moved(cuts: CutRows) -> Result<KnownCuts, AllocError>
        ensures width { IfOk result (λ known. known.cuts.width ≡ cuts.width) }
        ensures kept { IfOk result (λ known. KeepsCuts cuts known.cuts) }
    {
        let mut cuts = cuts;
        cuts.reserve(cuts.len().max(FEW))?;
        let recent = vec![in cuts.allocator(); None; cuts.width]?;
        Ok(KnownCuts { cuts, recent })
    }
}
