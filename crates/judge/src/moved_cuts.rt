//! Cuts of kept stores, moved together where others were let go of.
ghost use Rattle.std.specs.Prelude.{◌<◌, IfOk, OnOk};
ghost use Rattle.judge.specs.Prelude.{AreMovedCuts, AreMovedRows, AreMovedStores, IsMovedCut, KeepsCuts};

use crate::cut_rows::CutRows;
use crate::kept_store::KeptStore;
use std::alloc::{AllocError, Global};

/// The cuts that were moved so far, and where each old one went.
#[derive(Drop)]
pub(crate) struct MovedCuts {
    /// Of each old cut, one more than where it stands now; 0 where it wasn't moved yet.
    places: Vec<usize>,
    pub(crate) cuts: CutRows,
}

impl MovedCuts {
    /// None of so many cuts. The only error is running out of memory.
    pub(crate) fn new(alloc: Global, old: &CutRows) -> Result<MovedCuts, AllocError>
        requires { 0 < old.now.width }
        ensures { IfOk result (AreMovedCuts old.now) }
    {
        Ok(MovedCuts {
            places: vec![in alloc; 0; old.len()]?,
            cuts: CutRows::new(alloc, old.width),
        })
    }

    /// Where this cut of the old ones stands now. It is moved where it wasn't yet; one that is none of them stays. The only error
    /// is running out of memory.
    fn place_of(&mut self, old: &CutRows, cut: usize) -> Result<usize, AllocError>
        requires { AreMovedCuts old.now self.old }
        ensures more { KeepsCuts self.old.cuts self.new.cuts }
        ensures moved { IfOk result (λ place. AreMovedCuts old.now self.new
            × (cut < old.now.count → IsMovedCut old.now self.new.cuts cut place)) }
    {
        if cut >= old.len() {
            return Ok(cut);
        }
        let place = self.places[cut];
        if place > 0 {
            return Ok(place - 1);
        }
        let place = self.cuts.len();
        self.cuts.push(old.row(cut))?;
        self.places[cut] = place + 1;
        Ok(place)
    }

    /// Moves the cuts of these stores. The only error is running out of memory.
    fn move_stores(&mut self, old: &CutRows, stores: &mut [KeptStore]) -> Result<(), AllocError>
        requires { AreMovedCuts old.now self.old }
        ensures more { KeepsCuts self.old.cuts self.new.cuts }
        ensures moved { OnOk result (AreMovedCuts old.now self.new) }
        ensures stores { OnOk result (AreMovedStores old.now self.new.cuts stores.old stores.new) }
    {
        for index in 0..stores.len() {
            let KeptStore { place, value, cut } = stores[index];
            let cut = self.place_of(old, cut)?;
            stores[index] = KeptStore { place, value, cut };
        }
        Ok(())
    }

    /// Moves the cuts of the stores of all rows. The only error is running out of memory.
    pub(crate) fn move_rows(
        &mut self,
        old: &CutRows,
        rows: &mut [Vec<KeptStore>],
    ) -> Result<(), AllocError>
        requires { AreMovedCuts old.now self.old }
        ensures moved { OnOk result (AreMovedCuts old.now self.new) }
        ensures rows { OnOk result (AreMovedRows old.now self.new.cuts rows.old rows.new) }
    {
        for index in 0..rows.len() {
            self.move_stores(old, &mut rows[index])?;
        }
        Ok(())
    }
}
