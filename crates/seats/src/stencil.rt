//! Two grids whose words are made one by one.
ghost use Rattle.std.specs.Prelude.{◌≡◌, ◌+◌, ◌/◌, ◌<◌, ◌^◌, [], Err, IfOk, OnErr, OnOk, Some, true, false, slice_index};
ghost use Rattle.book.specs.declared.refused.Refused.{Refused as ARefusal};
ghost use Rattle.seats.specs.Prelude.{AccessesPage, IsStencilBlockMade, HasStencilLoads, StencilSteps, grid_pair_read, kept_layout_lets_access};
ghost use Rattle.seats.specs.Prelude.{processor_refusal_at_once, stencil_word};
ghost use Rattle.seats.specs.declared.fault.SeatFault.TheVariants as fault;

use crate::fault::SeatFault;
use crate::grids::Grids;
use crate::seat::Seat;
use crate::sitting::Sitting;

/// What becomes of the cells of two grids, of which each round makes one from the other.
pub trait Stencil {
    /// The grids' cells, a cell's word at the start, and its word after a step, by the words before it.
    ghost steps: { StencilSteps };

    /// The cell's word at the start.
    fn first(&self, cell: usize) -> u32
        requires { cell < steps.cells }
        ensures { result ≡ steps.first cell };

    /// The cell's word after a step, by what it loads of the grid that this round reads ([`Grids::load`]).
    fn next<S: Sitting>(
        &self,
        seat: &mut Seat<'_, S>,
        round: usize,
        cell: usize,
    ) -> Result<u32, SeatFault>
        requires { cell < steps.cells }
        ensures { IfOk result (λ word. HasStencilLoads steps.cells round (λ words. steps.next words cell) seat.old seat.new word) };
}

impl Grids {
    /// The cell's word in the grid that this round reads. It faults as [`Seat::load`] of its address does, and leaves what that
    /// leaves.
    pub fn load<S: Sitting>(
        self,
        seat: &mut Seat<'_, S>,
        round: usize,
        cell: usize,
    ) -> Result<u32, SeatFault>
        requires within { cell < self.cells }
        requires fits { self.cells + self.cells < 2 ^ 64 }
        ensures ok { IfOk result (λ word. HasStencilLoads self.cells round (λ words. slice_index words cell) seat.old seat.new word) }
        ensures err { OnErr result (AccessesPage seat.old seat.new
            ((grid_pair_read self.cells round + cell) / seat.old.sizes.words) []) }
        ensures barred { kept_layout_lets_access S.at seat.old (grid_pair_read self.cells round + cell) false ≡ false
            → (result ≡ Err (fault.NotAllowed (grid_pair_read self.cells round + cell))) × (seat.new ≡ seat.old) }
        ensures outside { (e : ARefusal) → kept_layout_lets_access S.at seat.old (grid_pair_read self.cells round + cell) false ≡ true
            → processor_refusal_at_once seat.old (grid_pair_read self.cells round + cell) ≡ Some e
            → (result ≡ Err (fault.Refused e)) × (seat.new ≡ seat.old) }
    {
        let word = seat.load(self.read(round) + cell)?;
        Ok(word)
    }

    /// Makes the processor's block of the grid that this round makes: in round 0 from the start, and then from the grid that
    /// the round before has made. It faults as the stencil and [`Seat::store`] do, and then has made a beginning of it.
    pub fn make<S: Sitting, T: Stencil>(
        self,
        seat: &mut Seat<'_, S>,
        round: usize,
        stencil: &T,
    ) -> Result<(), SeatFault>
        requires cells { self.cells ≡ T.steps.cells }
        requires share { self.share ≡ T.steps.share }
        requires fits { self.cells + self.cells < 2 ^ 64 }
        ensures { OnOk result (IsStencilBlockMade T.steps round S.at.number seat.old seat.new) }
    {
        let (made, number) = (self.made(round), seat.number());
        for cell in self.block_start(number)..self.block_end(number) {
            let word = made_stencil_word(seat, round, cell, stencil)?;
            seat.store(made + cell, word)?;
        }
        Ok(())
    }
}

/// The word that this round makes of the cell.
fn made_stencil_word<S: Sitting, T: Stencil>(
    seat: &mut Seat<'_, S>,
    round: usize,
    cell: usize,
    stencil: &T,
) -> Result<u32, SeatFault>
    requires { cell < T.steps.cells }
    ensures { IfOk result (λ word. HasStencilLoads T.steps.cells round (λ words. stencil_word T.steps round words cell)
        seat.old seat.new word) }
{
    if round == 0 {
        Ok(stencil.first(cell))
    } else {
        stencil.next(seat, round, cell)
    }
}
