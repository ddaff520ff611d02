//! Two grids, of which each round makes one from the other.
ghost use Rattle.std.specs.Prelude.{◌≡◌, ◌+◌, ◌^◌, ◌<◌, IfOk};
ghost use Rattle.seats.specs.Prelude.{IsGridPairLayout, IsGridPairRoundPut, TablesOpenNothing, grid_pair_block_end, grid_pair_block_start, grid_pair_made, grid_pair_read};

use crate::guard::Guard;
use crate::layout::Layout;
use std::alloc::{AllocError, Global};

/// Two grids of words, one behind the other. In even rounds, from 0 on, the first is made from the second, and in odd ones the
/// second from the first; each processor makes a block of its own. A round is a phase: all meet at the barrier behind it.
#[derive(Clone, Copy, Debug)]
pub struct Grids {
    /// Words of a grid.
    pub cells: usize,
    /// Words of a processor's block. The last block that has some may have fewer.
    pub share: usize,
}

impl Grids {
    /// The address at which the grid begins that this round makes.
    pub fn made(self, round: usize) -> usize
        ensures { result ≡ grid_pair_made self.cells round }
    {
        if round % 2 == 0 { 0 } else { self.cells }
    }

    /// The address at which the grid begins that this round reads.
    pub fn read(self, round: usize) -> usize
        ensures { result ≡ grid_pair_read self.cells round }
    {
        if round % 2 == 0 { self.cells } else { 0 }
    }

    /// The first cell of a processor's block.
    pub fn block_start(self, number: usize) -> usize
        ensures { result ≡ grid_pair_block_start self.cells self.share number }
    {
        number.saturating_mul(self.share).min(self.cells)
    }

    /// The cell behind a processor's block.
    pub fn block_end(self, number: usize) -> usize
        ensures { result ≡ grid_pair_block_end self.cells self.share number }
    {
        let start = self.block_start(number);
        start.saturating_add(self.share).min(self.cells)
    }

    /// The layout by which each processor may store to its block of the grid that a round makes, and all may load the other
    /// grid. What is in no block is processor 0's. No word is open to all. The only error is running out of memory.
    pub fn layout(self, alloc: Global, processors: usize) -> Result<Layout, AllocError>
        ensures closed { IfOk result TablesOpenNothing }
        ensures owns { IfOk result (IsGridPairLayout self.cells self.share processors) }
    {
        let words = self.cells.checked_mul(2).ok_or(AllocError)?;
        let mut layout = Layout::new(alloc, words, 0, 2)?;
        self.put_round(&mut layout, 0, processors);
        self.put_round(&mut layout, 1, processors);
        Ok(layout)
    }

    /// The guards of a round, in its table.
    fn put_round(self, layout: &mut Layout, round: usize, processors: usize)
        requires { self.cells + self.cells < 2 ^ 64 }
        ensures closed { TablesOpenNothing layout.old → TablesOpenNothing layout.new }
        ensures put { IsGridPairRoundPut self.cells self.share round processors layout.old layout.new }
    {
        let (read, made) = (self.read(round), self.made(round));
        layout.put(round, read, read.saturating_add(self.cells), Guard::Shared);
        for number in 0..processors {
            let start = made.saturating_add(self.block_start(number));
            let end = made.saturating_add(self.block_end(number));
            layout.put(round, start, end, Guard::Of(number));
        }
    }
}
