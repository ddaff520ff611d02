//! Which processor is tried first for the next turn, where turns are drawn.
ghost use Rattle.std.specs.Prelude.{◌≡◌, ◌<◌, IfOk, OnOk, ℕ, vec_len};
ghost use Rattle.conformance.specs.Prelude.{drawing_of, draws_walk, next_drawing};
ghost use Rattle.lrc_run.specs.Prelude.{AreDrawnOrderProcessors, pace_drawing};

use super::{new_list, rise};
use crate::orders::order;
use rand_core::SeedableRng;
use rand_core::utils::NextWord;
use rand_pcg::Pcg32;
use std::alloc::{AllocError, Global};

/// After how many of a script's turns, on average, whoever had one comes last.
const CHANGES: usize = 3;

/// The order in which processors are tried for the next turn: the first that gets on has it.
///
/// By an even seed the order is drawn anew after each turn: a random walk. By an odd one it is a list of priorities, drawn
/// once. After a few turns, drawn too, whoever had the turn comes last from then on. This is of Burckhardt, Kothari, Musuvathi
/// and Nagarakatte, A randomized scheduler with probabilistic guarantees of finding bugs, ASPLOS 2010, section 2; there the
/// number of these turns is given.
#[derive(Drop)]
pub(crate) struct Pace {
    pub(crate) generator: Pcg32,
    pub(crate) order: Vec<usize>,
    pub(crate) walks: bool,
    pub(crate) turns: usize,
}

impl Pace {
    /// The order of the first turn, of so many processors and about so many turns.
    pub(crate) fn new(
        alloc: Global,
        processors: usize,
        turns: usize,
        seed: u64,
    ) -> Result<Pace, AllocError>
        ensures order { IfOk result (λ pace. pace.order.items ≡ (drawing_of seed processors).order) }
        ensures generator { IfOk result (λ pace. pace.generator ≡ (drawing_of seed processors).generator) }
        ensures below { IfOk result (λ pace. AreDrawnOrderProcessors processors pace.order.items) }
        ensures walks { IfOk result (λ pace. pace.walks ≡ draws_walk seed) }
        ensures turns { IfOk result (λ pace. pace.turns ≡ turns) }
    {
        let mut list = new_list(alloc, processors)?;
        let mut generator = Pcg32::seed_from_u64(seed);
        rise(&mut list);
        order(&mut generator, &mut list);
        Ok(Pace {
            generator,
            order: list,
            walks: seed % 2 == 0,
            turns,
        })
    }

    /// Goes on to the order of the next turn, after the turn of the processor at this place.
    pub(crate) fn go_on(&mut self, place: usize) -> Result<(), AllocError>
        requires place { place < vec_len self.old.order }
        requires turns { 0 < self.old.turns }
        ensures order { OnOk result (self.new.order.items
            ≡ (next_drawing self.old.walks self.old.turns place (pace_drawing self.old)).order) }
        ensures generator { OnOk result (self.new.generator
            ≡ (next_drawing self.old.walks self.old.turns place (pace_drawing self.old)).generator) }
        ensures below { OnOk result ((n : ℕ) → AreDrawnOrderProcessors n self.old.order.items → AreDrawnOrderProcessors n self.new.order.items) }
        ensures fixed { (self.new.turns ≡ self.old.turns) × (self.new.walks ≡ self.old.walks) }
    {
        if self.walks {
            order(&mut self.generator, &mut self.order);
            return Ok(());
        }
        let word = self.generator.next_word() as usize;
        if word % self.turns < CHANGES {
            let processor = self.order.remove(place);
            self.order.push(processor).map_err(AllocError::from)?;
        }
        Ok(())
    }
}
