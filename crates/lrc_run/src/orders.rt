//! The order of a round.
ghost use Rattle.std.specs.Prelude.{◌≡◌, length};
ghost use Rattle.std.specs.List.Sorted.{IsPermutation};
ghost use Rattle.lrc_run.specs.Prelude.{round_ordered};

use rand_core::utils::NextWord;
use rand_pcg::Pcg32;

/// Draws an order: from the last place down to place 1 each item changes places with that at place `w` modulo
/// its own place and one, `w` being the generator's next word.
pub fn order(rng: &mut Pcg32, list: &mut [usize])
    ensures list { list.new ≡ (round_ordered rng.old list.old).0 }
    ensures state { rng.new ≡ (round_ordered rng.old list.old).1 }
    ensures permutation { IsPermutation list.old list.new }
{
    for i in (1..list.len()).rev() {
        let word = rng.next_word() as usize;
        list.swap(i, word % (i + 1));
    }
}
