//! Which words can be asked for: those that the script shows.
ghost use Rattle.std.specs.Prelude.{◌↔◌, IsTrue, MatchOption};
ghost use Rattle.base.specs.Prelude.{Has};
ghost use Rattle.lrc_explore.specs.Prelude.{AreShowingWords, IsShowingUnshown};

/// Whether the address is among these.
fn is_among_asked(shown: &[usize], address: usize) -> bool
    ensures { IsTrue result ↔ Has shown.now address }
{
    for other in shown {
        if *other == address {
            return true;
        }
    }
    false
}

/// The first address of these words that isn't among the shown ones.
pub fn unshown_asked_address(shown: &[usize], words: &[(usize, u32)]) -> Option<usize>
    ensures { MatchOption result (AreShowingWords shown.now words.now) (IsShowingUnshown shown.now words.now) }
{
    for (address, _) in words {
        if !is_among_asked(shown, *address) {
            return Some(*address);
        }
    }
    None
}
