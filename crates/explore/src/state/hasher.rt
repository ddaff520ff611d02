//! How states are hashed: each state that is found is looked up, and so are its parts.
ghost use Rattle.explore.specs.StateHashes.{state_hash_word};
ghost use Rattle.std.specs.Prelude.{◌≡◌};

use indexmap::IndexSet;
use std::hash::{BuildHasherDefault, Hasher};

/// An odd number in which no pattern of bits repeats: 2^64 by the golden ratio.
const MULTIPLIER: u64 = 0x9e37_79b9_7f4a_7c15;

/// A hasher that multiplies once for each number that it is fed. Its multiplier is fixed, so whoever picks the states can make
/// them collide; that costs time alone.
#[derive(Clone, Copy, Default)]
pub struct StateHasher {
    state: u64,
}

/// A set of states, or of parts of states.
pub type StateSet<T> = IndexSet<T, BuildHasherDefault<StateHasher>>;

/// The number that these bytes are, the lowest one first; of a number's own bytes that is the number.
#[inline(always)]
fn state_hash_word(bytes: &[u8]) -> u64
    ensures { result ≡ state_hash_word bytes.now }
{
    let mut word = 0_u64;
    let mut rest = bytes.len();
    while rest > 0 {
        rest -= 1;
        word = word.wrapping_mul(256).wrapping_add(bytes[rest] as u64);
    }
    word
}

impl Hasher for StateHasher {
    ghost use Rattle.explore.specs.StateHashes.{state_hash_finish, state_hash_write};

    ghost write = { state_hash_write };

    ghost finish = { state_hash_finish };

    #[inline(always)]
    fn finish(&self) -> u64 {
        self.state.wrapping_mul(MULTIPLIER)
    }

    #[inline(always)]
    fn write(&mut self, bytes: &[u8]) {
        self.state = self
            .state
            .wrapping_mul(MULTIPLIER)
            .wrapping_add(state_hash_word(bytes));
    }
}
