//! The sizes of a drawn script.
ghost use Rattle.std.specs.Prelude.{◌≡◌, IsTrue};
ghost use Rattle.lrc_script.specs.Prelude.{plan_of};
ghost use Rattle.lrc_tester.specs.Patterns.{HasGivenSizes, IsGivenSize, without_sizes};

use crate::pattern::Pattern;
use crate::words::below;
use lrc_script::script::Script;
use rand_pcg::Pcg32;

/// The sizes that a script is to have. What isn't given is drawn.
#[derive(Clone, Copy)]
pub struct GivenSizes {
    /// 1 to 16.
    pub processors: Option<u32>,
    /// 1 to 64.
    pub pages: Option<u32>,
    /// Of a page, 1 to 64.
    pub words: Option<u32>,
    /// 1 to 32.
    pub locks: Option<u32>,
    /// 1 to 32; a pattern without flags leaves it out.
    pub flags: Option<u32>,
    /// How many pieces a phase of a section has, an access or a critical section each: 1 to 400.
    pub length: Option<u32>,
}

/// Whether this is the size, if one is given.
fn is_given(given: Option<u32>, size: usize) -> bool
    ensures { IsTrue result → IsGivenSize given size }
{
    match given {
        Some(wanted) => size == wanted as usize,
        None => true,
    }
}

impl GivenSizes {
    /// Nothing is given.
    pub const NONE: GivenSizes = GivenSizes {
        processors: None,
        pages: None,
        words: None,
        locks: None,
        flags: None,
        length: None,
    };

    /// Whether nothing is given.
    pub(crate) fn is_none(self) -> bool
        ensures { self ≡ without_sizes → IsTrue result }
    {
        let pages = self.pages.is_none() && self.words.is_none();
        let others = self.locks.is_none() && self.flags.is_none() && self.length.is_none();
        self.processors.is_none() && pages && others
    }

    /// Whether the script has the sizes that are given; flags only if its pattern has some.
    pub(crate) fn are_had(self, pattern: Pattern, script: &Script) -> bool
        ensures { IsTrue result → HasGivenSizes pattern self (plan_of script.now) }
    {
        let is_memory = is_given(self.pages, script.pages) && is_given(self.words, script.words);
        let has_flags = !pattern.has_flags() || is_given(self.flags, script.flags);
        let has_locks = is_given(self.locks, script.locks);
        is_given(self.processors, script.processors) && is_memory && has_locks && has_flags
    }
}

/// The sizes of a script that is drawn.
#[derive(Clone, Copy)]
pub(crate) struct Sizes {
    pub(crate) processors: u32,
    pub(crate) pages: u32,
    pub(crate) words: u32,
    pub(crate) locks: u32,
    pub(crate) flags: u32,
    /// How many pieces a phase has.
    pub(crate) length: u32,
    /// How many barriers a section has.
    pub(crate) barriers: u32,
}

impl Sizes {
    /// What is given, and draws for the rest: two to four processors (a chain has three or four), one or two pages of two to
    /// four words, one to three locks and flags, two to six pieces, up to two barriers.
    pub(crate) fn draw(rng: &mut Pcg32, pattern: Pattern, given: GivenSizes) -> Sizes {
        let least = if pattern == Pattern::Chains { 3 } else { 2 };
        let processors = least + below(rng, 5 - least);
        let pages = 1 + below(rng, 2);
        let words = 2 + below(rng, 3);
        let locks = 1 + below(rng, 3);
        let flags = 1 + below(rng, 3);
        let barriers = below(rng, 3);
        let length = 2 + below(rng, 5);
        Sizes {
            processors: given.processors.unwrap_or(processors),
            pages: given.pages.unwrap_or(pages),
            words: given.words.unwrap_or(words),
            locks: given.locks.unwrap_or(locks),
            flags: if pattern.has_flags() {
                given.flags.unwrap_or(flags)
            } else {
                0
            },
            length: given.length.unwrap_or(length),
            barriers,
        }
    }

    /// How many words there are.
    pub(crate) fn addresses(self) -> u32 {
        self.pages.saturating_mul(self.words)
    }
}
