//! What the stores of an interval come to in one page.
ghost use Rattle.std.specs.Prelude.{◌≡◌};
ghost use Rattle.page.specs.Prelude.{ArePageChangesRising};

use std::marker::Model;

/// The record of a closed interval for one page: the words that the interval's stores left there,
/// in rising order of offset, one value a word. It stands in the place of a diff (Keleher, Cox and
/// Zwaenepoel 1992, section 3), and is made from dirty bits, with no twin to compare with.
#[derive(Debug, Drop)]
pub struct Record {
    page: usize,
    words: Vec<(usize, u32)>,
}

impl Model for Record {
    ghost use Rattle.page.specs.PageChanges.{PageChanges, ArePageChangesRising};

    ghost Value = { PageChanges };

    ghost view = { λ r. record { page = r.page; words = r.words.items } };

    ghost invariant = { λ r. ArePageChangesRising r.words.items };
}

impl Record {
    /// The record of page `page` with these words, as offsets and values.
    pub fn new(page: usize, words: Vec<(usize, u32)>) -> Self
        requires { ArePageChangesRising words.items }
        ensures page { result.page ≡ page }
        ensures words { result.words ≡ words.items }
    {
        Record { page, words }
    }

    /// The page that the words lie in.
    pub fn page(&self) -> usize
        ensures { result ≡ self.now.page }
    {
        self.page
    }

    /// The words, as offsets in the page and values.
    pub fn words(&self) -> &[(usize, u32)]
        ensures words { result.now ≡ self.now.words }
        ensures rising { ArePageChangesRising self.now.words }
    {
        &self.words
    }
}
