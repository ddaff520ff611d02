//! Places of which it may still be asked what a processor had stored in a page before them.
ghost use Rattle.std.specs.Prelude.{◌≡◌, ◌&&◌, ◌∷◌, [], ◌++◌, OnOk, min, nat_le};
ghost use Rattle.std.specs.List.{list_any};
ghost use Rattle.judge.specs.Prelude.{is_asked_between};

use std::alloc::{AllocError, Global};

/// Of a page and a processor, the places of which it may still be asked what the processor had stored in the page before them. A
/// fetch by another processor asks of two. One is the entry that it has in its cut then, which may be any from the one that it
/// has now on, since entries only rise. The other is the one that it had at its last fetch of the page.
///
/// It takes 4 bytes for each other processor.
#[derive(Drop)]
pub(crate) struct AskedPlaces {
    /// All places from this one on: the least of the others' entries.
    pub(crate) all_from: usize,
    /// The others' entries at their last fetches of the page, 0 where there was none.
    pub(crate) fetched: Vec<u32>,
}

/// Whether one of these places is from `from` on and at most `to`.
fn has_place_between(places: &[u32], from: usize, to: usize) -> bool
    ensures { result ≡ list_any (λ v. nat_le from v && nat_le v to) places.now }
{
    places
        .iter()
        .any(|place| from <= *place as usize && *place as usize <= to)
}

impl AskedPlaces {
    /// As long as no other processor is added, none before the place.
    pub(crate) fn from_place(alloc: Global, place: usize) -> AskedPlaces
        ensures all_from { result.all_from ≡ place }
        ensures fetched { result.fetched.items ≡ [] }
    {
        AskedPlaces {
            all_from: place,
            fetched: Vec::new(alloc),
        }
    }

    /// Adds another processor's entries: the one that it has now, and the one that it had at its last fetch of the page. The only
    /// error is running out of memory.
    pub(crate) fn add(&mut self, known: u32, fetched: u32) -> Result<(), AllocError>
        ensures all_from { self.new.all_from ≡ min self.old.all_from known }
        ensures fetched { OnOk result (self.new.fetched.items ≡ self.old.fetched.items ++ fetched ∷ []) }
    {
        self.all_from = self.all_from.min(known as usize);
        self.fetched.push(fetched)?;
        Ok(())
    }

    /// Whether one of them is from `from` on and at most `to`. It looks at each: at most one a processor.
    pub(crate) fn has_between(&self, from: usize, to: usize) -> bool
        ensures { result ≡ is_asked_between self.now from to }
    {
        self.all_from <= to || has_place_between(&self.fetched, from, to)
    }
}
