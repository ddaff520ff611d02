//! Laws of prefixes, as contracts of functions that do nothing: the check proves each by its name.
ghost use Rattle.explore.specs.Prefixes.Prelude.{PrefixNeverRacesLaw, PrefixEmptyLaw, PrefixFrontLaw, PrefixNextLaw, PrefixDoneLaw};
ghost use Rattle.explore.specs.Prefixes.Prelude.{PrefixNeighboursLaw, PrefixRacingLaw};

/// A script of which no prefix on one flat memory races never races, so by the law of race-free scripts it doesn't
/// race on the real memory either.
pub fn prefix_never_races_law()
    ensures { PrefixNeverRacesLaw }
{}

/// Nothing begins each script, and what begins a prefix is one.
pub fn prefix_front_law()
    ensures empty { PrefixEmptyLaw }
    ensures front { PrefixFrontLaw }
{}

/// What may come next after a prefix: what its processor's section says, once it may, with the reply of the memory.
pub fn prefix_next_law()
    ensures { PrefixNextLaw }
{}

/// A prefix is whole exactly if each processor has made as many calls as its section says.
pub fn prefix_done_law()
    ensures { PrefixDoneLaw }
{}

/// A script of which no two processors may access one word next, one of them storing, doesn't race in any prefix. So
/// a search looks at what may come next in each state, and keeps no timestamps. The idea is that of adjacent conflicting
/// actions: Boehm and Adve, Foundations of the C++ concurrency memory model (PLDI 2008), on equal definitions of a race.
pub fn prefix_neighbours_law()
    ensures { PrefixNeighboursLaw }
{}

/// Two processors that may access one word next, one of them storing, race once they do so one after the other: the
/// converse of `prefix_neighbours_law`. A load that comes second answers the word that is there then.
pub fn prefix_racing_law()
    ensures { PrefixRacingLaw }
{}
