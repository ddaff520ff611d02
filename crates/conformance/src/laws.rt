//! Laws, as contracts of functions that do nothing: the check proves each by its name.
ghost use Rattle.conformance.specs.Prelude.{RecomputedLaw, OnlyRecomputedLaw, RaceFreeRecomputedLaw, SameEndsLaw, SameReportsLaw, SameTurnsLaw};
ghost use Rattle.conformance.specs.Prelude.{SameValuesLaw, TurnCallsLaw};

/// Take a history that is well formed and follows a script. Compute the replies of its loads, and the values that its adds
/// store, again on one flat memory. It is still well formed, follows the script, replays, and has the same races. For a lawful
/// script there is one such history only.
pub fn conformance_recomputed_law()
    ensures exists { RecomputedLaw }
    ensures only { OnlyRecomputedLaw }
{}

/// An explained history of a script that never races on one flat memory has no race, and replays.
pub fn conformance_race_free_law()
    ensures { RaceFreeRecomputedLaw }
{}

/// The same turns of a script make the same of two histories, except for values: the same events at the same places, with
/// the same fetches and counts. Two well formed histories that begin a lawful script, of which each load answers the word of
/// its processor's copy, are one if they are the same except for values. So two runs of a lawful script by turns in the same
/// orders have one history, and both come to their end or both get stuck. Two reports of such runs have one verdict, show the
/// same words and count the same traffic.
pub fn conformance_same_turns_law()
    ensures turns { SameTurnsLaw }
    ensures values { SameValuesLaw }
    ensures ends { SameEndsLaw }
    ensures reports { SameReportsLaw }
{}

/// The history that turns make, with a processor's open block behind it, has just what that has called.
pub fn conformance_turn_calls_law()
    ensures { TurnCallsLaw }
{}
