//! Laws of what a load may answer, as contracts of functions that do nothing: the check proves each by its name.
ghost use Rattle.judge.specs.Sources.Prelude.{LatestAnswersLaw, LatestAnswersStayLaw};

/// A load may answer the value of each of its latest stores, 0 where it has none, and nothing else.
pub fn answers_law()
    ensures { LatestAnswersLaw }
{}

/// What a load may answer stays as the history goes on: what `KeptStores::may_answer` says of it before it comes, it
/// says of each history that begins so.
pub fn answer_stays_law()
    ensures { LatestAnswersStayLaw }
{}
