//! Laws of what may come next, as contracts of functions that do nothing: the check proves each by its name.
ghost use Rattle.judge.specs.Prelude.{LaxAskLaw, LaxLaw, ModelAnswersStayLaw, HistoryRangeLaw, ModelsAgreeLaw, WhyLaw};

/// A well formed history is well formed whatever the order in which a lock's asks are granted.
pub fn lax_law()
    ensures { LaxLaw }
{}

/// Lax, an acquire or an await without its ask or watch is judged as with that right before it.
pub fn lax_ask_law()
    ensures { LaxAskLaw }
{}

/// An event of which a reason is true may not come next.
pub fn why_law()
    ensures { WhyLaw }
{}

/// The processors and addresses of a well formed history, lax or not, are those of the cluster: so it may be given to
/// what asks for that alone.
pub fn history_range_law()
    ensures { HistoryRangeLaw }
{}

/// What a load may answer under a model stays as the history goes on: so the first lie of a history is known as soon as it
/// was read.
pub fn owed_stays_law()
    ensures { ModelAnswersStayLaw }
{}

/// Up to the first race of a history the models are one: a load whose past and itself have no race may answer under each what it
/// may under any other.
pub fn models_agree_law()
    ensures { ModelsAgreeLaw }
{}
