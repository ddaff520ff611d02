//! What a processor waits for.
ghost use Rattle.std.specs.Prelude.{◌≡◌, ◌↔◌, IsTrue, is_some};
ghost use Rattle.journal.specs.Prelude.{awaited_next};
ghost use Rattle.judge.specs.Prelude.{lax_ask_of};

use journal::Kind;

/// What comes next after an event of this kind, where its processor waits then.
pub(crate) fn kind_awaited_after(kind: Kind) -> Option<Kind>
    ensures { result ≡ awaited_next kind }
{
    match kind {
        Kind::Ask(lock) => Some(Kind::Acquire(lock)),
        Kind::Arrive => Some(Kind::Depart),
        Kind::Watch(flag) => Some(Kind::Await(flag)),
        _ => None,
    }
}

/// Whether, lax, an event of this kind stands for its ask or watch, too, if its processor has not asked or watched for it.
pub(crate) fn is_lax_without_ask(kind: Kind) -> bool
    ensures { result ≡ is_some (lax_ask_of kind) }
{
    matches!(kind, Kind::Acquire(_) | Kind::Await(_))
}

/// Whether the two kinds are the same.
pub(crate) fn is_same_kind(a: Kind, b: Kind) -> bool
    ensures { IsTrue result ↔ (a ≡ b) }
{
    a == b
}
