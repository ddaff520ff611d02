//! What kinds of events do.
ghost use Rattle.std.specs.Prelude.{◌≡◌, is_some};
ghost use Rattle.journal.specs.Prelude.{event_address, event_closes, event_arrives};

use crate::event::Kind;

/// Whether an event of this kind closes its processor's interval.
pub(crate) fn event_kind_closes(kind: Kind) -> bool
    ensures { result ≡ event_closes kind }
{
    match kind {
        Kind::Ask(_) | Kind::Release(_) | Kind::Arrive | Kind::Set(_) | Kind::Watch(_) => true,
        _ => false,
    }
}

/// Whether an event of this kind loads or stores.
pub(crate) fn event_kind_is_access(kind: Kind) -> bool
    ensures { result ≡ is_some (event_address kind) }
{
    match kind {
        Kind::Load(..) | Kind::Store(..) => true,
        _ => false,
    }
}

/// Whether this is an arrival.
pub(crate) fn event_kind_arrives(kind: Kind) -> bool
    ensures { result ≡ event_arrives kind }
{
    match kind {
        Kind::Arrive => true,
        _ => false,
    }
}
