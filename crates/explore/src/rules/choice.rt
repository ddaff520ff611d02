//! Which of the next calls are followed by the rules of the memory alone.
ghost use Rattle.std.specs.Prelude.{◌≡◌, length};
ghost use Rattle.base.specs.Prelude.{most_processors};
ghost use Rattle.explore.specs.AllowedBeginnings.{IsAllowedBeginningChoice, allowed_beginning_call_commutes};

use crate::search::free_choice::free_choice_alone;
use base::MOST_PROCESSORS;
use journal::Kind;

/// Whether the event commutes with all that other processors may do. So does each access: what a load answers depends on its past alone,
/// and not on what others have done that its processor hasn't heard of.
fn commutes(kind: Kind) -> bool
    ensures { result ≡ allowed_beginning_call_commutes kind }
{
    match kind {
        Kind::Ask(_) | Kind::Set(_) | Kind::Await(_) => false,
        _ => true,
    }
}

/// Which of these calls are followed: the first that commutes with all that other processors may do, alone; if there is none, all.
pub fn calls_followed(calls: &[Option<Kind>; MOST_PROCESSORS]) -> [Option<Kind>; MOST_PROCESSORS]
    requires { length calls.now ≡ most_processors }
    ensures choice { IsAllowedBeginningChoice calls.now result }
    ensures long { length result ≡ most_processors }
{
    for processor in 0..MOST_PROCESSORS {
        if let Some(call) = calls[processor] {
            if commutes(call) {
                return free_choice_alone(processor, call);
            }
        }
    }
    *calls
}
