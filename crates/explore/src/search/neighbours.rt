//! What may come next after a state, and whether two of these events conflict.
ghost use Rattle.std.specs.Prelude.{◌≡◌, ◌≢◌, ◌↔◌, ℕ, ◌<◌, IsTrue, MatchOption, None, Some, length, slice_index_or};
ghost use Rattle.base.specs.Prelude.{most_processors};
ghost use Rattle.journal.specs.declared.event.Kind.{Kind as AKind};
ghost use Rattle.journal.specs.Prelude.{Conflict, event};
ghost use Rattle.lrc_script.specs.Prelude.{Plan};
ghost use Rattle.explore.specs.Machines.{AreLawfulMachineSteps, IsMachineRunning};
ghost use Rattle.explore.specs.Nexts.{AreNexts, AreNextInConflict};

use crate::prefixes::ScriptCall;
use crate::state::flat_state::FlatState;
use base::MOST_PROCESSORS;
use journal::{Event, Kind};

/// Two events of two processors that conflict, and the place of a state after which either may come next.
#[derive(Clone, Copy)]
pub struct Neighbours {
    pub place: usize,
    pub first: Event,
    pub second: Event,
}

/// What each processor may do next.
pub fn neighbour_nexts_of(
    state: &FlatState,
    steps: &[Vec<ScriptCall>],
) -> [Option<Kind>; MOST_PROCESSORS]
    requires { IsMachineRunning state.now steps.now }
    ensures nexts { (s : Plan) → AreLawfulMachineSteps s steps.now → AreNexts s state.now result }
    ensures long { length result ≡ most_processors }
{
    let mut nexts = [None; MOST_PROCESSORS];
    for processor in 0..steps.len() {
        nexts[processor] = state.next(steps, processor);
    }
    nexts
}

/// Whether nobody may do anything.
pub fn are_neighbours_over(nexts: &[Option<Kind>]) -> bool
    ensures { IsTrue result ↔ ((p : ℕ) (k : AKind) → slice_index_or nexts.now p None ≢ Some k) }
{
    for processor in 0..nexts.len() {
        if let Some(_) = nexts[processor] {
            return false;
        }
    }
    true
}

/// Whether events of these kinds conflict: one address, and a store at least on one side.
fn neighbours_conflict(first: Kind, second: Kind) -> bool
    ensures { (p q : ℕ) → IsTrue result ↔ Conflict (event p first) (event q second) }
{
    match (first, second) {
        (Kind::Load(a, _), Kind::Store(b, _)) => a == b,
        (Kind::Store(a, _), Kind::Load(b, _) | Kind::Store(b, _)) => a == b,
        _ => false,
    }
}

/// Whether an event of this kind accesses a word. Only such events conflict.
fn accesses_a_word(kind: Kind) -> bool
    ensures { (p q : ℕ) (b : AKind) → Conflict (event p kind) (event q b) → IsTrue result }
{
    matches!(kind, Kind::Load(_, _) | Kind::Store(_, _))
}

/// The first other processor whose next event conflicts with this one.
fn neighbour_of(nexts: &[Option<Kind>], processor: usize, kind: Kind) -> Option<(usize, Kind)>
    requires { slice_index_or nexts.now processor None ≡ Some kind }
    ensures { MatchOption result ((q : ℕ) (b : AKind) → ¬ AreNextInConflict nexts.now processor q kind b)
        (λ r. AreNextInConflict nexts.now processor r.0 kind r.1) }
{
    if !accesses_a_word(kind) {
        return None;
    }
    for other in 0..nexts.len() {
        if let Some(next) = nexts[other] {
            if other != processor && neighbours_conflict(kind, next) {
                return Some((other, next));
            }
        }
    }
    None
}

/// The first two next events that conflict, by two processors.
pub fn neighbours_in(nexts: &[Option<Kind>]) -> Option<(Event, Event)>
    ensures { MatchOption result ((p q : ℕ) (a b : AKind) → ¬ AreNextInConflict nexts.now p q a b)
        (λ r. AreNextInConflict nexts.now r.0.processor r.1.processor r.0.kind r.1.kind) }
{
    for processor in 0..nexts.len() {
        if let Some(kind) = nexts[processor] {
            if let Some((other, next)) = neighbour_of(nexts, processor, kind) {
                let first = Event { processor, kind };
                return Some((
                    first,
                    Event {
                        processor: other,
                        kind: next,
                    },
                ));
            }
        }
    }
    None
}
