//! Tables of what happens before what: small, plain and slow.
ghost use Rattle.std.specs.Prelude.{◌||◌, ◌==◌, List, false, slice_index_or, ◌≡◌, ◌↔◌, ℕ, ◌+◌, ◌<◌, ◌≤◌, IsTrue};
ghost use Rattle.std.specs.Prelude.{IfOk, Some, true, length, take, slice_get, vec_len, ◌≢◌};
ghost use Rattle.journal.specs.Prelude.{event_arrives, event_departs, event_count, LetsThrough, Edge, HappensBefore, Conflict};
ghost use Rattle.journal.specs.Prelude.{Race};
ghost use Rattle.test_memory.specs.Reaching.Prelude.{IsRow, AreRows, IsTable};

use journal::{Event, Kind};
use std::alloc::{AllocError, Global};

/// Whether this is an arrival.
fn arrives(kind: Kind) -> bool
    ensures { result ≡ event_arrives kind }
{
    match kind {
        Kind::Arrive => true,
        _ => false,
    }
}

/// Whether this is a departure.
fn departs(kind: Kind) -> bool
    ensures { result ≡ event_departs kind }
{
    match kind {
        Kind::Depart => true,
        _ => false,
    }
}

/// Whether the events are by two processors and conflict: one address, and a store at least on one side.
fn is_conflict(first: Event, second: Event) -> bool
    ensures { IsTrue result ↔ ((first.processor ≢ second.processor) × Conflict first second) }
{
    let conflicts = match (first.kind, second.kind) {
        (Kind::Load(a, _), Kind::Store(b, _)) => a == b,
        (Kind::Store(a, _), Kind::Load(b, _) | Kind::Store(b, _)) => a == b,
        _ => false,
    };
    conflicts && first.processor != second.processor
}

/// Whether an event of the first kind lets one of the second through: the release of a lock an acquire
/// of it, the set of a flag an await of it.
fn lets_through(first: Kind, second: Kind) -> bool
    ensures { IsTrue result ↔ LetsThrough first second }
{
    match (first, second) {
        (Kind::Release(a), Kind::Acquire(b)) | (Kind::Set(a), Kind::Await(b)) => a == b,
        _ => false,
    }
}

/// How often the processor has arrived before this place.
fn arrivals_before(events: &[Event], place: usize, processor: usize) -> usize
    requires { place ≤ length events.now }
    ensures { result ≡ event_count event_arrives (take place events.now) processor }
{
    let front = &events[..place];
    front
        .iter()
        .filter(|e| e.processor == processor && arrives(e.kind))
        .count()
}

/// How often the processor has departed before this place.
fn departures_before(events: &[Event], place: usize, processor: usize) -> usize
    requires { place ≤ length events.now }
    ensures { result ≡ event_count event_departs (take place events.now) processor }
{
    let front = &events[..place];
    front
        .iter()
        .filter(|e| e.processor == processor && departs(e.kind))
        .count()
}

/// Whether an edge leads from the first place to the second.
fn is_edge(events: &[Event], first: usize, second: usize) -> bool
    requires order { first < second }
    requires within { second < length events.now }
    ensures { IsTrue result ↔ Edge events.now first second }
{
    let from = events[first];
    let to = events[second];
    from.processor == to.processor
        || lets_through(from.kind, to.kind)
        || arrives(from.kind)
            && departs(to.kind)
            && arrivals_before(events, first, from.processor)
                == departures_before(events, second, to.processor)
}

/// Marks in the row what is marked in the other, and the place of that one's event.
fn mark_source(row: &mut [bool], other: &[bool], source: usize)
    requires { length other.now ≡ length row.old }
    ensures { (i : ℕ) → i < length row.old
        → slice_index_or row.new i false ≡
        (slice_index_or row.old i false || (slice_index_or other.now i false || (i == source))) }
{
    for i in 0..row.len() {
        row[i] = row[i] || other[i] || i == source;
    }
}

/// The row of this place, from the rows of the places before it: the union of its sources' rows, and the
/// sources.
fn row_of(
    alloc: Global,
    events: &[Event],
    rows: &[Vec<bool>],
    place: usize,
) -> Result<Vec<bool>, AllocError>
    requires within { place < length events.now }
    requires long { length rows.now ≡ place }
    requires rows { AreRows events.now rows.now }
    ensures { IfOk result (IsRow events.now place) }
{
    let mut row = vec![in alloc; false; events.len()]?;
    for source in 0..place {
        if is_edge(events, source, place) {
            mark_source(&mut row, &rows[source], source);
        }
    }
    Ok(row)
}

/// For each two places of a list of events, whether the event at the one happens before that at the other:
/// a row for each place, with a mark for each that happens before it.
#[derive(Drop)]
pub struct ReachTable {
    rows: Vec<Vec<bool>>,
}

impl ReachTable {
    /// The table of these events, by the definition: each row is the union of its sources' rows, and the
    /// sources. The only error is running out of memory.
    ///
    /// Of n events it takes n * n bytes, and time in the order of n * n * n: for hundreds of events.
    pub fn new(alloc: Global, events: &[Event]) -> Result<ReachTable, AllocError>
        ensures { IfOk result (IsTable events.now) }
    {
        let mut rows = Vec::new(alloc);
        for place in 0..events.len() {
            let row = row_of(alloc, events, &rows, place)?;
            rows.push(row)?;
        }
        Ok(ReachTable { rows })
    }

    /// Whether the event at the first place happens before the one at the second; false where there is
    /// no such place.
    pub fn happens_before(&self, first: usize, second: usize) -> bool
        ensures { (j : List Event) → IsTable j self.now → IsTrue result
            ↔ HappensBefore j first second }
    {
        match self.rows.get(second) {
            Some(row) => first < row.len() && row[first],
            None => false,
        }
    }

    /// Whether the events at these places race. The table is that of the events.
    pub fn is_race(&self, events: &[Event], first: usize, second: usize) -> bool
        requires { IsTable events.now self.now }
        ensures { IsTrue result ↔ Race events.now first second }
    {
        first < second
            && second < events.len()
            && is_conflict(events[first], events[second])
            && !self.happens_before(first, second)
    }
}
