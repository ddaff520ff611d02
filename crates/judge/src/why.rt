//! Why an event may not come next.
use journal::Kind;

/// Why an event may not follow what stands before it. Where several of these apply, the first one in this order is
/// told.
#[derive(Clone, Copy, Debug, PartialEq, Eq)]
pub enum Why {
    /// The cluster has no such processor.
    NoSuchProcessor,
    /// The address, page, lock or flag that it names is not within the sizes.
    OutOfRange,
    /// Its processor waits for an event of this kind, and this is another one.
    Waits(Kind),
    /// It asks for a lock that its processor holds.
    AsksWhatItHolds,
    /// It acquires, departs or awaits, and its processor's last event is not the ask, arrival or watch that goes with
    /// it. Lax, this is told of a departure alone.
    NotAsked,
    /// It acquires a lock that this processor holds.
    HeldBy(usize),
    /// It acquires a lock that this processor asked for at this earlier place, an ask that is still open: the lock's
    /// first one.
    AskedEarlier(usize, usize),
    /// It releases a lock that its processor doesn't hold.
    NotHeld,
    /// It departs, and this processor, the least such, has not arrived as often as that needs.
    NotArrived(usize),
    /// It awaits a flag that nobody has set.
    NotSet,
}
