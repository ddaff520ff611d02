//! The models of memory by which a history is judged.

/// What the loads of a history owe. The other events are judged alike under each model.
#[derive(Clone, Copy, Debug, PartialEq, Eq)]
pub enum MemoryModel {
    /// Up to the first race of two accesses each load answers the latest store of its past (data-race-free-0: Adve and
    /// Hill 1990). From there on it owes nothing.
    RaceFree,
    /// A load answers a latest store of its past, or a store before it in the history that its past doesn't have
    /// (happens-before consistency: Manson, Pugh and Adve 2005).
    HappensBefore,
    /// A load answers a latest store of its past.
    LazyRelease,
    /// A load answers the last store before it in the history (sequential consistency, of this one order: Lamport 1979).
    Sequential,
}
