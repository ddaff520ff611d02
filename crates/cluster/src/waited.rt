//! What a call that waits answers.

/// What [`Cluster::wait`](crate::Cluster::wait) answers.
#[derive(Clone, Copy, Debug, PartialEq, Eq)]
pub enum Waited {
    /// What the processor awaits may have come, or it awaits nothing: a [`take`](crate::Cluster::take) tells which.
    MayHaveCome,
    /// Nothing can happen any more: each processor waits, and what it waits for has come for none.
    Stuck,
    /// What the processor awaits hasn't come, and nobody is left who could bring it: each other processor has ended, or
    /// waits and nothing has come for it.
    Deserted,
}
