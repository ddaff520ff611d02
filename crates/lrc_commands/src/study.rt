//! What a script is studied with.

use std::alloc::Global;

/// What a script is studied with.
#[derive(Drop)]
pub struct Study<'a, T, R> {
    /// What runs scripts.
    pub runs: &'a T,
    /// What may wait.
    pub rt: &'a R,
    /// What memory comes from.
    pub alloc: Global,
}
