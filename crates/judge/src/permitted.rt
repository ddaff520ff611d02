//! What a load may answer.

use crate::flat_memory::FlatStore;

/// What a load may answer under a model: the values of these stores.
#[derive(Debug, Drop)]
pub enum Permitted {
    /// The one store that is a latest one of the load's past; if there is none, it may answer 0 alone.
    One(Option<FlatStore>),
    /// The latest stores of the load's past, by rising processor: one of a processor at most. A load that has none may answer 0
    /// alone.
    Latest(Vec<FlatStore>),
    /// The same, and besides the stores that stand before the load, and its past doesn't have them.
    Heard(Vec<FlatStore>, Vec<FlatStore>),
    /// The last store before the load; if there is none, it may answer 0 alone.
    Last(Option<FlatStore>),
}
