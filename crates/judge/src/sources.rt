//! Which stores a load may answer: of each load of a history, the latest stores of its past to its address.
//!
//! **What contracts see.** A load may answer a store of its past after which no other store to its address happens in
//! that past (`LatestExplainedAnswer` of journal's specs/Sources/Loads; `IsLatest` says it by processor and place). Happens-before is
//! happens-before-1 of Adve and Hill. The histories need not be ones that a cluster can make.
//!
//! **What is proved.** `latest_rows` has of each load of a history exactly the places of the stores that it may answer. Of a load
//! that may come next `KeptStores` tells these stores, as a history goes on.
//!
//! **What is only tested**: that memory isn't refused needlessly, and that each refusal is answered.

mod answer_laws;
mod rows_of_latest;

pub use self::answer_laws::{answer_stays_law, answers_law};
pub use self::rows_of_latest::latest_rows;
