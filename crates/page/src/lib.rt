//! Pages of shared memory: words with a dirty bit each, and the records that closing an interval
//! makes of the dirty words (Keleher, Cox and Zwaenepoel 1992, section 3).
//!
//! - Contracts see a `Page` as `Contents` (its words, its dirty marks, its access; specs/Contents) and a
//!   `Record` as `PageChanges` (specs/PageChanges). How the marks lie in a machine word is specs/PageMarks.
//! - Proved: each call is what these words say, and a harvest has the dirty words in rising order. After
//!   any list of stores to a clean page it does to any page what they do (`CarriesStores`, specs/CarriedHarvests).
//! - Only tested: that a refused growth changes nothing of a page, and that records cross threads.
#![tactic(auto)]

mod page;
mod record;

pub use page::{Access, Page};
pub use record::Record;
