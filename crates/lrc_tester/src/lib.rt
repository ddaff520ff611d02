//! For who tests a memory of their own: scripts that are drawn for it, and whether a trace follows its script.
//!
//! **What contracts see.** A `Pattern`, a `GivenSizes`, a `Following` and a `Next` as they are, a script as its plan.
//!
//! **What is proved.** `draw` returns a lawful script (`lawful`) of the sizes that are given (`sizes`). If its pattern never races, no run of the script races on one
//! flat memory and none hangs (`race_free`, `never_hangs`), so none races on the real one. `drawing::draw::guarded` and `free`
//! return the scripts that the stated draws give. `follow` returns `Follows` exactly if the trace follows its script, with the
//! asks and watches put in that it leaves out (`with_asks`). Else it returns the first event that its section doesn't have there,
//! or a processor whose section isn't done; and what that processor does next by the script.
//!
//! **What is only tested** (in `tests/program`): which script a pattern, a seed and sizes give; the lines of `follows`.
#![tactic(auto)]

pub mod draw_command;
pub mod drawing;
mod following;
pub mod follows_command;
mod next;
mod next_text;
mod pattern;
mod pieces;
mod sections;
mod shared_pages;
mod sizes;
mod tester;
mod words;

pub use following::{Following, follow, written_asks_law};
pub use next::Next;
pub use pattern::Pattern;
pub use sizes::GivenSizes;
pub use tester::{DrawFault, draw};
