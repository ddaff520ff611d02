//! Prefixes of a script's runs on one flat memory: definitions, and laws of them.
//!
//! **What contracts see.** A history is a prefix of a script's runs (`IsFlatBeginning`) if it is well formed, begins the
//! script, replays from zeros and fetches nothing. It is whole (`IsFlatBeginningWhole`) if it follows the script, and a hang
//! (`IsFlatBeginningHanging`) if it isn't and nothing may come next. A script is seen as steps, one a call (`script_calls_of_section`).
//!
//! **What is proved.** The laws (module `laws`): a script of which no prefix races never races; nothing begins each
//! script; what begins a prefix is one; what may come next after it (`PrefixCanGoOn`), exactly; and when it is whole. No
//! prefix races exactly if no two accesses that may come next conflict (`PrefixHasNoNeighbours`).
//! `script_calls_of_all` gives the steps of each section.

mod laws;
mod script_call;

pub use self::laws::{
    prefix_done_law, prefix_front_law, prefix_neighbours_law, prefix_never_races_law,
    prefix_next_law, prefix_racing_law,
};
pub use self::script_call::{ScriptCall, script_calls_of_all};
