//! What the schedules of a script on one flat memory say of its runs on the real one: laws of them.
//!
//! **What contracts see.** The answer of a search (`IsExplored`, of crate `explore`) and a report of a run (`IsScriptReport`, of
//! crate `conformance`).
//!
//! **What is proved** (module `laws`). If a search finds a script race-free, each report of it says so, and what its
//! loads answered is one of the outcomes that the search found. If it finds no hang either, no history of the script is
//! stuck.

pub mod laws;
