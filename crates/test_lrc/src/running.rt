//! A caller of runs of scripts, who knows nothing of them but their contracts.
//!
//! **What is only tested** here: what no run of the program shows. That threads get on side by side; that the gate is asked
//! before each instruction, and what comes of one that stops; locks with few entries.

mod steps;
mod threads;
