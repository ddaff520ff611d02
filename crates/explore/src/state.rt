//! States of a script on one flat memory: what is known of one, how it is kept, and which were found.
pub mod call_table;
pub mod flat_state;
pub mod found_states;
pub mod hasher;
pub mod kept_state;
pub mod origins;
pub mod room;
pub mod wait_code;
pub mod waits;
