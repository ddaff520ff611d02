//! What there is to say of runs: what they show, and how it is told.
pub mod answer;
pub mod of_run;
pub mod showing;
pub mod telling;
pub mod told_replies;
