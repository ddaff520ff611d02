//! Scripts drawn from a generator, to be run under many schedules by tests.
//!
//! **What is proved.** `draw::guarded` and `draw::free` give lawful scripts by the stated draws: `drawn` says which plan
//! the generator's words give.
//!
//! **What is only tested** (in `test_lrc`): that a script is drawn from each number, up to the greatest.

pub mod draw;
