//! What of Cevandle can be called from C, as a static library. `include/cevandle.h` declares it for C; docs/C.md says how it is
//! built and linked, and what can't be exported.
//!
//! **What contracts see.** What C hands in and what it is told, as structs of numbers, and a script's text as bytes. `given_event_of`,
//! `given_sizes` and `given_rules_of` (specs/Given) say what the first stand for, `told_verdict_of` and `told_verdict_race` (specs/ToldVerdicts) and
//! `told_exploration` (specs/ToldExploration) what the second tell. `CallFault` is why a call did nothing, `call_fault_code` its number.
//!
//! **What is proved.** Each export returns 0 only if all that was handed in is in range. Then what it wrote is what the
//! function below promises of these very events or of this very script (`IsGivenJudgedTold`, `IsGivenLocksetsTold`, `IsGivenHistoryRaceTold`, `IsGivenHistoryReplayTold`,
//! `IsGivenTextTold`). It returns another code only if that is the code of the first thing that is out of range, and that of
//! memory only if nothing is. Then it wrote nothing, but of a text that is no script's the fault (`IsGivenTextFaultTold`). No
//! export has a premise, since nothing checks what C hands in.
//!
//! **What is only tested** (`tests/c_library`): that the header has these structs and numbers, and that null is refused: that
//! is done in the header, in C, since a reference is never null.
#![tactic(auto)]

mod call_fault;
mod given;
mod given_history;
mod given_judged;
mod given_locksets;
mod given_text;
mod racing;
mod replaying;
mod told_exploration;
mod told_verdict;
mod told_words;
mod unexplored;
