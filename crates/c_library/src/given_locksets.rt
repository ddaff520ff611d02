//! A history is judged, and its words are told that need a lock and have none.
ghost use Rattle.std.specs.Prelude.{◌≡◌, ◌≢◌, ◌<◌, IfErr, IfOk};
ghost use Rattle.c_library.specs.Prelude.{IsCallFaultCode, IsGivenLocksetsFault, IsGivenLocksetsFound, IsGivenLocksetsTold, given_lockset_words};

use crate::call_fault::CallFault;
use crate::given::{GivenEvent, GivenRules, GivenSizes};
use crate::given_judged::given_judged_events;
use crate::told_verdict::told_verdict;
use crate::told_words::{ToldLocksets, ToldWord, write_told_words};
use judge::locksets::{LocksetWords, Unprotected};
use lrc_check::{Checked, Rules, judge_history};
use std::alloc::Global;

/// The words that the number names.
fn given_lockset_words(which: u32) -> LocksetWords
    requires { which < 2 }
    ensures { result ≡ given_lockset_words which }
{
    match which {
        0 => LocksetWords::Forgotten,
        _ => LocksetWords::All,
    }
}

/// What is found of the events, and the words that the number asks for, if all that was handed in is in range.
fn judge_given_locksets(
    alloc: Global,
    sizes: GivenSizes,
    rules: GivenRules,
    which: u32,
    events: &[GivenEvent],
) -> Result<(Checked, Vec<Unprotected>), CallFault>
    ensures found { IfOk result (IsGivenLocksetsFound sizes rules which events.now) }
    ensures refused { IfErr result (IsGivenLocksetsFault sizes rules which events.now) }
{
    let judged = sizes.sizes();
    if !judged.are_judged() {
        return Err(CallFault::BadSizes);
    }
    if which >= 2 {
        return Err(CallFault::BadRules);
    }
    let history = given_judged_events(alloc, sizes, rules, events)?;
    let rules = Rules {
        locksets: Some(given_lockset_words(which)),
        ..rules.rules()
    };
    let found = judge_history(alloc, judged, &history, rules)?;
    Ok(found)
}

/// Judges the events by the rules. Writes what was found of them, with how many words need a lock and have none, and of these
/// words, by rising address, as many as there is room for; answers 0. Else it answers the code of a fault, and writes nothing.
#[unsafe(no_mangle)]
pub extern "C" fn cevandle_locksets_nonnull(
    alloc: Global,
    sizes: GivenSizes,
    rules: GivenRules,
    which: u32,
    events: &[GivenEvent],
    words: &mut [ToldWord],
    told: &mut ToldLocksets,
) -> u32
    ensures told { result ≡ 0 → IsGivenLocksetsTold sizes rules which events.now words.old words.new told.new }
    ensures refused { result ≢ 0 → IsCallFaultCode (IsGivenLocksetsFault sizes rules which events.now) result }
    ensures words_unwritten { result ≢ 0 → words.new ≡ words.old }
    ensures unwritten { result ≢ 0 → told.new ≡ told.old }
{
    match judge_given_locksets(alloc, sizes, rules, which, events) {
        Ok((found, unprotected)) => {
            write_told_words(&unprotected, words);
            *told = ToldLocksets {
                verdict: told_verdict(&found),
                words: unprotected.len() as u64,
            };
            0
        }
        Err(fault) => fault.code(),
    }
}
