//! Reads the words of a program that runs scripts alone.
ghost use Rattle.std.specs.Prelude.{◌≡◌, IfErr, IfOk, OnOk, false, map, string_bytes};
ghost use Rattle.clap.specs.Words.{found_of, rows_of};
ghost use Rattle.lrc_options.specs.Clashes.{do_seed_and_schedule_clash};
ghost use Rattle.lrc_options.specs.OptionRules.{AreOptionsByRulesOfScript};
ghost use Rattle.lrc_options.specs.ScriptWords.{AreScriptOptionsGiven, AreScriptOptionsRefused, IsScriptUnanswered};

use crate::clap_commands::{LOCKS, clap_scripts_command};
use crate::clashes::{SEED_AND_SCHEDULE, seed_clashes_with_schedule};
use crate::command_line::command_line_script_options;
use crate::misuse::{misuse_by_exclusion, with_misuse_tip};
use crate::options::Options;
use clap::{ArgMatches, Error};
use std::alloc::Global;

/// What a command on a script and its matches ask for; or that a seed and a schedule exclude each other.
fn script_words_answer(
    alloc: Global,
    name: &str,
    matches: &ArgMatches<'_>,
) -> Result<Options, Error>
    ensures apart { OnOk result (do_seed_and_schedule_clash (rows_of (found_of matches.now)) ≡ false) }
    ensures asked { IfOk result (AreOptionsByRulesOfScript name.now (rows_of (found_of matches.now))) }
    ensures unanswered { IfErr result (IsScriptUnanswered (rows_of (found_of matches.now))) }
{
    if seed_clashes_with_schedule(matches) {
        return Err(misuse_by_exclusion(alloc, name, SEED_AND_SCHEDULE)?);
    }
    Ok(command_line_script_options(alloc, name, matches)?)
}

/// Reads the words, the program's name first: `lrc run [FILE] [--tries N] [--lock KIND] [--journal]` or
/// `lrc step [FILE] [--seed N | --schedule S] [--lock KIND] [--journal]`. It is [`options`](crate::command_line::options) of a
/// program that has these commands alone, and reaches no code of the others.
///
/// # Errors
///
/// clap's, of just the kind that its own function of the command finds in the words: words that give no such command, a
/// question for help; a conflict, if they give a seed and a schedule; or running out of memory.
pub fn script_options<'a>(alloc: Global, words: &'a [String]) -> Result<Options, Error>
    ensures given { IfOk result (AreScriptOptionsGiven (map (λ w. string_bytes w) words.entry.now)) }
    ensures refused { IfErr result (AreScriptOptionsRefused (map (λ w. string_bytes w) words.entry.now)) }
{
    match clap_scripts_command(alloc, LOCKS.as_slice())?.try_get_matches_from(words) {
        Ok(matches) => match matches.subcommand() {
            Some((name, given)) => script_words_answer(alloc, name, given),
            None => unreachable!("a command is required"),
        },
        Err(fault) => Err(with_misuse_tip(alloc, words, fault)?),
    }
}
