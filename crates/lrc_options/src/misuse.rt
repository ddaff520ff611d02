//! What a fault of usage says of options: of one that another command has, of two that exclude each other.
ghost use Rattle.std.specs.Prelude.{◌≡◌, IfOk};
ghost use Rattle.clap.specs.Words.{kind_of};

use clap::error::ErrorKind;
use clap::{ArgMatches, Command, Error};
use std::alloc::{AllocError, Global};

/// Each command with each option that it has. Of the commands that have an option the first one is named.
const OPTIONS: [(&str, &str); 50] = [
    ("run", "--tries"),
    ("run", "--lock"),
    ("run", "--journal"),
    ("step", "--seed"),
    ("step", "--schedule"),
    ("step", "--lock"),
    ("step", "--journal"),
    ("explain", "--seed"),
    ("explain", "--schedule"),
    ("explain", "--lock"),
    ("explain", "--svg"),
    ("explain", "--html"),
    ("explain", "--state"),
    ("explain", "--events"),
    ("explain", "--processors"),
    ("explain", "--trace"),
    ("sample", "--seeds"),
    ("sample", "--lock"),
    ("sample", "--json"),
    ("explore", "--most"),
    ("explore", "--until"),
    ("explore", "--outcomes"),
    ("explore", "--json"),
    ("check", "--model"),
    ("check", "--strict"),
    ("check", "--lax"),
    ("check", "--race-is-error"),
    ("check", "--locksets"),
    ("check", "--program"),
    ("check", "--most"),
    ("check", "--suppress"),
    ("check", "--json"),
    ("explain", "--model"),
    ("explain", "--strict"),
    ("explain", "--lax"),
    ("check", "--unfinished"),
    ("explain", "--unfinished"),
    ("sample", "--outcomes"),
    ("sample", "--jobs"),
    ("draw", "--seed"),
    ("draw", "--processors"),
    ("draw", "--pages"),
    ("draw", "--words"),
    ("draw", "--locks"),
    ("draw", "--flags"),
    ("draw", "--length"),
    ("pages", "--page-words"),
    ("pages", "--top"),
    ("pages", "--eager"),
    ("pages", "--json"),
];

/// A command that was given an option that it lacks, and a command that has it.
#[derive(Clone, Copy)]
struct Misuse<'a> {
    command: &'a str,
    option: &'a str,
    owner: &'static str,
}

/// The fault of usage of this kind that a command is given, as this text says.
fn usage_fault(
    alloc: Global,
    command: &str,
    kind: ErrorKind,
    text: &str,
) -> Result<Error, AllocError>
    ensures { IfOk result (λ e. kind_of e ≡ kind) }
{
    let usage = format!(in alloc; "lrc {command} [OPTIONS] [FILE]")?;
    let mut lrc = Command::new(alloc, "lrc").override_usage(&usage);
    lrc.error(kind, text)
}

impl Misuse<'_> {
    /// The fault of usage, which says who has the option.
    fn fault(self, alloc: Global) -> Result<Error, AllocError>
        ensures { IfOk result (λ e. kind_of e ≡ ErrorKind.UnknownArgument) }
    {
        let Misuse {
            command,
            option,
            owner,
        } = self;
        let text = format!(in alloc;
            "unexpected argument '{option}' found\n\n  tip: 'lrc {owner}' has '{option}'"
        )?;
        usage_fault(alloc, command, ErrorKind::UnknownArgument, &text)
    }
}

/// The fault of usage that a command is given options that exclude each other, as this text says.
pub(crate) fn misuse_by_exclusion(
    alloc: Global,
    command: &str,
    text: &str,
) -> Result<Error, AllocError>
    ensures { IfOk result (λ e. kind_of e ≡ ErrorKind.ArgumentConflict) }
{
    usage_fault(alloc, command, ErrorKind::ArgumentConflict, text)
}

/// The fault of usage that what the command is given for this option, whose value is written so, isn't what this says.
pub(crate) fn misuse_by_unread_value(
    alloc: Global,
    command: &str,
    matches: &ArgMatches<'_>,
    option: &str,
    value: &str,
    want: &str,
) -> Result<Error, AllocError>
    ensures { IfOk result (λ e. kind_of e ≡ ErrorKind.ValueValidation) }
{
    let given = matches.get_str(option).unwrap_or("");
    let text = format!(in alloc;
        "invalid value '{given}' for '--{option} <{value}>': it isn't {want}"
    )?;
    usage_fault(alloc, command, ErrorKind::ValueValidation, &text)
}

/// Whether it is a command.
fn is_command_open_to_misuse(name: &str) -> bool {
    OPTIONS.iter().any(|(command, _)| *command == name)
}

/// Whether the command has the option.
fn misused_command_has_option(name: &str, option: &str) -> bool {
    OPTIONS
        .iter()
        .any(|(command, own)| *command == name && *own == option)
}

/// The first command that has the option.
fn misused_option_owner(option: &str) -> Option<&'static str> {
    for (command, own) in &OPTIONS {
        if *own == option {
            return Some(command);
        }
    }
    None
}

/// The option that a word gives, with or without its value.
fn misused_option_of(word: &str) -> &str {
    match word.split_once('=') {
        Some((option, _)) => option,
        None => word,
    }
}

/// The first option before `--` that the words give to a command that lacks it, if another one has it.
fn misuse_of(words: &[String]) -> Option<Misuse<'_>> {
    let command = words.get(1)?.as_str();
    if !is_command_open_to_misuse(command) {
        return None;
    }
    for word in words {
        let word = word.as_str();
        if word == "--" {
            return None;
        }
        let option = misused_option_of(word);
        if !misused_command_has_option(command, option)
            && let Some(owner) = misused_option_owner(option)
        {
            return Some(Misuse {
                command,
                option,
                owner,
            });
        }
    }
    None
}

/// A fault of usage; if a command was given an option that another one has, it says so.
pub(crate) fn with_misuse_tip(
    alloc: Global,
    words: &[String],
    fault: Error,
) -> Result<Error, AllocError>
    ensures { IfOk result (λ e. kind_of e ≡ kind_of fault) }
{
    match (fault.kind(), misuse_of(words)) {
        (ErrorKind::UnknownArgument, Some(misuse)) => misuse.fault(alloc),
        _ => Ok(fault),
    }
}
