//! A word that is asked for at an address that the script doesn't show.
ghost use Rattle.std.specs.Prelude.{IfErr, IfOk};
ghost use Rattle.lrc_script.specs.Prelude.{IsLawful, plan_of};
ghost use Rattle.lrc_explore.specs.Prelude.{AreShowingWords};
ghost use Rattle.lrc_commands.specs.Prelude.{IsCommandExitStatusOfInput, IsWhyUnshown};

use lrc_commands::fault::{CommandFault, WhyUnshown};
use lrc_explore::unshown_asked_address;
use lrc_script::script::{MOST_SHOWN, Script};

/// Why the script doesn't show the word at this address.
fn why_unshown(script: &Script, address: usize) -> WhyUnshown
    requires { IsLawful (plan_of script.now) }
    ensures { IsWhyUnshown (plan_of script.now) address result }
{
    let addresses = script.pages * script.words;
    if address >= addresses {
        WhyUnshown::Outside(addresses)
    } else if script.shown.len() < MOST_SHOWN {
        WhyUnshown::LeftOut
    } else {
        WhyUnshown::Full
    }
}

/// The fault that a word is asked for which the script doesn't show, if one is.
pub(crate) fn refuse_unshown(script: &Script, words: &[(usize, u32)]) -> Result<(), CommandFault>
    requires { IsLawful (plan_of script.now) }
    ensures shown { IfOk result (λ _. AreShowingWords (plan_of script.now).shown words.now) }
    ensures runs { IfErr result (λ fault. IsCommandExitStatusOfInput fault → ⊥) }
{
    match unshown_asked_address(&script.shown, words) {
        Some(address) => Err(CommandFault::Unshown(address, why_unshown(script, address))),
        None => Ok(()),
    }
}
