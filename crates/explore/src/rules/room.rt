//! How many beginnings of a script's runs are looked at.
ghost use Rattle.std.specs.Prelude.{◌≡◌};
ghost use Rattle.lrc_script.specs.Prelude.{IsLawful, plan_of};
ghost use Rattle.explore.specs.AllowedRoom.{allowed_room_instructions_in, allowed_room_size, allowed_room_at_most, allowed_room_work};

use lrc_script::script::{Instruction, Script};

/// How much work all beginnings take together at most: some seconds.
const MOST_WORK: usize = 1 << 25;

/// How many instructions these are.
fn allowed_room_instructions_in(section: &[Instruction]) -> usize
    ensures { result ≡ allowed_room_instructions_in section.now }
{
    section.len()
}

/// What it takes to look at a beginning: in the order of the memory's words, the shown ones, and all instructions.
fn allowed_room_work(script: &Script) -> usize
    requires { IsLawful (plan_of script.now) }
    ensures { result ≡ allowed_room_work (plan_of script.now) }
{
    let mut work = script.pages * script.words + script.shown.len();
    for section in &script.sections {
        work += allowed_room_instructions_in(section);
    }
    work
}

/// How many beginnings take no more than `MOST_WORK` together.
fn allowed_room_size(script: &Script) -> usize
    requires { IsLawful (plan_of script.now) }
    ensures { result ≡ allowed_room_size (plan_of script.now) }
{
    MOST_WORK / allowed_room_work(script)
}

/// How many beginnings are looked at, if `most` are asked for: so many, but no more than are done in some seconds.
pub fn allowed_room_at_most(script: &Script, most: usize) -> usize
    requires { IsLawful (plan_of script.now) }
    ensures { result ≡ allowed_room_at_most (plan_of script.now) most }
{
    most.min(allowed_room_size(script))
}
