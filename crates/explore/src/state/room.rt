//! How many states of a script fit.
ghost use Rattle.std.specs.Prelude.{◌≡◌, ◌^◌, ◌≤◌, count_by, length};
ghost use Rattle.lrc_script.specs.Prelude.{IsLawful, plan_of};
ghost use Rattle.explore.specs.StateRoom.{state_room_is_load, state_room_is_loading, state_room_keeps, state_room_replies_in, state_room_size, state_room_at_most, state_room_words};

use crate::outcomes::telling::Detail;
use lrc_script::script::{Instruction, Script};

/// How many words the states of a search have together at most: 512 MB.
const MOST_WORDS: usize = 1 << 27;

/// Whether the instruction loads.
fn state_room_is_loading(instruction: Instruction) -> bool
    ensures { result ≡ state_room_is_loading instruction }
{
    matches!(instruction, Instruction::Load(_) | Instruction::Add(_, _))
}

/// Whether the instruction is a `load`.
fn state_room_is_load(instruction: Instruction) -> bool
    ensures { result ≡ state_room_is_load instruction }
{
    matches!(instruction, Instruction::Load(_))
}

/// Whether what the instruction loads is told by the detail, so that a state keeps it.
fn state_room_keeps(detail: Detail, instruction: Instruction) -> bool
    ensures { result ≡ state_room_keeps detail instruction }
{
    match detail {
        Detail::Words => false,
        Detail::Loads => state_room_is_load(instruction),
        Detail::All => state_room_is_loading(instruction),
    }
}

/// How many loads these instructions make.
fn state_room_loads_in(section: &[Instruction]) -> usize
    ensures { result ≡ count_by state_room_is_loading section.now }
{
    section
        .iter()
        .filter(|instruction| state_room_is_loading(**instruction))
        .count()
}

/// How many replies of these instructions a state keeps at most: those that are told, and one that the next step adds to, but
/// never more than there are.
fn state_room_replies_in(detail: Detail, section: &[Instruction]) -> usize
    requires { length section.now ≤ 10000 }
    ensures { result ≡ state_room_replies_in detail section.now }
{
    let told = section
        .iter()
        .filter(|instruction| state_room_keeps(detail, **instruction))
        .count();
    state_room_loads_in(section).min(told + 1)
}

/// How many words a state has at most: those of the memory and of what is shown, and the replies that it keeps.
fn state_room_words(script: &Script, detail: Detail) -> usize
    requires { IsLawful (plan_of script.now) }
    ensures { result ≡ state_room_words (plan_of script.now) detail }
{
    let mut words = script.pages * script.words + script.shown.len();
    for section in &script.sections {
        words += state_room_replies_in(detail, section);
    }
    words
}

/// How many states have no more than `MOST_WORDS` words together.
fn state_room_size(script: &Script, detail: Detail) -> usize
    requires { IsLawful (plan_of script.now) }
    ensures { result ≡ state_room_size (plan_of script.now) detail }
{
    MOST_WORDS / state_room_words(script, detail)
}

/// How many states are looked at by this detail, if `most` are asked for: so many, but no more than fit.
pub fn state_room_at_most(script: &Script, detail: Detail, most: usize) -> usize
    requires { IsLawful (plan_of script.now) }
    ensures at_most { result ≡ state_room_at_most (plan_of script.now) detail most }
    ensures few { result ≤ 2 ^ 27 }
{
    most.min(state_room_size(script, detail))
}
