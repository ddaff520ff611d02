//! Whether the sections of a script have as many barriers.
ghost use Rattle.std.specs.Prelude.{◌≤◌, ◌≡◌, length, All, IfSome, IfNone};
ghost use Rattle.base.specs.Prelude.{most_processors};
ghost use Rattle.lrc_script.specs.Prelude.{plan_of, barriers, is_barrier, IsLawfullyEven, IsScriptFaultUnevenAtLine};

use crate::script::{Instruction, Script};

fn is_barrier(instruction: Instruction) -> bool
    ensures { result ≡ is_barrier instruction }
{
    matches!(instruction, Instruction::Barrier)
}

fn barriers(section: &[Instruction]) -> usize
    ensures { result ≡ barriers section.now }
{
    section
        .iter()
        .filter(|instruction| is_barrier(**instruction))
        .count()
}

/// The line of the first section that has another number of barriers than section 0.
pub fn uneven_line(script: &Script) -> Option<usize>
    requires sections { length script.now.sections.items ≤ most_processors }
    requires instructions { All (λ section. length section.items ≤ 10000) script.now.sections.items }
    ensures even { IfNone result (IsLawfullyEven (plan_of script.now)) }
    ensures uneven { IfSome result (IsScriptFaultUnevenAtLine (plan_of script.now)) }
{
    let expected = barriers(script.sections.first()?);
    let mut line = 2;
    for section in &script.sections {
        if barriers(section) != expected {
            return Some(line);
        }
        line += section.len() + 1;
    }
    None
}
