//! Scripts that are drawn for who tests a memory.
ghost use Rattle.std.specs.Prelude.{◌≡◌, ◌≢◌, IfErr, IfOk, IsTrue, Some};
ghost use Rattle.lrc_script.specs.Prelude.{IsLawful, plan_of};
ghost use Rattle.conformance.specs.FlatRuns.{NeverRacesFlat};
ghost use Rattle.explore.specs.declared.outcomes.answer.Hanging.TheVariants as hanging;
ghost use Rattle.explore.specs.declared.outcomes.answer.Verdict.TheVariants as verdict;
ghost use Rattle.lrc_tester.specs.Patterns.{HasGivenSizes, NeverHangsFlat, never_races_by_pattern, plain_style, without_sizes};
ghost use Rattle.lrc_tester.specs.declared.drawing.draw.Style.{Style as AStyle};
ghost use Rattle.lrc_tester.specs.declared.tester.DrawFault.TheVariants as why;
ghost use Rattle.lrc_tester.specs.Drawing.Prelude.{drawn, seeded};

use crate::drawing::draw::{free, guarded};
use crate::pattern::Pattern;
use crate::pieces::Drawer;
use crate::sections::section;
use crate::sizes::{GivenSizes, Sizes};
use explore::{Detail, Explored, Hanging, Silent, Verdict, explore};
use lrc_script::fault::ScriptFault;
use lrc_script::script::{Instruction, Script, parse};
use rand_core::SeedableRng;
use rand_pcg::Pcg32;
use std::alloc::{AllocError, Global};
use thiserror::Error;

/// The most words that a script shows.
const MOST_SHOWN: usize = 64;

/// Why no script was drawn.
#[derive(Clone, Copy, Debug, Drop, Error)]
pub enum DrawFault {
    /// The draws gave no script that is lawful, has the given sizes and never hangs, and that never races if its pattern promises so.
    #[error("no such script was drawn")]
    NotDrawn,
    /// Memory ran out.
    #[error("out of memory")]
    NoMemory,
    /// A write failed.
    #[error("output failed")]
    Output,
}

impl From<AllocError> for DrawFault {
    ghost from_gives = { λ _ fault. fault ≡ why.NoMemory };

    fn from(_: AllocError) -> DrawFault {
        DrawFault::NoMemory
    }
}

/// The sections of all processors.
fn sections(
    alloc: Global,
    rng: &mut Pcg32,
    pattern: Pattern,
    sizes: Sizes,
) -> Result<Vec<Vec<Instruction>>, AllocError> {
    let mut sections = Vec::new(alloc);
    for processor in 0..sizes.processors {
        sections.push(section(alloc, rng, pattern, Drawer { processor, sizes })?)?;
    }
    Ok(sections)
}

/// A script by the pattern, which may be no lawful one.
fn sketch(
    alloc: Global,
    pattern: Pattern,
    seed: u64,
    given: GivenSizes,
) -> Result<Script, AllocError> {
    let mut rng = Pcg32::seed_from_u64(seed);
    let sizes = Sizes::draw(&mut rng, pattern, given);
    let sections = sections(alloc, &mut rng, pattern, sizes)?;
    let shown = (0..(sizes.addresses() as usize).min(MOST_SHOWN)).collect(alloc)?;
    Ok(Script {
        processors: sizes.processors as usize,
        pages: sizes.pages as usize,
        words: sizes.words as usize,
        locks: sizes.locks as usize,
        flags: sizes.flags as usize,
        sections,
        shown,
    })
}

/// The script as it is read from its text, which only a lawful one is.
fn read_again(alloc: Global, script: Script) -> Result<Script, DrawFault>
    ensures lawful { IfOk result (λ s. IsLawful (plan_of s)) }
    ensures fault { IfErr result (λ e. e ≢ why.Output) }
{
    let text = script.to_string(alloc)?;
    match parse(alloc, text.as_bytes()) {
        Ok(script) => Ok(script),
        Err((_, ScriptFault::NoMemory)) => Err(DrawFault::NoMemory),
        Err(_) => Err(DrawFault::NotDrawn),
    }
}

/// A lawful script by the pattern.
fn lawful_sketch(
    alloc: Global,
    pattern: Pattern,
    seed: u64,
    given: GivenSizes,
) -> Result<Script, DrawFault>
    ensures lawful { IfOk result (λ s. IsLawful (plan_of s)) }
    ensures fault { IfErr result (λ e. e ≢ why.Output) }
{
    read_again(alloc, sketch(alloc, pattern, seed, given)?)
}

/// Whether the text tells that no order of turns hangs, and that none races if the pattern promises so.
fn is_as_promised(pattern: Pattern, explored: &Explored) -> bool
    ensures hanging { IsTrue result → explored.now.hanging ≡ hanging.Never }
    ensures verdict { IsTrue result → IsTrue (never_races_by_pattern pattern) → explored.now.verdict ≡ verdict.RaceFree }
{
    let never_races = matches!(explored.verdict, Verdict::RaceFree);
    matches!(explored.hanging, Hanging::Never) && (never_races || !pattern.never_races())
}

/// Whether the script is as its pattern promises by what its text tells, and has the sizes that are given.
fn is_as_asked(pattern: Pattern, given: GivenSizes, script: &Script, explored: &Explored) -> bool
    ensures hanging { IsTrue result → explored.now.hanging ≡ hanging.Never }
    ensures verdict { IsTrue result → IsTrue (never_races_by_pattern pattern) → explored.now.verdict ≡ verdict.RaceFree }
    ensures sizes { IsTrue result → HasGivenSizes pattern given (plan_of script.now) }
{
    is_as_promised(pattern, explored) && given.are_had(pattern, script)
}

/// A script of this pattern: what isn't given of its sizes is drawn, too, by O'Neill's generator PCG XSH RR 64/32. If no sizes
/// are given, the patterns `Guarded` and `Free` are those of `drawing`.
///
/// # Errors
///
/// No such script was drawn, or memory ran out.
pub fn draw(
    alloc: Global,
    pattern: Pattern,
    seed: u64,
    given: GivenSizes,
) -> Result<Script, DrawFault>
    ensures lawful { IfOk result (λ s. IsLawful (plan_of s)) }
    ensures fault { IfErr result (λ e. e ≢ why.Output) }
    // Without sizes it is the script that the stated draws give.
    ensures drawn { given ≡ without_sizes → (style : AStyle) → plain_style pattern ≡ Some style
        → IfOk result (λ s. plan_of s ≡ drawn style (seeded seed)) }
    ensures race_free { IsTrue (never_races_by_pattern pattern) → IfOk result (λ s. NeverRacesFlat (plan_of s)) }
    ensures never_hangs { IfOk result (λ s. NeverHangsFlat (plan_of s)) }
    ensures sizes { IfOk result (λ s. HasGivenSizes pattern given (plan_of s)) }
{
    let script = match (pattern, given.is_none()) {
        (Pattern::Guarded, true) => guarded(alloc, seed)?,
        (Pattern::Free, true) => free(alloc, seed)?,
        _ => lawful_sketch(alloc, pattern, seed, given)?,
    };
    let explored = explore(alloc, &script, Detail::Words, 0, &mut Silent)?;
    if is_as_asked(pattern, given, &script, &explored) {
        Ok(script)
    } else {
        Err(DrawFault::NotDrawn)
    }
}
