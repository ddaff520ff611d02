//! Scripts drawn from a generator, to run under many schedules.
ghost use Rattle.std.specs.Prelude.{◌≡◌, ◌+◌, ◌*◌, ◌<◌, ◌≤◌, ◌++◌, IfOk, OnOk};
ghost use Rattle.std.specs.List.{range_with_len};
ghost use Rattle.lrc_script.specs.Prelude.{plan_sections, plan_of, IsLawful};
ghost use Rattle.lrc_tester.specs.Drawing.Prelude.{below, shape, group, access, item, piece};
ghost use Rattle.lrc_tester.specs.Drawing.Prelude.{pieces, most_pieces, phase, more_phases, section, drawn_sections, drawn};
ghost use Rattle.lrc_tester.specs.Drawing.Prelude.{seeded, IsShape};
ghost use Rattle.lrc_tester.specs.declared.drawing.draw.Style.TheVariants as style;

use lrc_script::script::{Instruction, Script};
use rand_core::SeedableRng;
use rand_core::utils::NextWord;
use rand_pcg::Pcg32;
use std::alloc::{AllocError, Global};

/// What a phase is drawn of.
#[derive(Clone, Copy)]
pub enum Style {
    /// Additions, each under the lock of its address.
    Guarded,
    /// Loads, stores and additions, some of them under a lock.
    Free,
}

/// The sizes of a drawn script, and how many barriers each section has.
#[derive(Clone, Copy)]
pub struct DrawSizes {
    pub processors: u32,
    pub pages: u32,
    pub words: u32,
    pub locks: u32,
    pub barriers: u32,
}

fn below(rng: &mut Pcg32, bound: u32) -> u32
    requires { 0 < bound }
    ensures value { result ≡ (below bound rng.old).0 }
    ensures state { rng.new ≡ (below bound rng.old).1 }
    ensures bound { result < bound }
{
    rng.next_word() % bound
}

fn draw_shape(rng: &mut Pcg32) -> DrawSizes
    ensures value { result ≡ (shape rng.old).0 }
    ensures state { rng.new ≡ (shape rng.old).1 }
    ensures small { IsShape result }
{
    DrawSizes {
        processors: 1 + below(rng, 4),
        pages: 1 + below(rng, 3),
        words: 1 + below(rng, 4),
        locks: 1 + below(rng, 3),
        barriers: below(rng, 3),
    }
}

fn group(
    rng: &mut Pcg32,
    shape: DrawSizes,
    section: &mut Vec<Instruction>,
) -> Result<(), AllocError>
    requires { IsShape shape }
    ensures items { OnOk result (section.new.items ≡ section.old.items ++ (group shape rng.old).0) }
    ensures state { OnOk result (rng.new ≡ (group shape rng.old).1) }
{
    let address = below(rng, shape.pages * shape.words);
    let value = below(rng, 8);
    let lock = (address % shape.locks) as usize;
    section.push(Instruction::Acquire(lock))?;
    section.push(Instruction::Add(address as usize, value))?;
    section.push(Instruction::Release(lock))?;
    Ok(())
}

fn access(rng: &mut Pcg32, kind: u32, address: usize) -> Instruction
    ensures value { result ≡ (access kind address rng.old).0 }
    ensures state { rng.new ≡ (access kind address rng.old).1 }
{
    if kind < 2 {
        return Instruction::Load(address);
    }
    let value = below(rng, 8);
    if kind < 4 {
        Instruction::Store(address, value)
    } else {
        Instruction::Add(address, value)
    }
}

fn item(rng: &mut Pcg32, shape: DrawSizes, section: &mut Vec<Instruction>) -> Result<(), AllocError>
    requires { IsShape shape }
    ensures items { OnOk result (section.new.items ≡ section.old.items ++ (item shape rng.old).0) }
    ensures state { OnOk result (rng.new ≡ (item shape rng.old).1) }
{
    let kind = below(rng, 6);
    if kind == 5 {
        return group(rng, shape, section);
    }
    let address = below(rng, shape.pages * shape.words) as usize;
    let instruction = access(rng, kind, address);
    section.push(instruction)?;
    Ok(())
}

fn piece(
    rng: &mut Pcg32,
    style: Style,
    shape: DrawSizes,
    section: &mut Vec<Instruction>,
) -> Result<(), AllocError>
    requires { IsShape shape }
    ensures items { OnOk result (section.new.items
        ≡ section.old.items ++ (piece style shape rng.old).0) }
    ensures state { OnOk result (rng.new ≡ (piece style shape rng.old).1) }
{
    match style {
        Style::Guarded => group(rng, shape, section),
        Style::Free => item(rng, shape, section),
    }
}

fn most_pieces(style: Style) -> u32
    ensures { result ≡ most_pieces style }
{
    match style {
        Style::Guarded => 5,
        Style::Free => 9,
    }
}

fn phase(
    rng: &mut Pcg32,
    style: Style,
    shape: DrawSizes,
    section: &mut Vec<Instruction>,
) -> Result<(), AllocError>
    requires { IsShape shape }
    ensures items { OnOk result (section.new.items
        ≡ section.old.items ++ (phase style shape rng.old).0) }
    ensures state { OnOk result (rng.new ≡ (phase style shape rng.old).1) }
{
    let count = below(rng, most_pieces(style));
    for _ in 0..count {
        piece(rng, style, shape, section)?;
    }
    Ok(())
}

fn section(
    alloc: Global,
    rng: &mut Pcg32,
    style: Style,
    shape: DrawSizes,
) -> Result<Vec<Instruction>, AllocError>
    requires { IsShape shape }
    ensures items { IfOk result (λ v. v.items ≡ (section style shape rng.old).0) }
    ensures state { OnOk result (rng.new ≡ (section style shape rng.old).1) }
{
    let mut section = Vec::new(alloc);
    phase(rng, style, shape, &mut section)?;
    for _ in 0..shape.barriers {
        section.push(Instruction::Barrier)?;
        phase(rng, style, shape, &mut section)?;
    }
    Ok(section)
}

fn sections(
    alloc: Global,
    rng: &mut Pcg32,
    style: Style,
    shape: DrawSizes,
) -> Result<Vec<Vec<Instruction>>, AllocError>
    requires { IsShape shape }
    ensures { IfOk result (λ v. plan_sections v.items
        ≡ (drawn_sections shape.processors style shape rng.old).0) }
{
    let mut sections = Vec::new(alloc);
    for _ in 0..shape.processors {
        sections.push(section(alloc, rng, style, shape)?)?;
    }
    Ok(sections)
}

fn all_addresses(alloc: Global, count: usize) -> Result<Vec<usize>, AllocError>
    ensures { IfOk result (λ v. v.items ≡ range_with_len 0 count) }
{
    (0..count).collect(alloc)
}

fn script(alloc: Global, style: Style, seed: u64) -> Result<Script, AllocError>
    ensures { IfOk result (λ s. plan_of s ≡ drawn style (seeded seed)) }
{
    let mut rng = Pcg32::seed_from_u64(seed);
    let shape = draw_shape(&mut rng);
    let sections = sections(alloc, &mut rng, style, shape)?;
    let shown = all_addresses(alloc, (shape.pages * shape.words) as usize)?;
    Ok(Script {
        processors: shape.processors as usize,
        pages: shape.pages as usize,
        words: shape.words as usize,
        locks: shape.locks as usize,
        flags: 0,
        sections,
        shown,
    })
}

/// A script of additions, each under the lock of its address, drawn from the number by O'Neill's generator
/// PCG XSH RR 64/32. All addresses are shown.
///
/// # Errors
///
/// Memory ran out.
pub fn guarded(alloc: Global, seed: u64) -> Result<Script, AllocError>
    ensures drawn { IfOk result (λ s. plan_of s ≡ drawn style.Guarded (seeded seed)) }
    ensures lawful { IfOk result (λ s. IsLawful (plan_of s)) }
{
    script(alloc, Style::Guarded, seed)
}

/// A script of loads, stores and additions, some of them under a lock, drawn from the number by O'Neill's
/// generator PCG XSH RR 64/32. All addresses are shown.
///
/// # Errors
///
/// Memory ran out.
pub fn free(alloc: Global, seed: u64) -> Result<Script, AllocError>
    ensures drawn { IfOk result (λ s. plan_of s ≡ drawn style.Free (seeded seed)) }
    ensures lawful { IfOk result (λ s. IsLawful (plan_of s)) }
{
    script(alloc, Style::Free, seed)
}
