//! The section of a processor, by the pattern.

use crate::pattern::Pattern;
use crate::pieces::{Drawer, push_access, push_bare_access, push_guarded, push_load, push_nested};
use crate::shared_pages::push_sharing;
use crate::words::{Class, below};
use lrc_script::script::Instruction;
use rand_pcg::Pcg32;
use std::alloc::{AllocError, Global};

/// A piece of a phase between two barriers: what the processor owns there is its own in this phase alone.
fn push_rotating(
    rng: &mut Pcg32,
    drawer: Drawer,
    phase: u32,
    section: &mut Vec<Instruction>,
) -> Result<(), AllocError> {
    let classes = drawer.sizes.processors.saturating_add(1);
    let is_shared = below(rng, 3) == 0;
    let owner = if is_shared {
        drawer.sizes.processors
    } else {
        drawer.processor
    };
    let class = Class {
        rest: owner.saturating_add(phase) % classes.max(1),
        classes,
    };
    if is_shared {
        push_load(rng, drawer, class, section)
    } else {
        push_access(rng, drawer, class, section)
    }
}

/// A piece of the pattern that may race.
fn push_mixed(
    rng: &mut Pcg32,
    drawer: Drawer,
    section: &mut Vec<Instruction>,
) -> Result<(), AllocError> {
    match below(rng, 4) {
        0 => push_guarded(rng, drawer, section),
        1 => push_nested(rng, drawer, section),
        2 => push_access(rng, drawer, drawer.own(), section),
        _ => push_bare_access(rng, drawer, section),
    }
}

/// A piece of a phase.
fn push_piece(
    rng: &mut Pcg32,
    pattern: Pattern,
    drawer: Drawer,
    phase: u32,
    section: &mut Vec<Instruction>,
) -> Result<(), AllocError> {
    match pattern {
        Pattern::Sharing => push_sharing(rng, drawer, section),
        Pattern::Barriers => push_rotating(rng, drawer, phase, section),
        Pattern::Nested => push_nested(rng, drawer, section),
        Pattern::Free | Pattern::Mixed => push_mixed(rng, drawer, section),
        _ => push_guarded(rng, drawer, section),
    }
}

/// The pieces of a phase.
fn push_phase(
    rng: &mut Pcg32,
    pattern: Pattern,
    drawer: Drawer,
    phase: u32,
    section: &mut Vec<Instruction>,
) -> Result<(), AllocError> {
    for _ in 0..drawer.sizes.length {
        push_piece(rng, pattern, drawer, phase, section)?;
    }
    Ok(())
}

/// Phases with a barrier between two of them.
fn push_phases(
    rng: &mut Pcg32,
    pattern: Pattern,
    drawer: Drawer,
    section: &mut Vec<Instruction>,
) -> Result<(), AllocError> {
    push_phase(rng, pattern, drawer, 0, section)?;
    for phase in 0..drawer.sizes.barriers {
        section.push(Instruction::Barrier)?;
        push_phase(rng, pattern, drawer, phase.saturating_add(1), section)?;
    }
    Ok(())
}

/// How many processors a chain of flags links with the one before them.
fn linked(drawer: Drawer) -> u32 {
    drawer
        .sizes
        .flags
        .min(drawer.sizes.processors.saturating_sub(1))
}

/// A piece of a chain: a word of one's own, or a load of one that an earlier processor owned.
fn push_link(
    rng: &mut Pcg32,
    drawer: Drawer,
    section: &mut Vec<Instruction>,
) -> Result<(), AllocError> {
    let has_heard = drawer.processor > 0 && drawer.processor <= linked(drawer);
    if has_heard && below(rng, 2) == 0 {
        let owner = below(rng, drawer.processor);
        return push_load(rng, drawer, drawer.owned_by(owner), section);
    }
    push_access(rng, drawer, drawer.own(), section)
}

/// Waits for the processor before it, does its pieces, and lets the next one on.
fn push_chain(
    rng: &mut Pcg32,
    drawer: Drawer,
    section: &mut Vec<Instruction>,
) -> Result<(), AllocError> {
    if drawer.processor > 0 && drawer.processor <= linked(drawer) {
        section.push(Instruction::Await((drawer.processor - 1) as usize))?;
    }
    for _ in 0..drawer.sizes.length {
        push_link(rng, drawer, section)?;
    }
    if drawer.processor < linked(drawer) {
        section.push(Instruction::Set(drawer.processor as usize))?;
    }
    Ok(())
}

/// Words of one's own, with a flag set after each; each flag at the end is set by somebody.
fn push_setter(
    rng: &mut Pcg32,
    drawer: Drawer,
    section: &mut Vec<Instruction>,
) -> Result<(), AllocError> {
    for _ in 0..drawer.sizes.length {
        push_access(rng, drawer, drawer.own(), section)?;
        let flag = below(rng, drawer.sizes.flags);
        section.push(Instruction::Set(flag as usize))?;
    }
    for flag in 0..drawer.sizes.flags {
        section.push(Instruction::Set(flag as usize))?;
    }
    Ok(())
}

/// Flags that are awaited, and loads after each.
fn push_awaiter(
    rng: &mut Pcg32,
    drawer: Drawer,
    section: &mut Vec<Instruction>,
) -> Result<(), AllocError> {
    for _ in 0..drawer.sizes.length {
        let flag = below(rng, drawer.sizes.flags);
        section.push(Instruction::Await(flag as usize))?;
        push_load(
            rng,
            drawer,
            Class {
                rest: 0,
                classes: 1,
            },
            section,
        )?;
        push_load(
            rng,
            drawer,
            Class {
                rest: 0,
                classes: 1,
            },
            section,
        )?;
    }
    Ok(())
}

/// The last processor awaits the flags that the others set.
fn push_flags(
    rng: &mut Pcg32,
    drawer: Drawer,
    section: &mut Vec<Instruction>,
) -> Result<(), AllocError> {
    let is_last = drawer.processor.saturating_add(1) == drawer.sizes.processors;
    if is_last && drawer.processor > 0 {
        push_awaiter(rng, drawer, section)
    } else {
        push_setter(rng, drawer, section)
    }
}

/// The last processor does nothing until a barrier at the end, and then all load.
fn push_silence(
    rng: &mut Pcg32,
    drawer: Drawer,
    section: &mut Vec<Instruction>,
) -> Result<(), AllocError> {
    let is_last = drawer.processor.saturating_add(1) == drawer.sizes.processors;
    let pieces = if is_last {
        0
    } else {
        drawer.sizes.length.saturating_mul(3)
    };
    for _ in 0..pieces {
        push_guarded(rng, drawer, section)?;
    }
    section.push(Instruction::Barrier)?;
    for _ in 0..drawer.sizes.length {
        push_load(
            rng,
            drawer,
            Class {
                rest: 0,
                classes: 1,
            },
            section,
        )?;
    }
    Ok(())
}

/// The section of the processor.
pub(crate) fn section(
    alloc: Global,
    rng: &mut Pcg32,
    pattern: Pattern,
    drawer: Drawer,
) -> Result<Vec<Instruction>, AllocError> {
    let mut section = Vec::new(alloc);
    match pattern {
        Pattern::Chains => push_chain(rng, drawer, &mut section)?,
        Pattern::Flags => push_flags(rng, drawer, &mut section)?,
        Pattern::Silences => push_silence(rng, drawer, &mut section)?,
        _ => push_phases(rng, pattern, drawer, &mut section)?,
    }
    Ok(section)
}
