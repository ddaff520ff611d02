//! The pieces of a section: accesses, and critical sections.

use crate::sizes::Sizes;
use crate::words::{Class, access, below, member};
use lrc_script::script::Instruction;
use rand_pcg::Pcg32;
use std::alloc::AllocError;

/// Whose section is drawn, of a script with these sizes.
#[derive(Clone, Copy)]
pub(crate) struct Drawer {
    pub(crate) processor: u32,
    pub(crate) sizes: Sizes,
}

impl Drawer {
    /// The words that this processor owns.
    pub(crate) fn own(self) -> Class {
        self.owned_by(self.processor)
    }

    /// The words that a processor owns.
    pub(crate) fn owned_by(self, processor: u32) -> Class {
        Class {
            rest: processor,
            classes: self.sizes.processors,
        }
    }

    /// The words under a lock.
    fn under(self, lock: u32) -> Class {
        Class {
            rest: lock,
            classes: self.sizes.locks,
        }
    }
}

/// An access of a word of the class, if there is one.
pub(crate) fn push_access(
    rng: &mut Pcg32,
    drawer: Drawer,
    class: Class,
    section: &mut Vec<Instruction>,
) -> Result<(), AllocError> {
    if let Some(address) = member(rng, class, drawer.sizes.addresses()) {
        section.push(access(rng, address))?;
    }
    Ok(())
}

/// A load of a word of the class, if there is one.
pub(crate) fn push_load(
    rng: &mut Pcg32,
    drawer: Drawer,
    class: Class,
    section: &mut Vec<Instruction>,
) -> Result<(), AllocError> {
    if let Some(address) = member(rng, class, drawer.sizes.addresses()) {
        section.push(Instruction::Load(address as usize))?;
    }
    Ok(())
}

/// An access of any word, under no lock of its own.
pub(crate) fn push_bare_access(
    rng: &mut Pcg32,
    drawer: Drawer,
    section: &mut Vec<Instruction>,
) -> Result<(), AllocError> {
    let address = below(rng, drawer.sizes.addresses());
    section.push(access(rng, address))?;
    Ok(())
}

/// One or two accesses of words under one lock.
pub(crate) fn push_guarded(
    rng: &mut Pcg32,
    drawer: Drawer,
    section: &mut Vec<Instruction>,
) -> Result<(), AllocError> {
    let lock = below(rng, drawer.sizes.locks);
    section.push(Instruction::Acquire(lock as usize))?;
    push_access(rng, drawer, drawer.under(lock), section)?;
    if below(rng, 2) == 0 {
        push_access(rng, drawer, drawer.under(lock), section)?;
    }
    section.push(Instruction::Release(lock as usize))?;
    Ok(())
}

/// A critical section, and mostly one within it, under a lock with a greater number.
pub(crate) fn push_nested(
    rng: &mut Pcg32,
    drawer: Drawer,
    section: &mut Vec<Instruction>,
) -> Result<(), AllocError> {
    let outer = below(rng, drawer.sizes.locks);
    let inner = outer.saturating_add(1 + below(rng, 2));
    section.push(Instruction::Acquire(outer as usize))?;
    push_access(rng, drawer, drawer.under(outer), section)?;
    if inner < drawer.sizes.locks {
        section.push(Instruction::Acquire(inner as usize))?;
        push_access(rng, drawer, drawer.under(inner), section)?;
        section.push(Instruction::Release(inner as usize))?;
        push_access(rng, drawer, drawer.under(outer), section)?;
    }
    section.push(Instruction::Release(outer as usize))?;
    Ok(())
}
