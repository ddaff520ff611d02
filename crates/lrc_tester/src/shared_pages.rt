//! Pages on which words under locks and words of one processor lie side by side: even addresses are under a lock, odd ones
//! have an owner.

use crate::pieces::Drawer;
use crate::words::{Class, access, below, member};
use lrc_script::script::Instruction;
use rand_pcg::Pcg32;
use std::alloc::AllocError;

/// An access of a word of one's own.
fn push_own(
    rng: &mut Pcg32,
    drawer: Drawer,
    section: &mut Vec<Instruction>,
) -> Result<(), AllocError> {
    if let Some(pair) = member(rng, drawer.own(), drawer.sizes.addresses() / 2) {
        let address = pair.saturating_mul(2).saturating_add(1);
        section.push(access(rng, address))?;
    }
    Ok(())
}

/// An access of a word under the lock.
fn push_under(
    rng: &mut Pcg32,
    drawer: Drawer,
    lock: u32,
    section: &mut Vec<Instruction>,
) -> Result<(), AllocError> {
    let class = Class {
        rest: lock,
        classes: drawer.sizes.locks,
    };
    if let Some(pair) = member(rng, class, drawer.sizes.addresses().div_ceil(2)) {
        section.push(access(rng, pair.saturating_mul(2)))?;
    }
    Ok(())
}

/// An access of a word of one's own, or a critical section, now and then with such an access within it.
pub(crate) fn push_sharing(
    rng: &mut Pcg32,
    drawer: Drawer,
    section: &mut Vec<Instruction>,
) -> Result<(), AllocError> {
    let kind = below(rng, 3);
    if kind == 0 {
        return push_own(rng, drawer, section);
    }
    let lock = below(rng, drawer.sizes.locks);
    section.push(Instruction::Acquire(lock as usize))?;
    push_under(rng, drawer, lock, section)?;
    if kind == 1 {
        push_own(rng, drawer, section)?;
    }
    section.push(Instruction::Release(lock as usize))?;
    Ok(())
}
