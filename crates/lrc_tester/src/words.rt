//! Numbers, addresses and accesses that are drawn.
ghost use Rattle.std.specs.Prelude.{◌<◌};

use lrc_script::script::Instruction;
use rand_core::utils::NextWord;
use rand_pcg::Pcg32;

/// Some of the addresses: those that leave this rest if they are divided by the number of classes.
#[derive(Clone, Copy)]
pub(crate) struct Class {
    pub(crate) rest: u32,
    pub(crate) classes: u32,
}

/// Draws a number below the bound; 0 if that is 0.
pub(crate) fn below(rng: &mut Pcg32, bound: u32) -> u32
    ensures { (0 < bound) → result < bound }
{
    rng.next_word() % bound.max(1)
}

/// Draws a number of the class below the bound, if there is one.
pub(crate) fn member(rng: &mut Pcg32, class: Class, bound: u32) -> Option<u32> {
    if class.rest >= bound {
        return None;
    }
    let more = (bound - 1 - class.rest) / class.classes.max(1);
    let chosen = below(rng, more.saturating_add(1));
    Some(
        class
            .rest
            .saturating_add(class.classes.saturating_mul(chosen)),
    )
}

/// A value that is mostly stored once, so that a load tells which store it returns.
fn value(rng: &mut Pcg32) -> u32 {
    1 + below(rng, 999)
}

/// A load, a store or an addition at this address.
pub(crate) fn access(rng: &mut Pcg32, address: u32) -> Instruction {
    match below(rng, 3) {
        0 => Instruction::Load(address as usize),
        1 => Instruction::Store(address as usize, value(rng)),
        _ => Instruction::Add(address as usize, value(rng)),
    }
}
