//! A section of a script while it is read.

ghost use Rattle.std.specs.Prelude.{◌≡◌, ℕ, ◌<◌, false, slice_index_or};
ghost use Rattle.base.specs.Limits.{most_locks};
ghost use Rattle.lrc_script.specs.Lawful.{holds};

use crate::fault::ScriptFault;
use crate::script::Instruction;
use base::MOST_LOCKS;
use std::alloc::Global;

/// The instructions of a section so far, and which locks it holds after them.
#[derive(Drop)]
pub struct Section {
    pub instructions: Vec<Instruction>,
    held: [bool; MOST_LOCKS],
    ghost follows: { (l : ℕ) → l < most_locks → slice_index_or held l false ≡ holds instructions.items l },
}

impl Section {
    ghost use Rattle.std.specs.Prelude.{[], ◌∷◌, ◌++◌, OnOk, IfErr};
    ghost use Rattle.lrc_script.specs.declared.fault.ScriptFault.TheVariants.{NoMemory};

    pub fn new(alloc: Global) -> Section
        ensures { result.instructions.items ≡ [] }
    {
        Section {
            instructions: Vec::new(alloc),
            held: [false; MOST_LOCKS],
        }
    }

    /// Whether the section holds the lock.
    pub fn holds(&self, lock: usize) -> bool
        requires { lock < most_locks }
        ensures { result ≡ holds self.now.instructions.items lock }
    {
        self.held[lock]
    }

    /// Adds an instruction.
    pub fn push(&mut self, instruction: Instruction) -> Result<(), ScriptFault>
        ensures ok { OnOk result (self.new.instructions.items
            ≡ self.old.instructions.items ++ instruction ∷ []) }
        ensures err { IfErr result (λ e. e ≡ NoMemory) }
    {
        self.instructions.push(instruction)?;
        match instruction {
            Instruction::Acquire(lock) if lock < MOST_LOCKS => self.held[lock] = true,
            Instruction::Release(lock) if lock < MOST_LOCKS => self.held[lock] = false,
            _ => {}
        }
        Ok(())
    }
}
