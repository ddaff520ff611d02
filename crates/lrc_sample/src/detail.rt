//! How much of a run its outcome tells.
ghost use Rattle.std.specs.Prelude.{◌≡◌, ◌++◌, IfOk, option_to_list, slice_index_or};
ghost use Rattle.lrc_script.specs.Prelude.{plan_of};
ghost use Rattle.lrc_sample.specs.Prelude.{sample_mark_of, sample_marks_of, sample_section};

use lrc_script::script::{Instruction, Script};
use std::alloc::{AllocError, Global};

/// How much of a run its outcome tells.
#[derive(Clone, Copy, Debug, PartialEq, Eq)]
pub enum SampleDetail {
    /// The shown words at the end.
    Words,
    /// Those, and what each instruction `load` answered.
    Loads,
    /// Those, and what each `add` loaded, too.
    All,
}

impl SampleDetail {
    /// Whether the reply of an instruction is told, if it loads. In least detail no reply is, so nothing is said of any.
    fn mark(self, instruction: Instruction) -> Option<bool>
        ensures { option_to_list result ≡ sample_mark_of self instruction }
    {
        match (self, instruction) {
            (SampleDetail::Words, _) => None,
            (_, Instruction::Load(_)) => Some(true),
            (SampleDetail::Loads, Instruction::Add(_, _)) => Some(false),
            (SampleDetail::All, Instruction::Add(_, _)) => Some(true),
            _ => None,
        }
    }

    /// The same of each load of a section, in order. The only error is running out of memory.
    pub(crate) fn marks(
        self,
        alloc: Global,
        section: &[Instruction],
    ) -> Result<Vec<bool>, AllocError>
        ensures { IfOk result (λ v. v.items ≡ sample_marks_of self section.now) }
    {
        let mut marks = Vec::new(alloc);
        for instruction in section {
            if let Some(mark) = self.mark(*instruction) {
                marks.push(mark)?;
            }
        }
        Ok(marks)
    }
}

/// The processor's section.
pub(crate) fn sample_section(script: &Script, processor: usize) -> &[Instruction]
    ensures { result.now ≡ sample_section (plan_of script.now) processor }
{
    match script.sections.get(processor) {
        Some(section) => section,
        None => &[],
    }
}
