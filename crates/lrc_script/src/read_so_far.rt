//! How far a script is read, and what each line adds.
ghost use Rattle.std.specs.Prelude.{◌≡◌, ◌≢◌, ℕ, ◌≤◌, ◌<◌, nat_le, [], length, Some, IfOk, IfErr, OnOk};
ghost use Rattle.std.specs.Prelude.{IfSome, IfNone};
ghost use Rattle.std.specs.List.{list_any};
ghost use Rattle.base.specs.Prelude.{most_locks};
ghost use Rattle.lrc_script.specs.Prelude.{Plan, plan_of, IsScriptFrontLawful, Headed, Within, Whole, plan_addresses, LineReadGives, LineReadFails};
ghost use Rattle.lrc_script.specs.Prelude.{LineReadGoesTo, IsOtherLineRead, line_read_front, is_read_line_due, is_line_read_with, are_line_read_sizes, line_read_cluster, line_read_first_section};
ghost use Rattle.lrc_script.specs.Prelude.{line_read_next_section, line_read_shown, line_read_as_instruction, is_line_read_past, line_read_refusal, line_read_with_instruction};
ghost use Rattle.lrc_script.specs.Prelude.{line_read_step, line_read_after_numbers, line_read_after};

use crate::fault::ScriptFault;
use crate::line::{
    LineKeyword, few_numbers, is_script_line_separated, number_count, read_numbers,
    split_script_line_at,
};
use crate::script::{Instruction, MOST_INSTRUCTIONS, MOST_SHOWN, Script};
use crate::section::Section;
use base::{MOST_FLAGS, MOST_LOCKS, MOST_PAGES, MOST_PROCESSORS, MOST_WORDS};
use std::alloc::{AllocError, Global};
use std::mem;

/// The lines of a script that were read.
#[derive(Drop)]
pub enum ReadSoFar {
    /// No line.
    Start,
    /// The `cluster` line.
    Headed(Script),
    /// The `cluster` line, the script's sections and the beginning of one more.
    Within(Script, Section),
    /// All lines.
    Whole(Script),
}

fn takes(keyword: LineKeyword, numbers: usize) -> bool
    ensures { result ≡ is_line_read_with keyword numbers }
{
    match keyword {
        LineKeyword::Store | LineKeyword::Add => numbers == 2,
        LineKeyword::Load
        | LineKeyword::Acquire
        | LineKeyword::Release
        | LineKeyword::Set
        | LineKeyword::Await => numbers == 1,
        LineKeyword::Barrier | LineKeyword::Cut => numbers == 0,
        LineKeyword::Cluster | LineKeyword::Section | LineKeyword::Show => false,
    }
}

fn are_sizes(script: &Script) -> bool
    ensures { result ≡ are_line_read_sizes (plan_of script.now) }
{
    1 <= script.processors
        && script.processors <= MOST_PROCESSORS
        && 1 <= script.pages
        && script.pages <= MOST_PAGES
        && 1 <= script.words
        && script.words <= MOST_WORDS
        && script.locks <= MOST_LOCKS
        && script.flags <= MOST_FLAGS
}

fn instruction(keyword: LineKeyword, numbers: &[u32]) -> Option<Instruction>
    ensures { result ≡ line_read_as_instruction keyword numbers.now }
{
    match (keyword, numbers) {
        (LineKeyword::Load, [a]) => Some(Instruction::Load(*a as usize)),
        (LineKeyword::Store, [a, v]) => Some(Instruction::Store(*a as usize, *v)),
        (LineKeyword::Add, [a, v]) => Some(Instruction::Add(*a as usize, *v)),
        (LineKeyword::Acquire, [l]) => Some(Instruction::Acquire(*l as usize)),
        (LineKeyword::Release, [l]) => Some(Instruction::Release(*l as usize)),
        (LineKeyword::Barrier, []) => Some(Instruction::Barrier),
        (LineKeyword::Set, [f]) => Some(Instruction::Set(*f as usize)),
        (LineKeyword::Await, [f]) => Some(Instruction::Await(*f as usize)),
        (LineKeyword::Cut, []) => Some(Instruction::Cut),
        _ => None,
    }
}

fn is_past(place: Option<usize>, count: usize) -> bool
    ensures { result ≡ is_line_read_past place count }
{
    place.is_some_and(|place| place >= count)
}

/// Why an instruction can't stand after those of the section.
fn refusal(script: &Script, section: &Section, instruction: Instruction) -> Option<ScriptFault>
    requires fits { plan_addresses (plan_of script.now) ≤ 4096 }
    requires locks { script.now.locks ≤ most_locks }
    ensures { result ≡ line_read_refusal (plan_of script.now) section.now.instructions.items instruction }
{
    if is_past(instruction.address(), script.pages * script.words) {
        return Some(ScriptFault::OutOfRange);
    }
    if is_past(instruction.lock(), script.locks) {
        return Some(ScriptFault::BadLock);
    }
    if is_past(instruction.flag(), script.flags) {
        return Some(ScriptFault::BadFlag);
    }
    match instruction {
        Instruction::Acquire(lock) if section.holds(lock) => Some(ScriptFault::AlreadyHeld),
        Instruction::Release(lock) if !section.holds(lock) => Some(ScriptFault::NotHeld),
        _ if section.instructions.len() >= MOST_INSTRUCTIONS => Some(ScriptFault::TooLong),
        _ => None,
    }
}

/// The script of a `cluster` line with these numbers.
fn read_head(alloc: Global, numbers: &[u32]) -> Result<Script, ScriptFault>
    ensures { LineReadGives (λ s. Headed (plan_of s)) result (line_read_cluster numbers.now) }
{
    let (processors, pages, words, locks, flags) = match numbers {
        [p, n, w, l] => (*p, *n, *w, *l, 0),
        [_, _, _, _, 0] => return Err(ScriptFault::BadSize),
        [p, n, w, l, g] => (*p, *n, *w, *l, *g),
        _ => return Err(ScriptFault::BadLine),
    };
    let script = Script {
        processors: processors as usize,
        pages: pages as usize,
        words: words as usize,
        locks: locks as usize,
        flags: flags as usize,
        sections: Vec::new(alloc),
        shown: Vec::new(alloc),
    };
    if !are_sizes(&script) {
        return Err(ScriptFault::BadSize);
    }
    Ok(script)
}

fn read_first_section(
    alloc: Global,
    script: Script,
    numbers: &[u32],
) -> Result<ReadSoFar, ScriptFault>
    ensures { LineReadGives line_read_front result (line_read_first_section (plan_of script) numbers.now) }
{
    match numbers {
        [0] => Ok(ReadSoFar::Within(script, Section::new(alloc))),
        _ => Err(ScriptFault::BadLine),
    }
}

fn read_next_section(
    alloc: Global,
    mut script: Script,
    section: Section,
    numbers: &[u32],
) -> Result<ReadSoFar, ScriptFault>
    ensures { LineReadGives line_read_front result (line_read_next_section (plan_of script) section.instructions.items
        numbers.now) }
{
    match numbers {
        [k] if *k as usize == script.sections.len() + 1 && (*k as usize) < script.processors => {
            script.sections.push(section.instructions)?;
            Ok(ReadSoFar::Within(script, Section::new(alloc)))
        }
        _ => Err(ScriptFault::BadLine),
    }
}

fn any_past(numbers: &[u32], count: usize) -> bool
    ensures { result ≡ list_any (λ place. nat_le count place) numbers.now }
{
    numbers.iter().any(|place| *place as usize >= count)
}

fn places_read_so_far(alloc: Global, numbers: &[u32]) -> Result<Vec<usize>, AllocError>
    ensures { IfOk result (λ places. places.items ≡ numbers.now) }
{
    numbers.iter().map(|place| *place as usize).collect(alloc)
}

fn show(
    alloc: Global,
    mut script: Script,
    section: Section,
    numbers: &[u32],
) -> Result<ReadSoFar, ScriptFault>
    requires { plan_addresses (plan_of script) ≤ 4096 }
    ensures { LineReadGives line_read_front result (line_read_shown (plan_of script) section.instructions.items numbers.now) }
{
    if any_past(numbers, script.pages * script.words) {
        return Err(ScriptFault::OutOfRange);
    }
    if numbers.len() > MOST_SHOWN {
        return Err(ScriptFault::TooLong);
    }
    script.sections.push(section.instructions)?;
    script.shown = places_read_so_far(alloc, numbers)?;
    Ok(ReadSoFar::Whole(script))
}

fn add(script: &Script, section: &mut Section, instruction: Instruction) -> Result<(), ScriptFault>
    requires fits { plan_addresses (plan_of script.now) ≤ 4096 }
    requires locks { script.now.locks ≤ most_locks }
    ensures ok { OnOk result (LineReadGoesTo (Within (plan_of script.now) section.new.instructions.items)
        (line_read_with_instruction (plan_of script.now) section.old.instructions.items (Some instruction))) }
    ensures err { IfErr result (λ e. LineReadFails e
        (line_read_with_instruction (plan_of script.now) section.old.instructions.items (Some instruction))) }
{
    match refusal(script, section, instruction) {
        Some(fault) => Err(fault),
        None => section.push(instruction),
    }
}

impl ReadSoFar {
    /// Whether a line with this keyword and that many numbers is allowed at this point.
    fn is_due(&self, keyword: LineKeyword, numbers: usize) -> bool
        ensures { result ≡ is_read_line_due (line_read_front self.now) keyword numbers }
    {
        match (self, keyword) {
            (ReadSoFar::Start, LineKeyword::Cluster) => numbers == 4 || numbers == 5,
            (ReadSoFar::Headed(_) | ReadSoFar::Within(..), LineKeyword::Section) => numbers == 1,
            (ReadSoFar::Within(script, _), LineKeyword::Show) => {
                numbers >= 1 && script.sections.len() + 1 == script.processors
            }
            (ReadSoFar::Within(..), _) => takes(keyword, numbers),
            _ => false,
        }
    }

    /// What a line of this keyword and these numbers, no instruction of a section, makes of it.
    #[tactic(auto, unfolding(crate::specs::LineReading::line_read_step))]
    fn next(
        self,
        alloc: Global,
        keyword: LineKeyword,
        numbers: &[u32],
    ) -> Result<ReadSoFar, ScriptFault>
        requires begun { IsScriptFrontLawful (line_read_front self) }
        requires other { IsOtherLineRead (line_read_front self) keyword numbers.now }
        ensures { LineReadGives line_read_front result (line_read_step (line_read_front self) keyword numbers.now) }
    {
        match self {
            ReadSoFar::Start => Ok(ReadSoFar::Headed(read_head(alloc, numbers)?)),
            ReadSoFar::Headed(script) => read_first_section(alloc, script, numbers),
            ReadSoFar::Within(script, section) => match keyword {
                LineKeyword::Section => read_next_section(alloc, script, section, numbers),
                LineKeyword::Show => show(alloc, script, section, numbers),
                _ => Err(ScriptFault::BadLine),
            },
            ReadSoFar::Whole(_) => Err(ScriptFault::BadLine),
        }
    }

    /// Goes on by such a line.
    fn go_on(
        &mut self,
        alloc: Global,
        keyword: LineKeyword,
        numbers: &[u32],
    ) -> Result<(), ScriptFault>
        requires begun { IsScriptFrontLawful (line_read_front self.old) }
        requires other { IsOtherLineRead (line_read_front self.old) keyword numbers.now }
        ensures ok { OnOk result (LineReadGoesTo (line_read_front self.new)
            (line_read_step (line_read_front self.old) keyword numbers.now)) }
        ensures err { IfErr result (λ e. LineReadFails e (line_read_step (line_read_front self.old) keyword numbers.now)) }
    {
        *self = mem::replace(self, ReadSoFar::Start).next(alloc, keyword, numbers)?;
        Ok(())
    }

    /// Goes on by a line of this keyword and these numbers. An instruction is added where it belongs.
    fn step(
        &mut self,
        alloc: Global,
        keyword: LineKeyword,
        numbers: &[u32],
    ) -> Result<(), ScriptFault>
        requires { IsScriptFrontLawful (line_read_front self.old) }
        ensures ok { OnOk result (LineReadGoesTo (line_read_front self.new)
            (line_read_step (line_read_front self.old) keyword numbers.now)) }
        ensures err { IfErr result (λ e. LineReadFails e (line_read_step (line_read_front self.old) keyword numbers.now)) }
    {
        match self {
            ReadSoFar::Within(script, section) => match instruction(keyword, numbers) {
                Some(instruction) => add(script, section, instruction),
                None => self.go_on(alloc, keyword, numbers),
            },
            _ => self.go_on(alloc, keyword, numbers),
        }
    }

    /// Goes on by a line of this keyword, if it is one, and these numbers.
    #[tactic(auto, unfolding(crate::specs::LineReading::line_read_after_numbers))]
    fn after_numbers(
        &mut self,
        alloc: Global,
        keyword: Option<LineKeyword>,
        numbers: &[u32],
    ) -> Result<(), ScriptFault>
        requires { IsScriptFrontLawful (line_read_front self.old) }
        ensures ok { OnOk result (LineReadGoesTo (line_read_front self.new)
            (line_read_after_numbers (line_read_front self.old) keyword numbers.now)) }
        ensures err { IfErr result (λ e. LineReadFails e
            (line_read_after_numbers (line_read_front self.old) keyword numbers.now)) }
    {
        match keyword {
            Some(keyword) if self.is_due(keyword, numbers.len()) => {
                self.step(alloc, keyword, numbers)
            }
            _ => Err(ScriptFault::BadLine),
        }
    }

    /// Goes on by a line of any form, with one pass for each question.
    #[tactic(auto, unfolding(crate::specs::LineReading::line_read_after_keyword))]
    fn after_any(&mut self, alloc: Global, line: &[u8]) -> Result<(), ScriptFault>
        requires { IsScriptFrontLawful (line_read_front self.old) }
        ensures ok { OnOk result (LineReadGoesTo (line_read_front self.new) (line_read_after (line_read_front self.old) line.now)) }
        ensures err { IfErr result (λ e. LineReadFails e (line_read_after (line_read_front self.old) line.now)) }
    {
        if !is_script_line_separated(line) {
            return Err(ScriptFault::BadLine);
        }
        let (word, words) = split_script_line_at(line, b' ');
        let Some(keyword) = LineKeyword::of(word) else {
            return Err(ScriptFault::BadLine);
        };
        if !self.is_due(keyword, number_count(words)) {
            return Err(ScriptFault::BadLine);
        }
        let numbers = read_numbers(alloc, words)?;
        self.step(alloc, keyword, numbers.as_slice())
    }

    /// Goes on by a line, which is handed in without its line feed. Each word of a line with two numbers at
    /// most is gone through once. After an error nothing is said of what was read.
    pub fn after(&mut self, alloc: Global, line: &[u8]) -> Result<(), ScriptFault>
        requires { IsScriptFrontLawful (line_read_front self.old) }
        ensures ok { OnOk result (LineReadGoesTo (line_read_front self.new) (line_read_after (line_read_front self.old) line.now)) }
        ensures err { IfErr result (λ e. LineReadFails e (line_read_after (line_read_front self.old) line.now)) }
    {
        let (word, words) = split_script_line_at(line, b' ');
        match few_numbers(words) {
            Some(numbers) => self.after_numbers(alloc, LineKeyword::of(word), numbers.as_slice()),
            None => self.after_any(alloc, line),
        }
    }

    /// The sizes, if the `cluster` line was read and nothing more.
    pub fn headed(self) -> Option<Script>
        ensures found { IfSome result (λ s. line_read_front self ≡ Headed (plan_of s)) }
        ensures none { IfNone result ((s : Plan) → line_read_front self ≢ Headed s) }
    {
        match self {
            ReadSoFar::Headed(script) => Some(script),
            _ => None,
        }
    }

    /// The script, if all its lines were read and nothing is left.
    pub fn whole(self, rest: &[u8]) -> Option<Script>
        ensures found { IfSome result (λ s. (line_read_front self ≡ Whole (plan_of s)) × (rest.now ≡ [])) }
        ensures none { IfNone result ((s : Plan) → line_read_front self ≡ Whole s → 0 < length rest.now) }
    {
        match self {
            ReadSoFar::Whole(script) if rest.is_empty() => Some(script),
            _ => None,
        }
    }
}
