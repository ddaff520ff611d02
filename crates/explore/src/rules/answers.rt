//! What a load that comes next may answer.
ghost use Rattle.std.specs.Prelude.{◌≡◌, ◌↔◌, ◌<◌, ◌⊎◌, ℕ, IfOk, IsTrue, List, OnOk, length};
ghost use Rattle.base.specs.InOrderOnce.{Has, IsOnce};
ghost use Rattle.journal.specs.declared.event.Event.{Event as AnEvent};
ghost use Rattle.journal.specs.declared.event.Kind.TheVariants.{Load};
ghost use Rattle.journal.specs.ExplainedAnswers.{IsAnswer};
ghost use Rattle.journal.specs.Prelude.{did};
ghost use Rattle.judge.specs.Prelude.{AreKeptStoresOf};
ghost use Rattle.lrc_script.specs.Prelude.{IsLawful, plan_of};
ghost use Rattle.lrc_script.specs.Lawful.{plan_addresses};
ghost use Rattle.explore.specs.AllowedRuns.{IsAllowedRunBeginning};
ghost use Rattle.explore.specs.AllowedAnswers.{AreAllowedAnswersOf, HasAllowedAnswerMore};

use journal::Event;
use judge::{FlatStore, KeptStores};
use lrc_script::script::Script;
use std::alloc::{AllocError, Global};

/// Which stores a load may answer after these events. The only error is running out of memory.
pub fn answer_sources(
    alloc: Global,
    script: &Script,
    events: &[Event],
) -> Result<KeptStores, AllocError>
    requires lawful { IsLawful (plan_of script.now) }
    requires allowed { IsAllowedRunBeginning (plan_of script.now) events.now }
    ensures tells { IfOk result (AreKeptStoresOf events.now) }
    ensures processors { IfOk result (λ x. x.processors ≡ script.now.processors) }
    ensures addresses { IfOk result (λ x. x.addresses ≡ plan_addresses (plan_of script.now)) }
{
    let mut sources = KeptStores::new(alloc, script.processors, script.pages * script.words)?;
    for place in 0..events.len() {
        sources.note(events[place])?;
    }
    Ok(sources)
}

/// Whether the value is among these answers.
fn has_answer(answers: &[u32], value: u32) -> bool
    ensures { IsTrue result ↔ Has answers.now value }
{
    for answer in answers {
        if *answer == value {
            return true;
        }
    }
    false
}

/// Adds an answer, if it is a new one.
fn add_answer(answers: &mut Vec<u32>, value: u32) -> Result<(), AllocError>
    ensures { OnOk result (HasAllowedAnswerMore answers.old.items answers.new.items value) }
{
    if !has_answer(answers, value) {
        answers.push(value)?;
    }
    Ok(())
}

/// The values of these stores, each once.
fn answers_of_stores(alloc: Global, stores: &[FlatStore]) -> Result<Vec<u32>, AllocError>
    ensures { IfOk result (λ v. AreAllowedAnswersOf stores.now v.items) }
{
    let mut answers = Vec::new(alloc);
    for store in stores {
        add_answer(&mut answers, store.value)?;
    }
    Ok(answers)
}

/// What a load of the address by this processor may answer if it comes next: each value of a latest store of its past, or 0 if its
/// past has none; each once. The only error is running out of memory.
pub fn answers_of_load(
    alloc: Global,
    sources: &KeptStores,
    processor: usize,
    address: usize,
) -> Result<Vec<u32>, AllocError>
    requires tells { (j : List AnEvent) × AreKeptStoresOf j sources.now }
    requires processor { processor < sources.now.processors }
    requires address { address < sources.now.addresses }
    ensures once { IfOk result (λ v. IsOnce v.items) }
    ensures each { IfOk result (λ v. (j : List AnEvent) → AreKeptStoresOf j sources.now → (x : ℕ) → Has v.items x
        ↔ IsAnswer (did j processor (Load address x)) (length j) address x) }
{
    let latest = sources.latest(alloc, processor, address)?;
    let mut answers = answers_of_stores(alloc, &latest)?;
    if answers.is_empty() {
        answers.push(0)?;
    }
    Ok(answers)
}
