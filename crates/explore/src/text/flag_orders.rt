//! What a walk through a script's text knows of the order of two accesses by the script's flags.
//!
//! No contract speaks of it: it chooses which accesses of a word are told.
ghost use Rattle.std.specs.Prelude.{◌<◌, OnOk, length};
ghost use Rattle.lrc_script.specs.Prelude.{plan_of};
ghost use Rattle.explore.specs.Machines.{AreLawfulMachineSteps};
ghost use Rattle.explore.specs.TextWalks.{IsTextWalk};

use crate::prefixes::ScriptCall;
use crate::text::text_accesses::TextAccess;
use crate::text::walk::TextWalk;
use crate::text::walked_rows::{StepsMade, WalkedRow};
use base::MOST_PROCESSORS;
use journal::Kind;
use lrc_script::script::Script;
use std::alloc::{AllocError, Global};

/// Where a processor has awaited a flag, and what was made whenever it is past there.
#[derive(Clone, Copy)]
struct FlagOrder {
    /// How many steps the processor has made.
    from: usize,
    /// Of each processor, how many steps it has made.
    made: StepsMade,
}

/// Of each processor, what is known behind its awaits, in the order of its steps.
#[derive(Drop)]
pub struct FlagOrders {
    rows: Vec<Vec<FlagOrder>>,
}

/// Whether the step before the row's place awaits a flag.
fn has_just_awaited(steps: &[Vec<ScriptCall>], processor: usize, row: &WalkedRow) -> bool {
    let step = match steps.get(processor) {
        Some(calls) => calls.get(row.place.saturating_sub(1)).copied(),
        None => None,
    };
    matches!(step, Some(ScriptCall::Call(Kind::Await(_))))
}

impl FlagOrders {
    /// With nothing known of so many processors. The only error is running out of memory.
    fn new(alloc: Global, processors: usize) -> Result<FlagOrders, AllocError> {
        let mut rows = Vec::new(alloc);
        for _ in 0..processors {
            rows.push(Vec::new(alloc))?;
        }
        Ok(FlagOrders { rows })
    }

    /// Adds what is known of the processor behind an await. The only error is running out of memory.
    fn note(&mut self, processor: usize, row: &WalkedRow) -> Result<(), AllocError> {
        if let Some(orders) = self.rows.get_mut(processor) {
            orders.push(FlagOrder {
                from: row.place,
                made: row.made,
            })?;
        }
        Ok(())
    }

    /// Adds what the walk knows once it has come past the processor's step. The only error is running out of memory.
    fn note_step(
        &mut self,
        walk: &TextWalk,
        steps: &[Vec<ScriptCall>],
        processor: usize,
    ) -> Result<(), AllocError> {
        match walk.row(processor) {
            Some(row) if has_just_awaited(steps, processor, &row) => self.note(processor, &row),
            _ => Ok(()),
        }
    }

    /// Comes through all steps with the walk. The only error is running out of memory.
    fn walk_through(
        &mut self,
        walk: &mut TextWalk,
        steps: &[Vec<ScriptCall>],
    ) -> Result<(), AllocError>
        requires walks { IsTextWalk steps.now walk.old }
        requires some { 0 < length steps.now }
    {
        let mut present = 0;
        while let Some(processor) = walk.next(steps, present) {
            walk.pass(steps, processor)?;
            self.note_step(walk, steps, processor)?;
            present = processor;
        }
        Ok(())
    }

    /// What is known of the script, whose steps these are. The only error is running out of memory.
    pub fn of(
        alloc: Global,
        script: &Script,
        steps: &[Vec<ScriptCall>],
    ) -> Result<FlagOrders, AllocError>
        requires { AreLawfulMachineSteps (plan_of script.now) steps.now }
    {
        let mut orders = FlagOrders::new(alloc, steps.len())?;
        if script.flags == 0 {
            return Ok(orders);
        }
        let mut walk = TextWalk::new(alloc, script.pages * script.words, steps)?;
        orders.walk_through(&mut walk, steps)?;
        Ok(orders)
    }

    /// Whether the first access is known to be made before the second one.
    fn is_before(&self, first: &TextAccess, second: &TextAccess) -> bool {
        let Some(orders) = self.rows.get(second.processor) else {
            return false;
        };
        let mut made = 0;
        for order in orders {
            if order.from <= second.place && first.processor < MOST_PROCESSORS {
                made = order.made[first.processor];
            }
        }
        first.place < made
    }

    /// Whether one of the accesses is known to be made before the other one.
    pub fn are_ordered(&self, first: &TextAccess, second: &TextAccess) -> bool {
        self.is_before(first, second) || self.is_before(second, first)
    }
}
