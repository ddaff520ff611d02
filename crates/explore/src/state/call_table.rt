//! What the calls that were made tell of who waits, who holds a lock and which flags are set. It is worked out once, of each
//! processor and each number of its calls, so that a state needn't keep it.
ghost use Rattle.std.specs.Prelude.{◌≡◌, ℕ, ◌+◌, ◌<◌, ◌^◌, ◌++◌, ◌∷◌, [], IfOk, List, None, OnOk, Some, cond, length, slice_get, vec_len};
ghost use Rattle.base.specs.Prelude.{most_processors};
ghost use Rattle.lrc_script.specs.Prelude.{Plan};
ghost use Rattle.explore.specs.declared.state.flat_state.FlatState.{FlatState as AMachine};
ghost use Rattle.explore.specs.declared.prefixes.script_call.ScriptCall.{ScriptCall as AStep};
ghost use Rattle.explore.specs.CallTables.{HasCallsMade, IsCallListPut, IsCallRowSmall, IsCallTableOf, IsLawfulCallStep, IsStateOfCalls, TellsCallRow, TellsCallTable, call_arrives, call_awaited_after, call_flags_after, call_list, call_list_once, call_locks_after, call_waiting, call_waiting_after};
ghost use Rattle.explore.specs.KeptWaiting.{IsLikeKeptWaiting, kept_waiting_without};
ghost use Rattle.explore.specs.Machines.{AreLawfulMachineSteps};
ghost use Rattle.explore.specs.WaitCodes.{wait_code_ending};

use crate::prefixes::ScriptCall;
use crate::state::wait_code::WaitCode;
use crate::state::waits::{Waiting, leave};
use base::MOST_PROCESSORS;
use journal::Kind;
use std::alloc::{AllocError, Global};

/// What the calls tell that a processor has made.
#[derive(Clone, Copy)]
pub struct CallsMade {
    /// What it waits for after the last of them.
    wait: Option<WaitCode>,
    /// How often it has arrived at the barrier.
    arrivals: u32,
    /// The place of the locks that it holds.
    locks: usize,
    /// The place of the flags that it has set.
    flags: usize,
}

/// Of a processor what its calls tell, for each number of them.
#[derive(Drop)]
pub struct CallRow {
    made: Vec<CallsMade>,
    /// Locks that are held at once, and flags that are set, where that changes.
    lists: Vec<Vec<usize>>,
}

/// Of each processor what its calls tell.
#[derive(Drop)]
pub struct CallTable {
    rows: Vec<CallRow>,
}

/// What is waited for after the step.
fn call_wait_after(step: ScriptCall) -> Option<WaitCode>
    requires { IsLawfulCallStep step }
    ensures { wait_code_ending result ≡ call_awaited_after None step }
{
    match step {
        ScriptCall::Call(kind) => WaitCode::after(kind),
        ScriptCall::Adds(_, _) => None,
    }
}

/// Whether the step arrives at the barrier.
fn call_arrives(step: ScriptCall) -> bool
    ensures { result ≡ call_arrives step }
{
    matches!(step, ScriptCall::Call(Kind::Arrive))
}

/// How often the processor has arrived after the step.
fn call_arrivals_after(arrivals: u32, step: ScriptCall) -> u32
    requires { arrivals < 2 ^ 15 }
    ensures { result ≡ arrivals + cond (call_arrives step) 1 0 }
{
    if call_arrives(step) {
        arrivals + 1
    } else {
        arrivals
    }
}

/// Puts these numbers at the end, and tells their place.
fn put_call_list(lists: &mut Vec<Vec<usize>>, numbers: Vec<usize>) -> Result<usize, AllocError>
    ensures { IfOk result (IsCallListPut lists.old.items lists.new.items numbers.items) }
{
    let place = lists.len();
    lists.push(numbers)?;
    Ok(place)
}

/// Puts the numbers at this place and one more at the end, and tells their place.
fn put_call_list_with(
    lists: &mut Vec<Vec<usize>>,
    place: usize,
    number: usize,
) -> Result<usize, AllocError>
    requires { place < vec_len lists.old }
    ensures { IfOk result (IsCallListPut lists.old.items lists.new.items (call_list lists.old.items place ++ number ∷ [])) }
{
    let mut numbers = lists[place].clone()?;
    numbers.push(number)?;
    put_call_list(lists, numbers)
}

/// The place of the numbers at this place and this one, which are put at the end if it isn't among them yet.
fn put_call_list_once(
    lists: &mut Vec<Vec<usize>>,
    place: usize,
    number: usize,
) -> Result<usize, AllocError>
    requires { place < vec_len lists.old }
    ensures { IfOk result (IsCallListPut lists.old.items lists.new.items (call_list_once (call_list lists.old.items place) number)) }
{
    if lists[place].contains(&number) {
        return Ok(place);
    }
    put_call_list_with(lists, place, number)
}

/// Puts the numbers at this place but this one at the end, and tells their place.
fn put_call_list_without(
    lists: &mut Vec<Vec<usize>>,
    place: usize,
    number: usize,
) -> Result<usize, AllocError>
    requires { place < vec_len lists.old }
    ensures { IfOk result (IsCallListPut lists.old.items lists.new.items (kept_waiting_without (call_list lists.old.items place) number)) }
{
    let mut numbers = lists[place].clone()?;
    leave(&mut numbers, number);
    put_call_list(lists, numbers)
}

/// The place of the locks that are held after the step, if those at this place are before it.
fn call_locks_after(
    lists: &mut Vec<Vec<usize>>,
    place: usize,
    step: ScriptCall,
) -> Result<usize, AllocError>
    requires { place < vec_len lists.old }
    ensures { IfOk result (IsCallListPut lists.old.items lists.new.items (call_locks_after (call_list lists.old.items place) step)) }
{
    let ScriptCall::Call(kind) = step else {
        return Ok(place);
    };
    match kind {
        Kind::Acquire(lock) => put_call_list_with(lists, place, lock),
        Kind::Release(lock) => put_call_list_without(lists, place, lock),
        _ => Ok(place),
    }
}

/// The place of the flags that are set after the step, if those at this place are before it.
fn call_flags_after(
    lists: &mut Vec<Vec<usize>>,
    place: usize,
    step: ScriptCall,
) -> Result<usize, AllocError>
    requires { place < vec_len lists.old }
    ensures { IfOk result (IsCallListPut lists.old.items lists.new.items (call_flags_after (call_list lists.old.items place) step)) }
{
    let ScriptCall::Call(kind) = step else {
        return Ok(place);
    };
    match kind {
        Kind::Set(flag) => put_call_list_once(lists, place, flag),
        _ => Ok(place),
    }
}

impl CallRow {
    /// What no calls tell, with room for so many. The only error is running out of memory.
    fn new(alloc: Global, calls: usize) -> Result<CallRow, AllocError>
        requires { calls < 2 ^ 15 }
        ensures { IfOk result (TellsCallRow []) }
    {
        let mut lists = Vec::new(alloc);
        let none = put_call_list(&mut lists, Vec::new(alloc))?;
        let mut made = Vec::with_capacity(alloc, calls + 1)?;
        made.push(CallsMade {
            wait: None,
            arrivals: 0,
            locks: none,
            flags: none,
        })?;
        Ok(CallRow { made, lists })
    }

    /// Takes note of what the next step tells. The only error is running out of memory, after which this may tell nothing.
    fn push(&mut self, step: ScriptCall) -> Result<(), AllocError>
        requires step { IsLawfulCallStep step }
        requires row { (row : List AStep) × TellsCallRow row self.old × (length row < 2 ^ 15) }
        ensures { OnOk result ((row : List AStep) → TellsCallRow row self.old → TellsCallRow (row ++ step ∷ []) self.new) }
    {
        let last = self.made[self.made.len() - 1];
        let locks = call_locks_after(&mut self.lists, last.locks, step)?;
        let flags = call_flags_after(&mut self.lists, last.flags, step)?;
        self.made.push(CallsMade {
            wait: call_wait_after(step),
            arrivals: call_arrivals_after(last.arrivals, step),
            locks,
            flags,
        })?;
        Ok(())
    }

    /// What these steps tell. The only error is running out of memory.
    fn of_steps(alloc: Global, steps: &[ScriptCall]) -> Result<CallRow, AllocError>
        requires steps { (i : ℕ) (step : AStep) → slice_get steps.now i ≡ Some step → IsLawfulCallStep step }
        requires few { length steps.now < 2 ^ 15 }
        ensures { IfOk result (TellsCallRow steps.now) }
    {
        let mut row = CallRow::new(alloc, steps.len())?;
        for step in steps {
            row.push(*step)?;
        }
        Ok(row)
    }

    /// Takes note of what so many calls of the processor tell.
    fn tell(&self, waiting: &mut Waiting, processor: usize, calls: usize)
        requires processor { processor < most_processors }
        requires calls { calls < vec_len self.now.made }
        requires small { IsCallRowSmall self.now }
        ensures { waiting.new ≡ call_waiting_after waiting.old processor self.now calls }
    {
        let made = self.made[calls];
        let locks = &self.lists[made.locks];
        let flags = &self.lists[made.flags];
        waiting.tell(processor, made.wait, made.arrivals, locks, flags);
    }
}

impl CallTable {
    /// What the steps of each processor tell. The only error is running out of memory.
    pub fn of_steps(alloc: Global, steps: &[Vec<ScriptCall>]) -> Result<CallTable, AllocError>
        requires { (s : Plan) × AreLawfulMachineSteps s steps.now }
        ensures { IfOk result (TellsCallTable steps.now) }
    {
        let mut rows = Vec::with_capacity(alloc, steps.len())?;
        for processor in 0..steps.len() {
            rows.push(CallRow::of_steps(alloc, &steps[processor])?)?;
        }
        Ok(CallTable { rows })
    }

    /// Who waits for what and what has come, if the processors have made so many calls, and these wait for a lock, in the order
    /// of their asks.
    pub fn waiting(&self, done: &[u16; MOST_PROCESSORS], asked: Vec<usize>) -> Waiting
        requires table { (s : Plan) × IsCallTableOf s self.now }
        requires done { HasCallsMade self.now done.now }
        ensures is { result ≡ call_waiting self.now done.now asked }
        ensures like { (m : AMachine) → IsStateOfCalls self.now m → done.now ≡ m.done → asked.items ≡ m.waiting.asked.items
            → IsLikeKeptWaiting m.waiting result }
    {
        let mut waiting = Waiting::of_asked(asked);
        for processor in 0..self.rows.len() {
            self.rows[processor].tell(&mut waiting, processor, done[processor] as usize);
        }
        waiting
    }
}
