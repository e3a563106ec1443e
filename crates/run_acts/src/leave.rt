//! Functions that are left.
ghost use Rattle.std.specs.Prelude.{◌≡◌, [], All, IfOk, List, OnErr, OnOk, length, map, true};
ghost use Rattle.ir_memory.specs.Answer.{Keeps};
ghost use Rattle.ir_memory.specs.Given.{IsKnown};
ghost use Rattle.run_actions.specs.Operands.{IsThere, leaf_of};
ghost use Rattle.run_acts.specs.Program.Loaded.{Loaded};
ghost use Rattle.run_rules.specs.Access.{released};
ghost use Rattle.run_rules.specs.Calls.{exited};
ghost use Rattle.run_rules.specs.State.{Due, Stops};
ghost use Rattle.run_rules.specs.Wants.{is_wide};
ghost use Rattle.run_actions.specs.Stack.UnderWay.{changed, IsRunning, newest};
ghost use Rattle.run_acts.specs.Made.{FitBelow, StaysReady};
ghost use Rattle.run_acts.specs.Said.{end_of, IsLast, IsReturned, with_allocas};

use crate::next::{Next, Stop};
use ir_eval::Scalar;
use ir_memory::Memory;
use ir_tables::UndefinedKind;
use run_actions::stack::{Origin, Stack};
use run_names::values::release;
use std::alloc::AllocError;

/// Ends the blocks of the newest frame's allocas, the last one first.
fn end_allocas(stack: &mut Stack, memory: &mut Memory)
    requires running { IsRunning stack.old.frames }
    requires known { All (IsKnown memory.old.list) (newest stack.old.frames).allocas }
    ensures memory { memory.new ≡ released (newest stack.old.frames).allocas memory.old }
    ensures stack { stack.new ≡ changed (with_allocas []) stack.old }
    ensures kept { Keeps memory.old memory.new }
{
    while let Some(alloca) = stack.pop_alloca() {
        release(memory, &[alloca]);
    }
}

/// What main gives is the status.
fn status(value: &[Scalar]) -> Stop
    ensures { exited value.now ≡ Stops (end_of result) }
{
    if value.len() != 1 {
        return Stop::Undefined(UndefinedKind::PoisonArgument);
    }
    match value[0] {
        Scalar::Int(number) => Stop::Exit((number % 256) as u8),
        Scalar::Ptr(_) | Scalar::Poison => Stop::Undefined(UndefinedKind::PoisonArgument),
    }
}

/// The newest function is left, and its value goes to the one below. Where none is below and nothing is due, it was main.
#[inline(always)]
fn leave_with(stack: &mut Stack, memory: &mut Memory, value: &[Scalar], is_last: bool) -> Next
    requires running { IsRunning stack.old.frames }
    requires known { All (IsKnown memory.old.list) (newest stack.old.frames).allocas }
    requires fit { FitBelow stack.old.frames (length value.now) }
    ensures returned { (due : List Due) → IsLast due is_last → IsReturned value.now due result stack.old stack.new memory.old memory.new }
    ensures ready { (p : Loaded) → StaysReady p stack.old p stack.new }
    ensures kept { Keeps memory.old memory.new }
{
    end_allocas(stack, memory);
    let to = stack.leave();
    if !stack.is_empty() {
        stack.set_all(to, value);
        return Next::Goes;
    }
    if is_last {
        Next::Stops(status(value))
    } else {
        Next::Goes
    }
}

/// The newest function returns the value with these leaves (LangRef, "ret Instruction"); `is_last` tells that nothing is due. What `room`
/// has is lost.
///
/// Only a value of more than one leaf wants memory. Refused memory leaves frames and memory as they were.
pub fn return_value(
    stack: &mut Stack,
    memory: &mut Memory,
    value: &[Origin],
    is_last: bool,
    room: &mut Vec<Scalar>,
) -> Result<Next, AllocError>
    requires running { IsRunning stack.old.frames }
    requires there { All (IsThere stack.old) value.now }
    requires known { All (IsKnown memory.old.list) (newest stack.old.frames).allocas }
    requires fit { FitBelow stack.old.frames (length value.now) }
    ensures returned { IfOk result (λ next. (due : List Due) → IsLast due is_last → IsReturned (map (leaf_of stack.old) value.now) due next stack.old stack.new memory.old memory.new) }
    ensures ready { OnOk result ((p : Loaded) → StaysReady p stack.old p stack.new) }
    ensures kept { Keeps memory.old memory.new }
    ensures wide { OnErr result (is_wide value.now ≡ true) }
    ensures err { OnErr result ((stack.new ≡ stack.old) × (memory.new ≡ memory.old)) }
{
    if value.is_empty() {
        return Ok(leave_with(stack, memory, &[], is_last));
    }
    if value.len() == 1 {
        let leaf = stack.read(&value[0]);
        return Ok(leave_with(stack, memory, &[leaf], is_last));
    }
    room.clear();
    stack.read_all(value, room)?;
    Ok(leave_with(stack, memory, room, is_last))
}
