//! Calls of host functions.
ghost use Rattle.std.specs.Prelude.{◌≡◌, ◌<◌, ℕ, [], All, IfOk, List, OnOk, length, map};
ghost use Rattle.run_actions.specs.Hosts.Made.{EndsOrReads};
ghost use Rattle.ir_memory.specs.Memory.{Blocks, HasFreeAddresses};
ghost use Rattle.run_actions.specs.Carried.{core_of};
ghost use Rattle.run_names.specs.Host.Answers.{answer_of, leaves_of};
ghost use Rattle.run_acts.specs.Program.Loaded.{Loaded};
ghost use Rattle.run_rules.specs.Calls.{answered};
ghost use Rattle.run_rules.specs.Frame.{with_value};
ghost use Rattle.run_rules.specs.Host.{host, outcome_leaves};
ghost use Rattle.run_rules.specs.State.{Due};
ghost use Rattle.run_names.specs.Shapes.Shapes.{shape_in};
ghost use Rattle.run_actions.specs.Stack.UnderWay.{changed, Fits, IsRunning, newest};
ghost use Rattle.typed_runs.specs.States.{IsRow, IsTypedMemory};
ghost use Rattle.run_acts.specs.Made.{MayCallHost, StaysReady, TakesResult};
ghost use Rattle.run_acts.specs.Said.{next_of};

use crate::next::{Next, Stop, fails};
use ir_eval::Scalar;
use ir_intrinsics::Outcome;
use ir_memory::Memory;
use module_arena::HostRow;
use run_actions::hosts::ArgumentKinds;
use run_actions::stack::Stack;
use run_names::host::HostAnswer;
use std::alloc::{AllocError, Global};
use type_table::{TypeId, TypeTable};

/// The newest frame takes the leaf or the two of a result.
fn give_leaves(stack: &mut Stack, to: u32, outcome: Outcome)
    requires { Fits (length (newest stack.old.frames).leaves) to (outcome_leaves outcome) }
    ensures { stack.new ≡ changed (λ f. with_value f to (outcome_leaves outcome)) stack.old }
{
    match outcome.second {
        None => stack.set_all(to, &[outcome.first]),
        Some(second) => stack.set_all(to, &[outcome.first, second]),
    }
}

/// The newest frame takes a result, if there is one.
fn give(stack: &mut Stack, to: u32, given: Option<Outcome>)
    requires { Fits (length (newest stack.old.frames).leaves) to (leaves_of given) }
    ensures { stack.new ≡ changed (λ f. with_value f to (leaves_of given)) stack.old }
{
    match given {
        None => {}
        Some(outcome) => give_leaves(stack, to, outcome),
    }
}

/// What a host function answered, on behalf of the newest frame, which takes its result. Memory is what the call left of it.
fn take_answer(stack: &mut Stack, to: u32, answer: HostAnswer) -> Next
    requires running { IsRunning stack.old.frames }
    requires place { TakesResult stack.old to answer }
    ensures answered { (due : List Due) (m n : Blocks) (output : List ℕ) → (EndsOrReads answer → n ≡ m)
        → answered to (core_of stack.old.frames due m) (answer_of answer n output) ≡ next_of result (core_of stack.new.frames due n) output }
    ensures ready { (p : Loaded) → StaysReady p stack.old p stack.new }
{
    match answer {
        HostAnswer::Gives(given) => {
            give(stack, to, given);
            Next::Goes
        }
        HostAnswer::Reads => Next::Gets(to),
        HostAnswer::Exits(status) => Next::Stops(Stop::Exit(status)),
        HostAnswer::Fails(kind) => fails(kind),
        HostAnswer::MemoryLimit => Next::Stops(Stop::MemoryLimit),
    }
}

/// A call of a host function: the types of its arguments, their leaves one after another, and the place of the result's first leaf.
#[derive(Clone, Copy)]
pub(crate) struct HostCall<'c> {
    pub row: HostRow,
    pub shapes: &'c [TypeId],
    pub arguments: &'c [Scalar],
    pub to: u32,
}

/// A call of a host function by one of its types, on behalf of the newest frame, which stands behind the call already. What is written
/// is put into `written`, in which nothing is.
///
/// It is refused for want of memory alone.
pub(crate) fn call_host(
    alloc: Global,
    types: &TypeTable,
    stack: &mut Stack,
    memory: &mut Memory,
    call: &HostCall<'_>,
    written: &mut Vec<u8>,
) -> Result<Next, AllocError>
    requires row { IsRow call.now.row }
    requires types { All (λ ty. ty < length types.now.types) call.now.shapes.now }
    requires may { MayCallHost stack.old call.now.row (map (shape_in types.now) call.now.shapes.now) call.now.arguments.now call.now.to (length memory.old.list) }
    requires none { written.old.items ≡ [] }
    requires memory { IsTypedMemory memory.old }
    requires next { HasFreeAddresses memory.old }
    ensures called { IfOk result (λ next. (due : List Due)
        → answered call.now.to (core_of stack.old.frames due memory.old) (host call.now.row (map (shape_in types.now) call.now.shapes.now) call.now.arguments.now memory.old)
        ≡ next_of next (core_of stack.new.frames due memory.new) written.new.items) }
    ensures ready { OnOk result ((p : Loaded) → StaysReady p stack.old p stack.new) }
{
    let kinds = ArgumentKinds::new(types, call.shapes);
    let answer = run_actions::hosts::call(
        alloc,
        call.row,
        &kinds,
        call.arguments,
        memory,
        written,
    )?;
    Ok(take_answer(stack, call.to, answer))
}
