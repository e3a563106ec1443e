//! Functions that are entered.
ghost use Rattle.std.specs.Prelude.{◌≡◌, ◌≤◌, IfOk, OnErr, OnOk, length};
ghost use Rattle.run_names.specs.declared.callee.CalleeRef.TheVariants as callees;
ghost use Rattle.run_names.specs.Told.{HasCode};
ghost use Rattle.run_acts.specs.Program.Loaded.{Keeps};
ghost use Rattle.run_acts.specs.Made.{StaysReady};
ghost use Rattle.run_acts.specs.Said.{IsEntered};

use crate::next::{Next, Stop};
use crate::program::Program;
use ir_eval::Scalar;
use module_arena::FunctionId;
use run_actions::stack::Stack;
use std::alloc::AllocError;

/// Enters a function that has a body and so many leaves: its frame begins, unless all frames would weigh too much then.
///
/// It is refused for want of memory alone, and then the frames are as they were.
#[inline(always)]
pub(crate) fn enter(
    program: &mut Program<'_>,
    stack: &mut Stack,
    id: FunctionId,
    leaves: u64,
    arguments: &[Scalar],
    to: u32,
) -> Result<Next, AllocError>
    requires code { HasCode program.old.lists (callees.Code id) }
    requires arguments { length arguments.now ≤ leaves }
    ensures entered { IfOk result (λ next. IsEntered id leaves arguments.now to next stack.old stack.new) }
    ensures ready { OnOk result (StaysReady program.old stack.old program.new stack.new) }
    ensures keeps { Keeps program.old program.new }
    ensures err { OnErr result (stack.new ≡ stack.old) }
{
    if !stack.has_room(leaves) {
        return Ok(Next::Stops(Stop::StackLimit));
    }
    let widest = program.prepare(id)?;
    let function = id.number();
    let entered = stack.enter(function, leaves, arguments, to, widest)?;
    if entered {
        Ok(Next::Goes)
    } else {
        Ok(Next::Stops(Stop::StackLimit))
    }
}
