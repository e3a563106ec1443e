//! One instruction: one that calls or returns, or one that stays in its function.
ghost use Rattle.std.specs.Prelude.{◌≡◌, [], IfOk, List, OnErr, OnOk};
ghost use Rattle.ir_memory.specs.Memory.{Blocks};
ghost use Rattle.run_rules.specs.State.{Due};
ghost use Rattle.run_acts.specs.Program.Loaded.{Keeps, Loaded};
ghost use Rattle.run_acts.specs.Made.{StaysReady};
ghost use Rattle.run_acts.specs.Said.{IsLast};
ghost use Rattle.run_acts.specs.Acting.{ActsFor, ActsInside, FunctionsStay, IsOuter, MayActBy, MayActHere, WantsHere, is_outer_here};

use crate::calls::{act_on_call, act_on_return};
use crate::inner::act_within;
use crate::next::Next;
use crate::program::Program;
use crate::room::Buffers;
use ir_eval::Scalar;
use ir_memory::Memory;
use run_actions::stack::Stack;
use run_decode::body::ActionBody;
use run_decode::flat::Action;
use std::alloc::AllocError;

/// Whether the instruction of the newest frame calls or returns.
#[inline(always)]
pub fn calls_or_returns(program: &Program<'_>, stack: &Stack) -> bool
    requires { (m : Blocks) × MayActHere program.now stack.now m }
    ensures { result ≡ is_outer_here program.now stack.now }
{
    let decoded = program.body(stack.function());
    let flat = decoded.action(stack.block(), stack.position());
    match *flat {
        Action::Call { .. } | Action::Return { .. } => true,
        _ => false,
    }
}

/// Carries out the call or the return of the newest frame; `is_last` tells that nothing is due. What it writes is put into the room, in
/// which nothing is.
///
/// It is refused for want of memory alone, by an instruction that may want it. Where it is refused, or the run stops, frames and memory
/// may be half changed: no instruction may follow.
#[inline(always)]
pub fn call_or_return(
    program: &mut Program<'_>,
    stack: &mut Stack,
    memory: &mut Memory,
    is_last: bool,
    room: &mut Buffers,
) -> Result<Next, AllocError>
    requires may { MayActHere program.old stack.old memory.old }
    requires outer { IsOuter program.old stack.old }
    requires none { room.old.written.items ≡ [] }
    ensures acts { IfOk result (λ next. (due : List Due) → IsLast due is_last → ActsFor program.old due next stack.old stack.new memory.old memory.new room.new.written.items) }
    ensures ready { OnOk result (StaysReady program.old stack.old program.new stack.new) }
    ensures keeps { Keeps program.old program.new }
    ensures wants { OnErr result (WantsHere program.old stack.old) }
{
    let decoded = program.body(stack.function());
    let flat = decoded.action(stack.block(), stack.position());
    match *flat {
        Action::Call { to, callee, call } => {
            act_on_call(program, stack, memory, to, callee, call, room)
        }
        Action::Return { value } => act_on_return(program, stack, memory, value, is_last, room),
        _ => unreachable!(),
    }
}

/// Carries out the instruction of the newest frame, in whose function's body it stands, where it neither calls nor returns. None where
/// it does: then nothing is done. It writes nothing, and asks for no byte. What `room` has is lost.
///
/// It is refused for want of memory alone, by an instruction that may want it. Where it is refused, or the run stops, frames and memory
/// may be half changed: no instruction may follow.
#[inline(always)]
pub fn act_inside(
    decoded: &ActionBody<'_>,
    stack: &mut Stack,
    memory: &mut Memory,
    room: &mut Vec<Scalar>,
) -> Result<Option<Next>, AllocError>
    requires may { (p : Loaded) × MayActBy p decoded.now stack.old memory.old }
    ensures acts { IfOk result (λ next. (p : Loaded) → MayActBy p decoded.now stack.old memory.old → ActsInside p next stack.old stack.new memory.old memory.new) }
    ensures stays { OnOk result (FunctionsStay stack.old stack.new) }
    ensures wants { OnErr result ((p : Loaded) → MayActBy p decoded.now stack.old memory.old → WantsHere p stack.old) }
{
    let pools = decoded.pools();
    let flat = decoded.action(stack.block(), stack.position());
    act_within(stack, memory, pools, flat, room)
}
