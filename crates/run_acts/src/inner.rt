//! Instructions that stay in their function.
ghost use Rattle.std.specs.Prelude.{◌≡◌, ℕ, IfOk, OnErr, OnOk, Some, length, true};
ghost use Rattle.ir_memory.specs.Memory.{Blocks, HasFreeAddresses};
ghost use Rattle.module_arena.specs.Lists.{Lists};
ghost use Rattle.run_rules.specs.Wants.{wants_memory};
ghost use Rattle.run_decode.specs.Flat.Flat.{action_of};
ghost use Rattle.run_acts.specs.Classes.Groups.{is_value};
ghost use Rattle.run_acts.specs.Classes.May.{MayAct};
ghost use Rattle.run_acts.specs.Acting.{AnswersMemory, AnswersWith, ComesInside, FunctionsStay};

use crate::classes::{
    act_on_address, act_on_alloca, act_on_binary, act_on_branch, act_on_cast, act_on_comparison,
    act_on_jump, act_on_load, act_on_store, act_on_switch, act_on_unreachable, act_on_values,
};
use crate::next::{Next, Stop, fails};
use ir_eval::Scalar;
use ir_memory::{Memory, MemoryFault};
use ir_tables::UndefinedKind;
use run_actions::stack::Stack;
use run_decode::flat::{Action, Pools};
use std::alloc::AllocError;

/// What an instruction comes to that goes on or is undefined. It is made where it stands: a call that fills it would have it lie in memory.
#[inline]
fn next_of(done: Result<(), UndefinedKind>) -> Next
    ensures { AnswersWith done result }
{
    match done {
        Ok(()) => Next::Goes,
        Err(kind) => Next::Stops(Stop::Undefined(kind)),
    }
}

/// What an instruction comes to that memory may refuse.
#[inline]
fn next_of_access(done: Result<(), MemoryFault>) -> Result<Option<Next>, AllocError>
    ensures { AnswersMemory done result }
{
    match done {
        Ok(()) => Ok(Some(Next::Goes)),
        Err(MemoryFault::Undefined(kind)) => Ok(Some(Next::Stops(Stop::Undefined(kind)))),
        Err(MemoryFault::MemoryLimit) => Ok(Some(Next::Stops(Stop::MemoryLimit))),
        Err(MemoryFault::Memory) => Err(AllocError),
    }
}

/// A select, a freeze, or parts of values put together. It stands apart so that no other instruction makes room for a copy of the action,
/// and tells only whether it is refused, so that the answers of all others need not lie in memory. What `room` has is lost.
#[inline(never)]
fn act_on_many(
    stack: &mut Stack,
    pools: &Pools,
    action: &Action,
    room: &mut Vec<Scalar>,
) -> Result<(), AllocError>
    requires group { is_value action.now ≡ true }
    requires may { (count : ℕ) × MayAct count pools.now action.now stack.old }
    ensures comes { OnOk result ((m : Blocks) (a : Lists) → ComesInside (action_of pools.now a action.now) (Some Next.Goes) stack.old stack.new m m) }
    ensures stays { OnOk result (FunctionsStay stack.old stack.new) }
    ensures wants { OnErr result ((a : Lists) → wants_memory (action_of pools.now a action.now) ≡ true) }
{
    act_on_values(stack, pools, *action, room)?;
    Ok(())
}

/// An instruction of the newest frame, if it neither calls nor returns. None where it does: then nothing is done. What `room` has is lost.
///
/// It is refused for want of memory alone, by an instruction that may want it.
#[inline(always)]
pub(crate) fn act_within(
    stack: &mut Stack,
    memory: &mut Memory,
    pools: &Pools,
    action: &Action,
    room: &mut Vec<Scalar>,
) -> Result<Option<Next>, AllocError>
    requires may { MayAct (length memory.old.list) pools.now action.now stack.old }
    requires next { HasFreeAddresses memory.old }
    ensures comes { IfOk result (λ next. (a : Lists) → ComesInside (action_of pools.now a action.now) next stack.old stack.new memory.old memory.new) }
    ensures stays { OnOk result (FunctionsStay stack.old stack.new) }
    ensures wants { OnErr result ((a : Lists) → wants_memory (action_of pools.now a action.now) ≡ true) }
{
    match *action {
        Action::Load {
            to,
            align,
            address,
            slots,
        } => next_of_access(act_on_load(
            stack, memory, pools, action, to, align, address, slots, room,
        )),
        Action::Store {
            align,
            address,
            slots,
            value,
        } => next_of_access(act_on_store(
            stack, memory, pools, action, align, address, slots, value, room,
        )),
        Action::Allocate {
            to,
            align,
            size,
            count,
        } => next_of_access(act_on_alloca(stack, memory, pools, action, to, align, size, count)),
        Action::Displace {
            to,
            inbounds,
            base,
            terms,
            sum,
        } => {
            act_on_address(stack, memory, pools, action, to, inbounds, base, terms, sum);
            Ok(Some(Next::Goes))
        }
        Action::Compute {
            to,
            opcode,
            flags,
            width,
            left,
            right,
        } => Ok(Some(next_of(act_on_binary(
            stack, pools, action, to, opcode, flags, width, left, right,
        )))),
        Action::Compare {
            to,
            predicate,
            samesign,
            width,
            left,
            right,
        } => {
            act_on_comparison(
                stack, pools, action, to, predicate, samesign, width, left, right,
            );
            Ok(Some(Next::Goes))
        }
        Action::Convert {
            to,
            opcode,
            flags,
            from_width,
            to_width,
            value,
        } => {
            act_on_cast(
                stack, pools, action, to, opcode, flags, from_width, to_width, value,
            );
            Ok(Some(Next::Goes))
        }
        Action::Jump { edge } => {
            act_on_jump(stack, pools, action, edge);
            Ok(Some(Next::Goes))
        }
        Action::Branch {
            condition,
            then_edge,
            else_edge,
        } => Ok(Some(next_of(act_on_branch(
            stack, pools, action, condition, then_edge, else_edge,
        )))),
        Action::Switch {
            value,
            otherwise,
            cases,
        } => Ok(Some(next_of(act_on_switch(stack, pools, action, value, otherwise, cases)))),
        Action::Unreachable => Ok(Some(fails(act_on_unreachable(stack, pools, action)))),
        Action::Select { .. } | Action::Freeze { .. } | Action::Gather { .. } => {
            act_on_many(stack, pools, action, room)?;
            Ok(Some(Next::Goes))
        }
        Action::Call { .. } | Action::Return { .. } => Ok(None),
        // No run stands at a phi.
        Action::Passed => unreachable!(),
    }
}
