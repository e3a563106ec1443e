//! Calls and returns.
ghost use Rattle.std.specs.Prelude.{◌≡◌, [], IfOk, List, OnErr, OnOk, true};
ghost use Rattle.run_decode.specs.Body.Bodies.{Decoded};
ghost use Rattle.run_rules.specs.State.{Due};
ghost use Rattle.run_rules.specs.Wants.{wants_memory};
ghost use Rattle.run_decode.specs.Flat.Flat.{action_of};
ghost use Rattle.run_decode.specs.declared.flat.action.Action.TheVariants as flat;
ghost use Rattle.run_acts.specs.Program.Loaded.{Keeps};
ghost use Rattle.run_acts.specs.Made.{StaysReady};
ghost use Rattle.run_acts.specs.Said.{IsLast};
ghost use Rattle.run_acts.specs.Acting.{CameTo, MayActIn};

use crate::address::{FrameCall, call_address};
use crate::classes::origin;
use crate::leave::return_value;
use crate::next::Next;
use crate::program::Program;
use crate::room::{Buffers, front, read_leaves};
use ir_memory::Memory;
use run_actions::stack::Stack;
use run_decode::flat::{LeafAt, Span};
use std::alloc::AllocError;

/// A call by the newest frame, which then stands behind it. It is refused for want of memory alone.
#[inline(always)]
pub(crate) fn act_on_call(
    program: &mut Program<'_>,
    stack: &mut Stack,
    memory: &mut Memory,
    to: u32,
    callee: LeafAt,
    place: u32,
    room: &mut Buffers,
) -> Result<Next, AllocError>
    requires may { (b : Decoded) × MayActIn program.old b (flat.Call to callee place) stack.old memory.old }
    requires none { room.old.written.items ≡ [] }
    ensures came { IfOk result (λ next. (b : Decoded) (due : List Due) → MayActIn program.old b (flat.Call to callee place) stack.old memory.old
        → CameTo program.old (action_of b.pools program.old.lists (flat.Call to callee place)) due next stack.old stack.new memory.old memory.new room.new.written.items) }
    ensures ready { OnOk result (StaysReady program.old stack.old program.new stack.new) }
    ensures keeps { Keeps program.old program.new }
{
    let decoded = program.body(stack.function());
    let pools = decoded.pools();
    let parts = *pools.calls.at(place);
    let operand = origin(pools, callee);
    let address = stack.read(&operand);
    let listed = pools.origins.in_span(parts.arguments);
    read_leaves(stack, listed, &mut room.leaves)?;
    stack.move_on();
    let call = FrameCall {
        callee: address,
        parts,
        arguments: front(&room.leaves, listed),
        to,
    };
    call_address(program, stack, memory, &call, &mut room.written)
}

/// A return of the newest frame's function; `is_last` tells that nothing is due. Only a value of more than one leaf wants memory.
#[inline(always)]
pub(crate) fn act_on_return(
    program: &Program<'_>,
    stack: &mut Stack,
    memory: &mut Memory,
    value: Span,
    is_last: bool,
    room: &mut Buffers,
) -> Result<Next, AllocError>
    requires may { (b : Decoded) × MayActIn program.now b (flat.Return value) stack.old memory.old }
    ensures came { IfOk result (λ next. (b : Decoded) (due : List Due) → IsLast due is_last → MayActIn program.now b (flat.Return value) stack.old memory.old
        → CameTo program.now (action_of b.pools program.now.lists (flat.Return value)) due next stack.old stack.new memory.old memory.new []) }
    ensures ready { OnOk result (StaysReady program.now stack.old program.now stack.new) }
    ensures wants { OnErr result ((b : Decoded) → MayActIn program.now b (flat.Return value) stack.old memory.old → wants_memory (action_of b.pools program.now.lists (flat.Return value)) ≡ true) }
    ensures written { room.new.written.items ≡ room.old.written.items }
{
    let decoded = program.body(stack.function());
    let pools = decoded.pools();
    let leaves = pools.origins.in_span(value);
    return_value(stack, memory, leaves, is_last, &mut room.leaves)
}
