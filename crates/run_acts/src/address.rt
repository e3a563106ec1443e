//! Calls by address.
ghost use Rattle.std.specs.Prelude.{◌≡◌, ℕ, [], IfOk, List, OnOk, length};
ghost use Rattle.ir_memory.specs.Memory.{Blocks, HasFreeAddresses};
ghost use Rattle.module_arena.specs.View.{module_of};
ghost use Rattle.run_actions.specs.Carried.{core_of};
ghost use Rattle.run_decode.specs.Body.Bodies.{Decoded};
ghost use Rattle.run_decode.specs.Flat.Flat.{signature_of};
ghost use Rattle.run_names.specs.declared.callee.CalleeRef.TheVariants as callees;
ghost use Rattle.run_names.specs.Told.{HasCode, alone, callee_seen};
ghost use Rattle.run_acts.specs.Program.Loaded.{IsReady, Keeps, Loaded};
ghost use Rattle.run_rules.specs.Calls.{called};
ghost use Rattle.run_rules.specs.Look.{host_of, look, table};
ghost use Rattle.run_rules.specs.State.{Due};
ghost use Rattle.run_actions.specs.Stack.UnderWay.{newest};
ghost use Rattle.typed_runs.specs.Look.Typings.{IsTypedLook, typing_of};
ghost use Rattle.typed_runs.specs.States.{IsRow, IsTypedCallee, IsTypedMemory};
ghost use Rattle.run_acts.specs.Made.{MayCall, shapes_of, StaysReady};
ghost use Rattle.run_acts.specs.Said.{CallsAt, next_of};

use crate::enter::enter;
use crate::host::{HostCall, call_host};
use crate::next::{Next, fails};
use crate::program::Program;
use ir_eval::Scalar;
use ir_memory::Memory;
use ir_tables::UndefinedKind;
use module_arena::{FunctionId, HostRow};
use run_actions::stack::Stack;
use run_decode::flat::CallParts;
use run_names::CalleeRef;
use run_names::types::fits_row;
use std::alloc::AllocError;

/// A call as the newest frame makes it: the callee, its parts in the body of the frame's function, the leaves of its arguments one after
/// another, and the place of its result's first leaf.
///
/// ```
/// FrameCall { callee, parts, arguments: &[Scalar::Int(7)], to: 2 } // `call i32 @f(i32 7)`, whose result goes to place 2
/// ```
#[derive(Clone, Copy)]
pub struct FrameCall<'c> {
    pub callee: Scalar,
    pub parts: CallParts,
    pub arguments: &'c [Scalar],
    pub to: u32,
}

/// A function of the module, which is entered where the call has its type.
fn call_code(
    program: &mut Program<'_>,
    stack: &mut Stack,
    id: FunctionId,
    call: &FrameCall<'_>,
) -> Result<Next, AllocError>
    requires code { HasCode program.old.lists (callees.Code id) }
    requires typed { let parts = alone (module_of program.old.lists) in IsTypedCallee (typing_of parts) (look parts) (table parts) (callee_seen parts (callees.Code id)) }
    requires call { (count : ℕ) × MayCall program.old stack.old call.now.parts call.now.to call.now.arguments.now count }
    ensures called { IfOk result (λ next. (body : Decoded) (due : List Due) (m : Blocks) → IsReady program.old (newest stack.old.frames).function body
        → called (callee_seen (alone (module_of program.old.lists)) (callees.Code id)) (signature_of body.pools program.old.lists call.now.parts) (shapes_of body.pools program.old.lists call.now.parts)
        call.now.arguments.now call.now.to (core_of stack.old.frames due m) ≡ next_of next (core_of stack.new.frames due m) []) }
    ensures ready { OnOk result (StaysReady program.old stack.old program.new stack.new) }
    ensures keeps { Keeps program.old program.new }
{
    let head = program.head(id)?;
    if !program.is_same(head.signature, call.parts.signature) {
        return Ok(fails(UndefinedKind::AnotherFunctionType));
    }
    enter(program, stack, id, head.leaves, call.arguments, call.to)
}

/// A host function, which is called where the call has one of its types.
fn call_row(
    program: &Program<'_>,
    stack: &mut Stack,
    memory: &mut Memory,
    row: HostRow,
    call: &FrameCall<'_>,
    written: &mut Vec<u8>,
) -> Result<Next, AllocError>
    requires row { IsRow row }
    requires call { MayCall program.now stack.old call.now.parts call.now.to call.now.arguments.now (length memory.old.list) }
    requires none { written.old.items ≡ [] }
    requires memory { IsTypedMemory memory.old }
    requires next { HasFreeAddresses memory.old }
    ensures called { IfOk result (λ next. (body : Decoded) (due : List Due) → IsReady program.now (newest stack.old.frames).function body
        → called (host_of row) (signature_of body.pools program.now.lists call.now.parts) (shapes_of body.pools program.now.lists call.now.parts)
        call.now.arguments.now call.now.to (core_of stack.old.frames due memory.old) ≡ next_of next (core_of stack.new.frames due memory.new) written.new.items) }
    ensures ready { OnOk result ((p : Loaded) → StaysReady p stack.old p stack.new) }
{
    let types = program.types();
    let pools = program.body(stack.function()).pools();
    let parts = call.parts;
    let parameters = pools.types.in_span(parts.parameters);
    if !fits_row(types, row, parts.returns, parameters, parts.variadic) {
        return Ok(fails(UndefinedKind::AnotherFunctionType));
    }
    let shapes = pools.types.in_span(parts.shapes);
    let host = HostCall {
        row,
        shapes,
        arguments: call.arguments,
        to: call.to,
    };
    call_host(program.alloc(), types, stack, memory, &host, written)
}

/// A call of a pointer, whose address alone counts, by the newest frame, which stands behind the call already (LangRef, "call
/// Instruction"). What is written is put into `written`, in which nothing is.
///
/// It is refused for want of memory alone. Where it is refused, or the run stops, frames and memory may be half changed: no instruction
/// may follow.
pub fn call_address(
    program: &mut Program<'_>,
    stack: &mut Stack,
    memory: &mut Memory,
    call: &FrameCall<'_>,
    written: &mut Vec<u8>,
) -> Result<Next, AllocError>
    requires typed { IsTypedLook (alone (module_of program.old.lists)) }
    requires call { MayCall program.old stack.old call.now.parts call.now.to call.now.arguments.now (length memory.old.list) }
    requires none { written.old.items ≡ [] }
    requires memory { IsTypedMemory memory.old }
    requires next { HasFreeAddresses memory.old }
    ensures called { IfOk result (λ next. CallsAt program.old stack.old stack.new memory.old memory.new call.now.callee call.now.parts call.now.arguments.now
        call.now.to next written.new.items) }
    ensures ready { OnOk result (StaysReady program.old stack.old program.new stack.new) }
    ensures keeps { Keeps program.old program.new }
{
    let Scalar::Ptr(pointer) = call.callee else {
        return Ok(fails(UndefinedKind::PoisonAddress));
    };
    match program.callee(pointer.address) {
        CalleeRef::Code(id) => call_code(program, stack, id, call),
        CalleeRef::Host(row) => call_row(program, stack, memory, row, call, written),
        CalleeRef::Nothing => Ok(fails(UndefinedKind::NoFunction)),
    }
}
