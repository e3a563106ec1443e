//! What is due: constructors, and main.
ghost use Rattle.std.specs.Prelude.{◌≡◌, ◌<◌, ◌≤◌, ℕ, [], IfOk, List, OnErr, OnOk, length, map};
ghost use Rattle.ir_memory.specs.Memory.{Blocks};
ghost use Rattle.linkage_rules.specs.SameShape.{same_shape};
ghost use Rattle.module_arena.specs.View.{module_of};
ghost use Rattle.run_actions.specs.Carried.{core_of};
ghost use Rattle.run_names.specs.declared.callee.CalleeRef.TheVariants as callees;
ghost use Rattle.run_names.specs.Told.{HasCode, alone, callee_seen};
ghost use Rattle.run_acts.specs.Program.Loaded.{Keeps};
ghost use Rattle.run_rules.specs.Calls.{called, same_signature};
ghost use Rattle.run_rules.specs.Due.{called_due, constructor_type};
ghost use Rattle.run_rules.specs.Look.{host_of, table};
ghost use Rattle.run_rules.specs.State.{Constructor, Due};
ghost use Rattle.run_names.specs.Shapes.Shapes.{shape_in};
ghost use Rattle.run_names.specs.Types.Wanted.{written_as};
ghost use Rattle.type_table.specs.Shape.{void_leaf};
ghost use Rattle.typed_runs.specs.Look.Typings.{IsTypedLook};
ghost use Rattle.run_acts.specs.Dues.{AreNext, due_of, IsMainAt, main_type, MayBeDue};
ghost use Rattle.run_acts.specs.Made.{StaysReady};
ghost use Rattle.run_acts.specs.Said.{IsLast, next_of};

use crate::enter::enter;
use crate::next::{Next, Stop, fails};
use crate::program::Program;
use ir_eval::{Pointer, Scalar};
use ir_tables::UndefinedKind;
use module_arena::{Function, FunctionId, HostRow};
use run_actions::stack::Stack;
use run_names::CalleeRef;
use run_names::shapes::{TypeForm, form_of};
use run_rules::ABORTED;
use std::alloc::AllocError;
use std::marker::Model;
use type_table::{TypeId, TypeTable};

/// A function that is yet to be entered, by its address: a constructor; or main, with the count of its arguments and their array where
/// it takes them.
///
/// ```
/// DueCall::Main(address) // of `define i32 @main()`
/// DueCall::MainWith(address, 1, array) // of `define i32 @main(i32 %argc, ptr %argv)`, and one word
/// ```
#[derive(Clone, Copy)]
pub enum DueCall {
    /// A constructor.
    Constructor(u64),
    /// Main without arguments.
    Main(u64),
    /// Main with the count of its arguments and their array.
    MainWith(u64, u32, Pointer),
}

/// The calls that are due, in order. A clause sees those that are not made yet.
///
/// ```
/// let mut due = DueCalls::new(calls); // DueCall::Constructor(first) and DueCall::Main(main)
/// due.next() // Some(DueCall::Constructor(first))
/// due.next() // Some(DueCall::Main(main))
/// due.is_empty() // true
/// ```
#[derive(Drop)]
pub struct DueCalls {
    calls: Vec<DueCall>,
    made: usize,
}

impl Model for DueCalls {
    ghost use Rattle.std.specs.Prelude.{List, ◌≤◌, drop, map, vec_len};
    ghost use Rattle.run_acts.specs.Dues.{due_of};
    ghost use Rattle.run_rules.specs.State.{Due};

    ghost Value = { List Due };

    ghost view = { λ d. map due_of (drop d.made d.calls.items) };

    ghost invariant = { λ d. d.made ≤ vec_len d.calls };
}

impl DueCalls {
    /// These calls, in order.
    pub fn new(calls: Vec<DueCall>) -> DueCalls
        ensures { result ≡ map due_of calls.items }
    {
        DueCalls { calls, made: 0 }
    }

    /// Whether none is due.
    #[inline]
    pub fn is_empty(&self) -> bool
        ensures { IsLast self.now result }
    {
        self.made == self.calls.len()
    }

    /// Takes the next call, or None where none is due.
    pub fn next(&mut self) -> Option<DueCall>
        ensures { AreNext self.old result self.new }
    {
        let call = *self.calls.get(self.made)?;
        self.made += 1;
        Some(call)
    }
}

/// Whether a type is void.
fn is_void(types: &TypeTable, ty: TypeId) -> bool
    requires { ty < length types.now.types }
    ensures { result ≡ same_shape (shape_in types.now ty) void_leaf }
{
    match form_of(types, ty) {
        TypeForm::Nothing => true,
        TypeForm::Int(_) => false,
        TypeForm::Pointer => false,
        TypeForm::Opaque => false,
        TypeForm::Array(_) => false,
        TypeForm::Struct(_) => false,
    }
}

/// Whether a function has the type of a constructor, which gives nothing and takes nothing.
fn is_constructor(types: &TypeTable, function: &Function) -> bool
    requires { function.now.result < length types.now.types }
    ensures { result ≡ same_signature (written_as types.now function.now.result (map (λ p. p.ty) function.now.parameters) function.now.variadic) constructor_type }
{
    let gives_nothing = is_void(types, function.result);
    gives_nothing & function.parameters.is_empty() & !function.variadic
}

/// A constructor that is a function of the module.
fn enter_constructor(
    program: &mut Program<'_>,
    stack: &mut Stack,
    id: FunctionId,
) -> Result<Next, AllocError>
    requires code { HasCode program.old.lists (callees.Code id) }
    requires idle { stack.old.frames ≡ [] }
    ensures called { IfOk result (λ next. (due : List Due) (m : Blocks)
        → called (callee_seen (alone (module_of program.old.lists)) (callees.Code id)) constructor_type [] [] 0 (core_of [] due m) ≡ next_of next (core_of stack.new.frames due m) []) }
    ensures no_byte { IfOk result (λ next. (to : ℕ) → ¬ (next ≡ Next.Gets to)) }
    ensures ready { OnOk result (StaysReady program.old stack.old program.new stack.new) }
    ensures keeps { Keeps program.old program.new }
    ensures err { OnErr result (stack.new ≡ stack.old) }
{
    let head = program.head(id)?;
    if !is_constructor(program.types(), program.function(id)) {
        return Ok(fails(UndefinedKind::AnotherFunctionType));
    }
    enter(program, stack, id, head.leaves, &[], 0)
}

/// A constructor that is a function of the host. The one that has its type is `abort`.
fn call_host_constructor(row: HostRow) -> Next
    ensures called { (due : List Due) (m : Blocks)
        → called (host_of row) constructor_type [] [] 0 (core_of [] due m) ≡ next_of result (core_of [] due m) [] }
    ensures no_byte { (to : ℕ) → ¬ (result ≡ Next.Gets to) }
{
    match row {
        HostRow::Abort => Next::Stops(Stop::Exit(ABORTED)),
        _ => fails(UndefinedKind::AnotherFunctionType),
    }
}

/// A constructor by its address.
fn call_constructor(
    program: &mut Program<'_>,
    stack: &mut Stack,
    address: u64,
) -> Result<Next, AllocError>
    requires idle { stack.old.frames ≡ [] }
    ensures called { IfOk result (λ next. (due : List Due) (m : Blocks)
        → called_due (table (alone (module_of program.old.lists))) (Constructor address) (core_of [] due m) ≡ next_of next (core_of stack.new.frames due m) []) }
    ensures no_byte { IfOk result (λ next. (to : ℕ) → ¬ (next ≡ Next.Gets to)) }
    ensures ready { OnOk result (StaysReady program.old stack.old program.new stack.new) }
    ensures keeps { Keeps program.old program.new }
    ensures err { OnErr result (stack.new ≡ stack.old) }
{
    match program.callee(address) {
        CalleeRef::Code(id) => enter_constructor(program, stack, id),
        CalleeRef::Host(row) => Ok(call_host_constructor(row)),
        CalleeRef::Nothing => Ok(fails(UndefinedKind::NoFunction)),
    }
}

/// Main by its address, which is a function of the module with the type that these arguments have.
fn call_main(
    program: &mut Program<'_>,
    stack: &mut Stack,
    address: u64,
    arguments: &[Scalar],
) -> Result<Next, AllocError>
    requires idle { stack.old.frames ≡ [] }
    requires typed { IsTypedLook (alone (module_of program.old.lists)) }
    requires main { IsMainAt (alone (module_of program.old.lists)) address arguments.now }
    requires few { length arguments.now ≤ length (main_type arguments.now).parameters }
    ensures called { IfOk result (λ next. (due : List Due) (m : Blocks)
        → called (table (alone (module_of program.old.lists)) address) (main_type arguments.now) (main_type arguments.now).parameters arguments.now 0 (core_of [] due m) ≡ next_of next (core_of stack.new.frames due m) []) }
    ensures no_byte { IfOk result (λ next. (to : ℕ) → ¬ (next ≡ Next.Gets to)) }
    ensures ready { OnOk result (StaysReady program.old stack.old program.new stack.new) }
    ensures keeps { Keeps program.old program.new }
    ensures err { OnErr result (stack.new ≡ stack.old) }
{
    let CalleeRef::Code(id) = program.callee(address) else {
        unreachable!()
    };
    let head = program.head(id)?;
    enter(program, stack, id, head.leaves, arguments, 0)
}

/// Makes a call that is due, where no function is under way. Nothing takes its result, and nothing is written.
///
/// It is refused for want of memory alone, and then no function is under way still.
pub fn call_due(
    program: &mut Program<'_>,
    stack: &mut Stack,
    due: DueCall,
) -> Result<Next, AllocError>
    requires idle { stack.old.frames ≡ [] }
    requires typed { IsTypedLook (alone (module_of program.old.lists)) }
    requires due { MayBeDue (alone (module_of program.old.lists)) due }
    ensures called { IfOk result (λ next. (others : List Due) (m : Blocks)
        → called_due (table (alone (module_of program.old.lists))) (due_of due) (core_of [] others m) ≡ next_of next (core_of stack.new.frames others m) []) }
    ensures no_byte { IfOk result (λ next. (to : ℕ) → ¬ (next ≡ Next.Gets to)) }
    ensures ready { OnOk result (StaysReady program.old stack.old program.new stack.new) }
    ensures keeps { Keeps program.old program.new }
    ensures err { OnErr result (stack.new ≡ stack.old) }
{
    match due {
        DueCall::Constructor(address) => call_constructor(program, stack, address),
        DueCall::Main(address) => call_main(program, stack, address, &[]),
        DueCall::MainWith(address, count, array) => {
            let arguments = [Scalar::Int(u128::from(count)), Scalar::Ptr(array)];
            call_main(program, stack, address, &arguments)
        }
    }
}
