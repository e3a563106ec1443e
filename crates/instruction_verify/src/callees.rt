//! What is asked of what a call calls, and of alignments.
ghost use Rattle.std.specs.Prelude.{◌≡◌, ◌<◌, List, All, Some, length};
ghost use Rattle.module_arena.specs.InstructionRules as rules;
ghost use Rattle.module_arena.specs.Lists.{Lists};
ghost use Rattle.module_arena.specs.Mentions.{bare_values_of};
ghost use Rattle.module_arena.specs.Module.{LocalName};
ghost use Rattle.module_arena.specs.Module.Value.{Known};
ghost use Rattle.module_arena.specs.Operations.{callee};
ghost use Rattle.module_arena.specs.View.{constant_at, constants_of, module_of};
ghost use Rattle.instruction_verify.specs.ArenaOperands.{HasConstant, instruction_in, value_in};
ghost use Rattle.instruction_verify.specs.Parts.{is_address};

use entry_verify::constants::Judge;
use entry_verify::entries::alignment_suits;
use module_arena::{Const, ConstId, Inst, Value};

/// Whether the constant is the address of an entry.
fn is_address(constant: &Const) -> bool
    ensures { result ≡ is_address constant.now }
{
    matches!(constant, Const::Address(_))
}

/// Whether a constant that is called is the address of an entry itself, or takes the address of no intrinsic.
fn constant_takes_no_intrinsic(judge: &Judge<'_>, id: ConstId) -> bool
    requires { id < length judge.now.constants }
    ensures { result ≡ rules.callee_takes_no_intrinsic (module_of judge.now) (Some (Known (constant_at (constants_of judge.now) id))) }
{
    is_address(judge.constant(id)) | judge.takes_no_intrinsic(id)
}

/// Whether a value that is called is an entry itself, or takes the address of no intrinsic.
fn called_takes_no_intrinsic(judge: &Judge<'_>, value: Value) -> bool
    requires { HasConstant judge.now value }
    ensures { (values blocks : List LocalName) → result ≡ rules.callee_takes_no_intrinsic (module_of judge.now) (Some (value_in judge.now values blocks value)) }
{
    match value {
        Value::Known(id) => constant_takes_no_intrinsic(judge, id),
        Value::Local(_) => true,
    }
}

/// Whether what an instruction calls, where it calls, is an entry itself, or takes the address of no intrinsic.
#[inline(always)]
pub(crate) fn callee_takes_no_intrinsic(judge: &Judge<'_>, instruction: &Inst) -> bool
    requires { All (HasConstant judge.now) (bare_values_of instruction.now) }
    ensures { (values blocks : List LocalName) → result ≡ rules.callee_takes_no_intrinsic (module_of judge.now) (callee (instruction_in judge.now values blocks instruction.now).operation) }
{
    match instruction {
        Inst::Call(call) => called_takes_no_intrinsic(judge, call.get().callee),
        _ => true,
    }
}

/// Whether the types suit that are written in a value that is called.
fn called_types_suit(judge: &Judge<'_>, value: Value) -> bool
    requires { HasConstant judge.now value }
    ensures { (values blocks : List LocalName) → result ≡ rules.callee_types_suit (module_of judge.now).structs (Some (value_in judge.now values blocks value)) }
{
    match value {
        Value::Known(id) => judge.types_suit(id),
        Value::Local(_) => true,
    }
}

/// Whether the types suit that are written in what an instruction calls, where it calls.
#[inline(always)]
pub(crate) fn callee_types_suit(judge: &Judge<'_>, instruction: &Inst) -> bool
    requires { All (HasConstant judge.now) (bare_values_of instruction.now) }
    ensures { (values blocks : List LocalName) → result ≡ rules.callee_types_suit (module_of judge.now).structs (callee (instruction_in judge.now values blocks instruction.now).operation) }
{
    match instruction {
        Inst::Call(call) => called_types_suit(judge, call.get().callee),
        _ => true,
    }
}

/// Whether the alignment that an instruction states, where it states one, is a power of two of at most 65,536.
#[inline(always)]
pub(crate) fn instruction_alignment_suits(instruction: &Inst) -> bool
    ensures { (a : Lists) (values blocks : List LocalName) → result ≡ rules.operation_alignment_suits (instruction_in a values blocks instruction.now).operation }
{
    match instruction {
        Inst::Load(_, _, _, _, alignment) => alignment_suits(*alignment),
        Inst::Store(_, _, _, alignment) => alignment_suits(*alignment),
        Inst::Alloca(_, _, _, alignment) => alignment_suits(*alignment),
        _ => true,
    }
}
