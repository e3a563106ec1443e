//! Whether an instruction has a result.
#![tactic(auto)]

ghost use Rattle.std.specs.Prelude.{◌≡◌};
ghost use Rattle.ir_phrases.specs.Constants.View.{type_view};
ghost use Rattle.ir_phrases.specs.Instructions.View.{operation_view, instruction_view};
ghost use Rattle.name_rules.specs.Locals.{is_void, gives, has_result};

use ir_phrases::constants::Type;
use ir_phrases::instructions::{Instruction, Operation};

/// Whether the type is `void`.
fn is_void(ty: &Type) -> bool
    ensures { result ≡ is_void (type_view ty.now) }
{
    matches!(ty, Type::Void(_))
}

/// Whether the operation gives a value: a store does not, and a call does where its function returns one.
fn gives(operation: &Operation) -> bool
    ensures { result ≡ gives (operation_view operation.now) }
{
    match operation {
        Operation::Store { .. } => false,
        Operation::Call(call) => !is_void(&call.returns),
        _ => true,
    }
}

/// Whether the instruction has a result: where it gives one, or one is written.
pub(crate) fn has_result(instruction: &Instruction) -> bool
    ensures { result ≡ has_result (instruction_view instruction.now) }
{
    instruction.result.is_some() || gives(&instruction.operation)
}
