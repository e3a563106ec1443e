//! What is known of the type of a result.
ghost use Rattle.std.specs.Prelude.{◌≡◌, ◌<◌, List, All, IfSome, None, Some, length, if◌then◌else◌};
ghost use Rattle.std.specs.Option.{option_map, option_to_list};
ghost use Rattle.type_table.specs.Types.{structs, tree};
ghost use Rattle.module_arena.specs.TypeTests.{is_void, part_at};
ghost use Rattle.module_arena.specs.declared.instruction.Inst.TheVariants as inst;
ghost use Rattle.instruction_verify.specs.Last.ValuesById.{IsOf, tree_of};
ghost use Rattle.instruction_verify.specs.Last.Given.{HasTypes, given};

use crate::last::local_type::LocalType;
use crate::part_at;
use entry_verify::types::TypeJudge;
use module_arena::{Call, Inst};
use type_table::TypeId;

/// The type that a call gives: none where the called type returns none.
fn returned(types: &TypeJudge<'_>, returns: TypeId) -> LocalType
    requires { returns < length types.now.types }
    ensures ty { tree_of types.now result ≡ (if is_void (tree types.now returns) then None else Some (tree types.now returns)) }
    ensures known { IsOf types.now result }
{
    if types.is_void(returns) {
        LocalType::Nothing
    } else {
        LocalType::Written(returns)
    }
}

/// The type of the part that the indices lead to, where they lead to one.
fn part_type(types: &TypeJudge<'_>, whole: TypeId, indices: &[u32]) -> LocalType
    requires { whole < length types.now.types }
    ensures ty { tree_of types.now result ≡ part_at (structs types.now) (tree types.now whole) indices.now }
    ensures known { IsOf types.now result }
{
    match part_at(types, whole, indices) {
        Some(part) => LocalType::Written(part),
        None => LocalType::Nothing,
    }
}

/// What is known of the type of the result of a call, where it has a result.
fn call_type(types: &TypeJudge<'_>, call: &Call) -> Option<LocalType>
    requires { call.now.signature.returns < length types.now.types }
    ensures ty { option_to_list (option_map (tree_of types.now) result) ≡ given types.now (inst.Call call.now) }
    ensures known { IfSome result (IsOf types.now) }
{
    match call.result {
        Some(_) => Some(returned(types, call.signature.returns)),
        None => None,
    }
}

/// What is known of the type of the result of an instruction, where it has a result.
pub(crate) fn result_type(types: &TypeJudge<'_>, instruction: &Inst) -> Option<LocalType>
    requires { HasTypes types.now instruction.now }
    ensures ty { option_to_list (option_map (tree_of types.now) result) ≡ given types.now instruction.now }
    ensures known { IfSome result (IsOf types.now) }
{
    match instruction {
        Inst::Binary(_, _, _, left, _) => Some(LocalType::Written(left.ty)),
        Inst::Compare(_, _, _, _, _) => Some(LocalType::Truth),
        Inst::Convert(_, _, _, _, to) => Some(LocalType::Written(*to)),
        Inst::Select(_, choice) => {
            let choice = choice.get();
            Some(LocalType::Written(choice.first.ty))
        }
        Inst::Freeze(_, operand) => Some(LocalType::Written(operand.ty)),
        Inst::Phi(_, ty, _) => Some(LocalType::Written(*ty)),
        Inst::Load(_, _, ty, _, _) => Some(LocalType::Written(*ty)),
        Inst::Store(_, _, _, _) => None,
        Inst::Alloca(_, _, _, _) => Some(LocalType::Pointer),
        Inst::GetElementPtr(_, _, _, _, _) => Some(LocalType::Pointer),
        Inst::Call(call) => call_type(types, call.get()),
        Inst::ExtractValue(_, aggregate, indices) => {
            Some(part_type(types, aggregate.ty, indices.as_slice()))
        }
        Inst::InsertValue(_, insertion) => {
            let insertion = insertion.get();
            Some(LocalType::Written(insertion.aggregate.ty))
        }
    }
}
