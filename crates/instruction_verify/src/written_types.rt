//! What is asked of the types that an instruction writes or gives, but for those before its operands.
ghost use Rattle.std.specs.Prelude.{◌≡◌, ◌<◌, ◌&&◌, ◌∷◌, List, All, IfSome, length, slice_get};
ghost use Rattle.std.specs.List.{list_all};
ghost use Rattle.std.specs.Option.{option_map};
ghost use Rattle.type_table.specs.Types.{structs, tree};
ghost use Rattle.module_arena.specs.EntryRules as rules;
ghost use Rattle.module_arena.specs.InstructionRules.{result_suits};
ghost use Rattle.module_arena.specs.Lists.{Lists};
ghost use Rattle.module_arena.specs.Mentions.{operands_of, types_of};
ghost use Rattle.module_arena.specs.Module.{LocalName};
ghost use Rattle.module_arena.specs.TypeTests.{is_passable, opened, part_at, part_type};
ghost use Rattle.instruction_verify.specs.ArenaOperands.{instruction_in};
ghost use Rattle.instruction_verify.specs.Parts.{own_types_suit};

use entry_verify::constants::Judge;
use entry_verify::entries::{are_passable, return_suits};
use entry_verify::types::{OpenedType, TypeJudge};
use module_arena::{Inst, Signature};
use type_table::TypeId;

/// The field with that number, where there is one.
fn field_at(fields: &[TypeId], index: u32) -> Option<TypeId>
    ensures { result ≡ slice_get fields.now index }
{
    fields.get(index as usize).copied()
}

/// The type of part number `index` of an array or a struct.
fn part_of(types: &TypeJudge<'_>, ty: TypeId, index: u32) -> Option<TypeId>
    requires { ty < length types.now.types }
    ensures part { option_map (tree types.now) result ≡ part_type (opened (structs types.now) (tree types.now ty)) index }
    ensures known { IfSome result (λ part. part < length types.now.types) }
{
    match types.opened(ty) {
        OpenedType::Array(count, element) => {
            if u64::from(index) < count {
                Some(element)
            } else {
                None
            }
        }
        OpenedType::Struct(_, fields) => field_at(fields, index),
        OpenedType::Other => None,
    }
}

/// The type of the part that the indices lead to, one after the other.
pub fn part_at(types: &TypeJudge<'_>, whole: TypeId, indices: &[u32]) -> Option<TypeId>
    requires { whole < length types.now.types }
    ensures part { option_map (tree types.now) result ≡ part_at (structs types.now) (tree types.now whole) indices.now }
    ensures known { IfSome result (λ part. part < length types.now.types) }
{
    let mut ty = whole;
    'indices: for index in indices {
        match part_of(types, ty, *index) {
            Some(part) => ty = part,
            None => return None,
        }
    }
    Some(ty)
}

/// Whether the types of a function type suit.
fn signature_suits(types: &TypeJudge<'_>, signature: &Signature) -> bool
    requires { All (λ ty. ty < length types.now.types) (signature.now.returns ∷ signature.now.parameters) }
    ensures { result ≡ (rules.return_suits (structs types.now) (tree types.now signature.now.returns) && list_all (λ ty. is_passable (structs types.now) (tree types.now ty)) signature.now.parameters) }
{
    let returned = return_suits(types, signature.returns);
    returned & are_passable(types, signature.parameters.as_slice())
}

/// Whether the indices lead to no part, or to one that is handed on.
fn part_suits(types: &TypeJudge<'_>, ty: TypeId, indices: &[u32]) -> bool
    requires { ty < length types.now.types }
    ensures { result ≡ result_suits (structs types.now) (part_at (structs types.now) (tree types.now ty) indices.now) }
{
    match part_at(types, ty, indices) {
        Some(part) => types.is_passable(part),
        None => true,
    }
}

/// Whether the types suit that an instruction gives or writes, but for those before its operands and in its callee.
#[inline(always)]
pub(crate) fn own_types_suit(types: &TypeJudge<'_>, instruction: &Inst) -> bool
    requires operands { All (λ o. o.ty < length types.now.types) (operands_of instruction.now) }
    requires written { All (λ ty. ty < length types.now.types) (types_of instruction.now) }
    ensures { (a : Lists) (values blocks : List LocalName) → types.now ≡ a.table → result ≡ own_types_suit (structs types.now) (instruction_in a values blocks instruction.now).operation }
{
    match instruction {
        Inst::Binary(_, _, _, left, _) => types.is_passable(left.ty),
        Inst::Compare(_, _, _, _, _) => true,
        Inst::Convert(_, _, _, _, to) => types.is_passable(*to),
        Inst::Select(_, choice) => types.is_passable(choice.get().first.ty),
        Inst::Freeze(_, operand) => types.is_passable(operand.ty),
        Inst::Phi(_, ty, _) => types.is_passable(*ty),
        Inst::Load(_, _, ty, _, _) => types.is_passable(*ty),
        Inst::Store(_, _, _, _) => true,
        Inst::Alloca(_, ty, _, _) => types.lies_in_memory(*ty),
        Inst::GetElementPtr(_, _, source, _, _) => types.lies_in_memory(*source),
        Inst::Call(call) => signature_suits(types, &call.get().signature),
        Inst::ExtractValue(_, aggregate, indices) => {
            part_suits(types, aggregate.ty, indices.as_slice())
        }
        Inst::InsertValue(_, insertion) => types.is_passable(insertion.get().aggregate.ty),
    }
}
