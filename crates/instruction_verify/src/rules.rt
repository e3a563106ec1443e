//! What is asked of the types that an instruction works on: rules 12 to 14 and 16.
ghost use Rattle.std.specs.Prelude.{◌≡◌, ◌<◌, List, All, length, option_to_list};
ghost use Rattle.std.specs.List.{list_all};
ghost use Rattle.std.specs.Option.{option_map};
ghost use Rattle.type_table.specs.Types.{structs, tree};
ghost use Rattle.module_arena.specs.Lists.{Lists};
ghost use Rattle.module_arena.specs.Mentions.{operands_of, types_of};
ghost use Rattle.module_arena.specs.Module.{LocalName};
ghost use Rattle.module_arena.specs.Same.{same_type};
ghost use Rattle.module_arena.specs.TypeTests.{is_integer, is_type, part_at};
ghost use Rattle.module_arena.specs.ValueRules as rules;
ghost use Rattle.instruction_verify.specs.ArenaOperands.{instruction_in};

use crate::written_types::part_at;
use entry_verify::constants::is_cast_between;
use entry_verify::types::TypeJudge;
use ir_tables::Flag;
use module_arena::{Inst, Operand};
use type_table::TypeId;

/// Binary operands are integers; those of `icmp` are integers or, without `samesign`, `ptr`; a `select` has the condition i1 and arms
/// of one type.
#[inline(always)]
pub(crate) fn arithmetic_suits(types: &TypeJudge<'_>, instruction: &Inst) -> bool
    requires { All (λ o. o.ty < length types.now.types) (operands_of instruction.now) }
    ensures { (a : Lists) (values blocks : List LocalName) → types.now ≡ a.table → result ≡ rules.arithmetic_suits (instruction_in a values blocks instruction.now).operation }
{
    match instruction {
        Inst::Binary(_, _, _, left, _) => types.is_integer(left.ty),
        Inst::Compare(flags, _, _, left, _) => {
            let pointer = types.is_pointer(left.ty);
            types.is_integer(left.ty) | (!flags.has(Flag::Samesign) & pointer)
        }
        Inst::Select(_, choice) => {
            let choice = choice.get();
            let alike = types.same_type(choice.first.ty, choice.second.ty);
            types.is_integer_of(choice.condition.ty, 1) & alike
        }
        _ => true,
    }
}

/// A cast is between types that it is for.
#[inline(always)]
pub(crate) fn cast_suits(types: &TypeJudge<'_>, instruction: &Inst) -> bool
    requires operands { All (λ o. o.ty < length types.now.types) (operands_of instruction.now) }
    requires written { All (λ ty. ty < length types.now.types) (types_of instruction.now) }
    ensures { (a : Lists) (values blocks : List LocalName) → types.now ≡ a.table → result ≡ rules.cast_suits (instruction_in a values blocks instruction.now).operation }
{
    match instruction {
        Inst::Convert(opcode, _, _, operand, to) => {
            is_cast_between(types, *opcode, operand.ty, *to)
        }
        _ => true,
    }
}

/// Whether the count of an `alloca`, where one is written, is an integer.
fn count_suits(types: &TypeJudge<'_>, count: Option<Operand>) -> bool
    requires { All (λ o. o.ty < length types.now.types) (option_to_list count) }
    ensures { result ≡ list_all (λ o. is_integer (tree types.now o.ty)) (option_to_list count) }
{
    match count {
        Some(operand) => types.is_integer(operand.ty),
        None => true,
    }
}

/// The address of `load` and `store` is `ptr`, and the count of an `alloca` is an integer.
#[inline(always)]
pub(crate) fn address_suits(types: &TypeJudge<'_>, instruction: &Inst) -> bool
    requires { All (λ o. o.ty < length types.now.types) (operands_of instruction.now) }
    ensures { (a : Lists) (values blocks : List LocalName) → types.now ≡ a.table → result ≡ rules.address_suits (instruction_in a values blocks instruction.now).operation }
{
    match instruction {
        Inst::Load(_, _, _, address, _) => types.is_pointer(address.ty),
        Inst::Store(_, _, address, _) => types.is_pointer(address.ty),
        Inst::Alloca(_, _, count, _) => count_suits(types, *count),
        _ => true,
    }
}

/// Whether the indices lead to a part of that type.
fn has_part_of(types: &TypeJudge<'_>, whole: TypeId, indices: &[u32], part: TypeId) -> bool
    requires whole { whole < length types.now.types }
    requires part { part < length types.now.types }
    ensures { result ≡ is_type (same_type (tree types.now part)) (part_at (structs types.now) (tree types.now whole) indices.now) }
{
    match part_at(types, whole, indices) {
        Some(found) => types.same_type(part, found),
        None => false,
    }
}

/// The indices name a part, and an inserted value has its type.
#[inline(always)]
pub(crate) fn part_suits(types: &TypeJudge<'_>, instruction: &Inst) -> bool
    requires { All (λ o. o.ty < length types.now.types) (operands_of instruction.now) }
    ensures { (a : Lists) (values blocks : List LocalName) → types.now ≡ a.table → result ≡ rules.part_suits (structs types.now) (instruction_in a values blocks instruction.now).operation }
{
    match instruction {
        Inst::ExtractValue(_, aggregate, indices) => {
            part_at(types, aggregate.ty, indices.as_slice()).is_some()
        }
        Inst::InsertValue(_, insertion) => {
            let insertion = insertion.get();
            let indices = insertion.indices.as_slice();
            has_part_of(types, insertion.aggregate.ty, indices, insertion.part.ty)
        }
        _ => true,
    }
}
