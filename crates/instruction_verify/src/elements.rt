//! What is asked of the base and the indices of `getelementptr`: rule 15.
ghost use Rattle.std.specs.Prelude.{◌≡◌, ◌<◌, List, All, IfSome, length, map};
ghost use Rattle.std.specs.List.{list_all};
ghost use Rattle.std.specs.Option.{option_map};
ghost use Rattle.type_table.specs.Types.{structs, tree};
ghost use Rattle.module_arena.specs.Constants as constants;
ghost use Rattle.module_arena.specs.Module.{LocalName};
ghost use Rattle.module_arena.specs.TypeTests.{is_integer, opened};
ghost use Rattle.module_arena.specs.ValueRules as rules;
ghost use Rattle.instruction_verify.specs.ArenaOperands.{HasConstant, HasInst, HasOperand, index_in, instruction_in, value_in};

use entry_verify::constants::{Judge, written_number};
use entry_verify::types::TypeJudge;
use module_arena::{Inst, Operand, Value};
use type_table::TypeId;

/// The number that a value writes.
fn number_in(judge: &Judge<'_>, value: Value) -> Option<u128>
    requires { HasConstant judge.now value }
    ensures { (values blocks : List LocalName) → result ≡ rules.number_in (value_in judge.now values blocks value) }
{
    match value {
        Value::Known(id) => written_number(judge.constant(id)),
        Value::Local(_) => None,
    }
}

/// The part of the type that an index leads to.
fn part_by(judge: &Judge<'_>, ty: TypeId, index: Operand) -> Option<TypeId>
    requires ty { ty < length judge.now.table.types }
    requires index { HasOperand judge.now index }
    ensures part { (values blocks : List LocalName) → constants.indexed (opened (structs judge.now.table) (tree judge.now.table ty)) (index_in judge.now values blocks index) ≡ option_map (tree judge.now.table) result }
    ensures known { IfSome result (λ part. part < length judge.now.table.types) }
{
    let number = number_in(judge, index.value);
    judge.types().indexed(ty, index.ty, number)
}

/// Whether each index leads to a part of what the index before it led to.
fn leads_to_part(judge: &Judge<'_>, source: TypeId, indices: &[Operand]) -> bool
    requires source { source < length judge.now.table.types }
    requires known { All (HasOperand judge.now) indices.now }
    ensures { (values blocks : List LocalName) → result ≡ constants.leads_to_part (structs judge.now.table) (tree judge.now.table source) (map (index_in judge.now values blocks) indices.now) }
{
    let mut ty = source;
    'indices: for index in indices {
        match part_by(judge, ty, *index) {
            Some(part) => ty = part,
            None => return false,
        }
    }
    true
}

/// Whether all these indices are integers.
fn are_integers(types: &TypeJudge<'_>, indices: &[Operand]) -> bool
    requires { All (λ o. o.ty < length types.now.types) indices.now }
    ensures { result ≡ list_all (λ o. is_integer (tree types.now o.ty)) indices.now }
{
    for index in indices {
        if !types.is_integer(index.ty) {
            return false;
        }
    }
    true
}

/// Whether the first of these indices steps over whole values of the source type, and the others lead into one.
fn indices_fit(judge: &Judge<'_>, source: TypeId, indices: &[Operand]) -> bool
    requires source { source < length judge.now.table.types }
    requires known { All (HasOperand judge.now) indices.now }
    ensures { (values blocks : List LocalName) → result ≡ constants.indices_fit (structs judge.now.table) (tree judge.now.table source) (map (index_in judge.now values blocks) indices.now) }
{
    match indices {
        [] => true,
        [_, others @ ..] => {
            let all = are_integers(judge.types(), indices);
            let leads = leads_to_part(judge, source, others);
            all & leads
        }
    }
}

/// A base is `ptr`, and each index leads to a part.
#[inline(always)]
pub(crate) fn element_address_suits(judge: &Judge<'_>, instruction: &Inst) -> bool
    requires { HasInst judge.now instruction.now }
    ensures { (values blocks : List LocalName) → result ≡ rules.element_address_suits (structs judge.now.table) (instruction_in judge.now values blocks instruction.now).operation }
{
    match instruction {
        Inst::GetElementPtr(_, _, source, base, indices) => {
            let pointer = judge.types().is_pointer(base.ty);
            pointer & indices_fit(judge, *source, indices.as_slice())
        }
        _ => true,
    }
}
