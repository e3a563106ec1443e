//! Which local values have the types that are written before them.
ghost use Rattle.std.specs.Prelude.{◌≡◌, ◌<◌, List, All, map, length};
ghost use Rattle.std.specs.List.{list_all};
ghost use Rattle.type_table.specs.Types.{structs, tree, trees};
ghost use Rattle.module_arena.specs.Known.{HasOperand, HasValue};
ghost use Rattle.module_arena.specs.Module.{Function, LocalName};
ghost use Rattle.module_arena.specs.Same.{same_type};
ghost use Rattle.module_arena.specs.TypeTests.{is_type};
ghost use Rattle.module_arena.specs.ValueRules as values;
ghost use Rattle.module_arena.specs.View.{constants_of, operand_view};
ghost use Rattle.instruction_verify.specs.Last.ValuesById.{AreLocalTypes, AreTypes, IsOf, has_own_type, has_type, tree_of, type_in};

use crate::last::local_type::LocalType;
use entry_verify::constants::Judge;
use module_arena::{Operand, Value, ValueId};
use type_table::TypeId;

/// What is known of the type of a parameter or result, from the list of these types.
pub(crate) fn type_of(judge: &Judge<'_>, value_types: &[LocalType], id: ValueId) -> LocalType
    requires types { AreTypes judge.now.table value_types.now }
    requires id { id < length value_types.now }
    ensures ty { tree_of judge.now.table result ≡ type_in judge.now.table value_types.now id }
    ensures known { IsOf judge.now.table result }
{
    value_types[id.number() as usize]
}

/// Whether a parameter or result has the type.
#[inline(always)]
fn has_local_type(judge: &Judge<'_>, value_types: &[LocalType], ty: TypeId, id: ValueId) -> bool
    requires types { AreTypes judge.now.table value_types.now }
    requires ty { ty < length judge.now.table.types }
    requires id { id < length value_types.now }
    ensures { result ≡ is_type (same_type (tree judge.now.table ty)) (type_in judge.now.table value_types.now id) }
{
    let types = judge.types();
    match type_of(judge, value_types, id) {
        LocalType::Written(found) => types.same_type(ty, found),
        LocalType::Truth => types.is_integer_of(ty, 1),
        LocalType::Pointer => types.is_pointer(ty),
        LocalType::Nothing => false,
    }
}

/// Whether the value is a constant, or has the type by the list, which has the types of parameters and results by their numbers.
#[inline(always)]
pub fn has_type(judge: &Judge<'_>, value_types: &[LocalType], ty: TypeId, value: Value) -> bool
    requires types { AreTypes judge.now.table value_types.now }
    requires ty { ty < length judge.now.table.types }
    requires value { HasValue (length judge.now.constants) (length value_types.now) value }
    ensures { result ≡ has_type judge.now.table value_types.now ty value }
{
    match value {
        Value::Local(id) => has_local_type(judge, value_types, ty, id),
        Value::Known(_) => true,
    }
}

/// Whether all of these have the types that are written before them, each by its ids.
#[inline(always)]
pub(crate) fn all_have(judge: &Judge<'_>, value_types: &[LocalType], operands: &[Operand]) -> bool
    requires types { AreTypes judge.now.table value_types.now }
    requires known { All (HasOperand (length judge.now.table.types) (length judge.now.constants) (length value_types.now)) operands.now }
    ensures { result ≡ list_all (has_own_type judge.now.table value_types.now) operands.now }
{
    for operand in operands {
        if !has_type(judge, value_types, operand.ty, operand.value) {
            return false;
        }
    }
    true
}

/// Whether local values among the operands have the types that are written before them, struct by struct name. The list has
/// the type of each parameter and result of the function, by its number.
#[inline(always)]
pub(crate) fn have_types_written(
    judge: &Judge<'_>,
    value_types: &[LocalType],
    operands: &[Operand],
) -> bool
    requires types { AreTypes judge.now.table value_types.now }
    requires known { All (HasOperand (length judge.now.table.types) (length judge.now.constants) (length value_types.now)) operands.now }
    ensures { (f : Function) (vs bs : List LocalName) → AreLocalTypes judge.now f vs value_types.now → result ≡ values.have_types_written (structs judge.now.table) f (map (operand_view (trees judge.now.table) (constants_of judge.now) vs bs) operands.now) }
{
    all_have(judge, value_types, operands)
}
