//! Which constants among operands fit.
ghost use Rattle.std.specs.Prelude.{◌≡◌, ◌<◌, List, All, map, length};
ghost use Rattle.std.specs.List.{list_all};
ghost use Rattle.type_table.specs.Types.{structs, tree, trees};
ghost use Rattle.module_arena.specs.Module.{LocalName};
ghost use Rattle.module_arena.specs.ValueRules as values;
ghost use Rattle.module_arena.specs.View.{constants_of, operand_view, value_view};
ghost use Rattle.instruction_verify.specs.Last.ValuesById.{HasConstant, IsTyped, fits_here};

use entry_verify::constants::Judge;
use module_arena::{Operand, Value};
use type_table::TypeId;

/// Whether a value that is a constant fits the type.
fn value_fits(judge: &Judge<'_>, ty: TypeId, value: Value) -> bool
    requires ty { ty < length judge.now.table.types }
    requires value { HasConstant (length judge.now.constants) value }
    ensures { (vs bs : List LocalName) → result ≡ values.value_fits (structs judge.now.table) (tree judge.now.table ty) (value_view (trees judge.now.table) (constants_of judge.now) vs bs value) }
{
    match value {
        Value::Local(_) => true,
        Value::Known(id) => judge.fits(ty, id),
    }
}

/// Whether an operand that is a constant fits the type that is written before it.
fn fits_here(judge: &Judge<'_>, operand: Operand) -> bool
    requires { IsTyped judge.now operand }
    ensures { result ≡ fits_here judge.now operand }
{
    value_fits(judge, operand.ty, operand.value)
}

/// Whether all of these fit the types that are written before them, each by its ids.
fn all_fit(judge: &Judge<'_>, operands: &[Operand]) -> bool
    requires { All (IsTyped judge.now) operands.now }
    ensures { result ≡ list_all (fits_here judge.now) operands.now }
{
    for operand in operands {
        if !fits_here(judge, *operand) {
            return false;
        }
    }
    true
}

/// Whether each constant among the operands fits the type that is written before it.
pub(crate) fn operands_fit(judge: &Judge<'_>, operands: &[Operand]) -> bool
    requires { All (IsTyped judge.now) operands.now }
    ensures { (vs bs : List LocalName) → result ≡ values.operands_fit (structs judge.now.table) (map (operand_view (trees judge.now.table) (constants_of judge.now) vs bs) operands.now) }
{
    all_fit(judge, operands)
}
