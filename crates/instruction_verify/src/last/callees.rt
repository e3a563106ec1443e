//! Which callees are pointers, and which constants among them fit `ptr`.
ghost use Rattle.std.specs.Prelude.{◌≡◌, ◌<◌, List, All, length};
ghost use Rattle.std.specs.Option.{option_map, option_to_list};
ghost use Rattle.type_table.specs.Tree.{ptr};
ghost use Rattle.type_table.specs.Types.{structs, trees};
ghost use Rattle.module_arena.specs.Constants as constants;
ghost use Rattle.module_arena.specs.Known.{HasValue, KnowsConst, counts};
ghost use Rattle.module_arena.specs.Mentions.{types_in};
ghost use Rattle.module_arena.specs.Module.{Function, LocalName};
ghost use Rattle.module_arena.specs.TypeTests.{is_pointer, is_type};
ghost use Rattle.module_arena.specs.ValueRules as values;
ghost use Rattle.module_arena.specs.View.{constant_at, constants_of, value_view};
ghost use Rattle.instruction_verify.specs.Last.ValuesById.{AreLocalTypes, AreTypes, HasConstant, fits_as_pointer, fits_base, fits_pointer, is_pointer_const, type_in};

use crate::last::local_type::LocalType;
use crate::last::written::type_of;
use entry_verify::constants::Judge;
use entry_verify::types::TypeJudge;
use module_arena::{Const, ConstId, TypedConst, Value, ValueId};
use type_table::TypeId;

/// Whether the type is that of pointers, and the constant fits it.
fn fits_pointer(judge: &Judge<'_>, ty: TypeId, id: ConstId) -> bool
    requires ty { ty < length judge.now.table.types }
    requires id { id < length judge.now.constants }
    ensures { result ≡ fits_pointer judge.now ty id }
{
    judge.types().is_pointer(ty) & judge.fits(ty, id)
}

/// Whether the constant with that id fits the type of its base, which is that of pointers.
fn fits_base(judge: &Judge<'_>, id: ConstId, operands: &[TypedConst]) -> bool
    requires id { id < length judge.now.constants }
    requires known { All (λ x. x.ty < length judge.now.table.types) operands.now }
    ensures { result ≡ fits_base judge.now id operands.now }
{
    match operands {
        [] => false,
        [base, ..] => fits_pointer(judge, base.ty, id),
    }
}

/// Whether the constant with that id fits `ptr`, which need not be a type of the arena.
fn fits_as_pointer(judge: &Judge<'_>, id: ConstId, constant: &Const) -> bool
    requires id { id < length judge.now.constants }
    requires known { KnowsConst (length judge.now.table.types) (counts judge.now) (length judge.now.constants) constant.now }
    ensures { result ≡ fits_as_pointer judge.now id constant.now }
{
    match constant {
        Const::Null | Const::Undef | Const::Poison | Const::ZeroInitializer | Const::Address(_) =>
            true,
        Const::Integer(_)
        | Const::Truth(_)
        | Const::ByteString(_)
        | Const::Aggregate(_, _)
        | Const::Binary(_, _, _) => false,
        Const::Cast(_, _, to) => fits_pointer(judge, *to, id),
        Const::ElementAddress(_, address) => {
            fits_base(judge, id, address.get().operands.as_slice())
        }
    }
}

/// Whether the constant fits `ptr`.
fn constant_fits(judge: &Judge<'_>, id: ConstId) -> bool
    requires { id < length judge.now.constants }
    ensures { result ≡ constants.fits (structs judge.now.table) ptr (constant_at (constants_of judge.now) id) }
{
    // The types in each constant of an arena are types of the arena.
    let arena = judge.arena();
    let _count = arena.variable_count();
    fits_as_pointer(judge, id, arena.constant(id))
}

/// Whether a value that is a constant fits `ptr`.
fn pointer_fits(judge: &Judge<'_>, value: Value) -> bool
    requires { HasConstant (length judge.now.constants) value }
    ensures { (vs bs : List LocalName) → result ≡ values.value_fits (structs judge.now.table) ptr (value_view (trees judge.now.table) (constants_of judge.now) vs bs value) }
{
    match value {
        Value::Local(_) => true,
        Value::Known(id) => constant_fits(judge, id),
    }
}

/// Whether a callee that is a constant fits `ptr`.
#[inline(always)]
pub(crate) fn callee_fits(judge: &Judge<'_>, callee: Option<Value>) -> bool
    requires { All (HasConstant (length judge.now.constants)) (option_to_list callee) }
    ensures { (vs bs : List LocalName) → result ≡ values.callee_fits (structs judge.now.table) (option_map (value_view (trees judge.now.table) (constants_of judge.now) vs bs) callee) }
{
    match callee {
        Some(value) => pointer_fits(judge, value),
        None => true,
    }
}

/// Whether the constant is a pointer, whatever it is made of.
fn is_pointer_const(types: &TypeJudge<'_>, constant: &Const) -> bool
    requires { All (λ ty. ty < length types.now.types) (types_in constant.now) }
    ensures { result ≡ is_pointer_const types.now constant.now }
{
    match constant {
        Const::Null
        | Const::Undef
        | Const::Poison
        | Const::ZeroInitializer
        | Const::Address(_)
        | Const::ElementAddress(_, _) => true,
        Const::Integer(_)
        | Const::Truth(_)
        | Const::ByteString(_)
        | Const::Aggregate(_, _)
        | Const::Binary(_, _, _) => false,
        Const::Cast(_, _, to) => types.is_pointer(*to),
    }
}

/// Whether the constant with that id is a pointer.
fn is_pointer_constant(judge: &Judge<'_>, id: ConstId) -> bool
    requires { id < length judge.now.constants }
    ensures { result ≡ constants.is_pointer_constant (constant_at (constants_of judge.now) id) }
{
    // The types in each constant of an arena are types of the arena.
    let arena = judge.arena();
    let _count = arena.variable_count();
    is_pointer_const(judge.types(), arena.constant(id))
}

/// Whether a parameter or result is a pointer.
fn is_local_pointer(judge: &Judge<'_>, value_types: &[LocalType], id: ValueId) -> bool
    requires types { AreTypes judge.now.table value_types.now }
    requires id { id < length value_types.now }
    ensures { result ≡ is_type is_pointer (type_in judge.now.table value_types.now id) }
{
    let types = judge.types();
    match type_of(judge, value_types, id) {
        LocalType::Written(ty) => types.is_pointer(ty),
        LocalType::Pointer => true,
        LocalType::Truth | LocalType::Nothing => false,
    }
}

/// Whether the value is a pointer. The list has the type of each parameter and result of the function, by its number.
pub(crate) fn is_pointer_value(judge: &Judge<'_>, value_types: &[LocalType], value: Value) -> bool
    requires types { AreTypes judge.now.table value_types.now }
    requires value { HasValue (length judge.now.constants) (length value_types.now) value }
    ensures { (f : Function) (vs bs : List LocalName) → AreLocalTypes judge.now f vs value_types.now → result ≡ values.is_pointer_value (structs judge.now.table) f (value_view (trees judge.now.table) (constants_of judge.now) vs bs value) }
{
    match value {
        Value::Local(id) => is_local_pointer(judge, value_types, id),
        Value::Known(id) => is_pointer_constant(judge, id),
    }
}
