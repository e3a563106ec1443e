//! What is asked of initialisers.
ghost use Rattle.std.specs.Prelude.{◌≡◌, ◌<◌, length, true};
ghost use Rattle.std.specs.Option.{option_map, option_map_or};
ghost use Rattle.type_table.specs.Types.{tree, structs};
ghost use Rattle.module_arena.specs.Changes.{variable_in};
ghost use Rattle.module_arena.specs.Constants.{fits};
ghost use Rattle.module_arena.specs.Known.{KnowsVariable};
ghost use Rattle.module_arena.specs.EntryRules as rules;
ghost use Rattle.module_arena.specs.View.{constant_at, constants_of, module_of};
ghost use Rattle.entry_verify.specs.Entries.Readings.{KnowsConstant, is_zero_const, is_list_const};

use crate::constants::Judge;
use crate::entries::linkages::{is_appending, is_common};
use crate::types::OpenedType;
use module_arena::{Brackets, Const, ConstId, Variable};
use type_table::TypeId;

/// Whether the constant is 0, `false`, `null` or `zeroinitializer`.
fn is_zero_const(constant: &Const) -> bool
    ensures { result ≡ is_zero_const constant.now }
{
    match constant {
        Const::Integer(number) => *number == 0,
        Const::Truth(truth) => !*truth,
        Const::Null | Const::ZeroInitializer => true,
        Const::Undef
        | Const::Poison
        | Const::Address(_)
        | Const::ByteString(_)
        | Const::Aggregate(_, _)
        | Const::ElementAddress(_, _)
        | Const::Cast(_, _, _)
        | Const::Binary(_, _, _) => false,
    }
}

/// Whether the initialiser is 0, `false`, `null` or `zeroinitializer`.
fn is_zero(judge: &Judge<'_>, initialiser: Option<ConstId>) -> bool
    requires { KnowsConstant judge.now initialiser }
    ensures { result ≡ rules.is_zero (option_map (constant_at (constants_of judge.now)) initialiser) }
{
    match initialiser {
        Some(id) => is_zero_const(judge.constant(id)),
        None => false,
    }
}

/// Whether the constant is a list in square brackets, or `zeroinitializer` for no element.
fn is_list_const(constant: &Const, count: u64) -> bool
    ensures { result ≡ is_list_const count constant.now }
{
    match constant {
        Const::Aggregate(Brackets::Square, _) => true,
        Const::ZeroInitializer => count == 0,
        Const::Integer(_)
        | Const::Truth(_)
        | Const::Null
        | Const::Undef
        | Const::Poison
        | Const::Address(_)
        | Const::ByteString(_)
        | Const::Aggregate(Brackets::Braces | Brackets::Packed, _)
        | Const::ElementAddress(_, _)
        | Const::Cast(_, _, _)
        | Const::Binary(_, _, _) => false,
    }
}

/// Whether the initialiser is a list in square brackets, or `zeroinitializer` for no element.
fn is_list_of(judge: &Judge<'_>, count: u64, initialiser: Option<ConstId>) -> bool
    requires { KnowsConstant judge.now initialiser }
    ensures { result ≡ rules.is_list_of count (option_map (constant_at (constants_of judge.now)) initialiser) }
{
    match initialiser {
        Some(id) => is_list_const(judge.constant(id), count),
        None => false,
    }
}

/// Whether these are an array type whose elements name no struct, and such an initialiser.
fn is_list_variable(judge: &Judge<'_>, ty: TypeId, initialiser: Option<ConstId>) -> bool
    requires ty { ty < length judge.now.table.types }
    requires initialiser { KnowsConstant judge.now initialiser }
    ensures { result ≡ rules.is_list_variable (tree judge.now.table ty) (option_map (constant_at (constants_of judge.now)) initialiser) }
{
    match judge.types().opened(ty) {
        OpenedType::Array(count, element) => {
            let free = judge.types().is_free_of_names(element);
            free & is_list_of(judge, count, initialiser)
        }
        OpenedType::Struct(_, _) | OpenedType::Other => false,
    }
}

/// Whether the initialiser takes the address of no intrinsic. True where there is none.
pub fn initialiser_takes_no_intrinsic(
    judge: &Judge<'_>,
    ty: TypeId,
    initialiser: Option<ConstId>,
) -> bool
    requires { KnowsConstant judge.now initialiser }
    ensures { result ≡ option_map_or (rules.takes_no_intrinsic (module_of judge.now) (tree judge.now.table ty)) (option_map (constant_at (constants_of judge.now)) initialiser) true }
{
    match initialiser {
        Some(id) => judge.takes_no_intrinsic(id),
        None => true,
    }
}

/// Whether the initialiser can stand where that type is written. True where there is none.
pub fn initialiser_fits(judge: &Judge<'_>, ty: TypeId, initialiser: Option<ConstId>) -> bool
    requires ty { ty < length judge.now.table.types }
    requires initialiser { KnowsConstant judge.now initialiser }
    ensures { result ≡ option_map_or (fits (structs judge.now.table) (tree judge.now.table ty)) (option_map (constant_at (constants_of judge.now)) initialiser) true }
{
    match initialiser {
        Some(id) => judge.fits(ty, id),
        None => true,
    }
}

/// Whether a variable of that type lies in memory where it is defined, the operands of constant expressions in its initialiser are of
/// types that are handed on, source types lie in memory, and `void` is written nowhere. Without an initialiser only the last is asked.
pub fn variable_types_suit(judge: &Judge<'_>, ty: TypeId, initialiser: Option<ConstId>) -> bool
    requires ty { ty < length judge.now.table.types }
    requires initialiser { KnowsConstant judge.now initialiser }
    ensures { result ≡ rules.variable_type_suits (structs judge.now.table) (tree judge.now.table ty) (option_map (constant_at (constants_of judge.now)) initialiser) }
{
    let types = judge.types();
    match initialiser {
        Some(id) => types.lies_in_memory(ty) & judge.types_suit(id),
        None => types.is_free_of_void(ty),
    }
}

/// Whether a common entry is a variable, not constant, whose initialiser is 0, `false`, `null` or `zeroinitializer`; true of any other
/// linkage.
pub fn common_suits(judge: &Judge<'_>, variable: &Variable) -> bool
    requires { KnowsVariable (length judge.now.table.types) (length judge.now.constants) variable.now }
    ensures { result ≡ rules.common_variable_suits (variable_in judge.now variable.now) }
{
    let zero = is_zero(judge, variable.initialiser);
    !is_common(variable.linkage) | (!variable.constant & zero)
}

/// Whether an appending entry has an array type whose elements name no struct, and is a list in square brackets, or
/// `zeroinitializer` for no element.
pub fn appending_suits(judge: &Judge<'_>, variable: &Variable) -> bool
    requires { KnowsVariable (length judge.now.table.types) (length judge.now.constants) variable.now }
    ensures { result ≡ rules.appending_variable_suits (variable_in judge.now variable.now) }
{
    let listed = is_list_variable(judge, variable.ty, variable.initialiser);
    !is_appending(variable.linkage) | listed
}
