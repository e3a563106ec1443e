//! What is asked of the types that entries write.
ghost use Rattle.std.specs.Prelude.{◌≡◌, ◌<◌, All, length};
ghost use Rattle.std.specs.List.{list_all};
ghost use Rattle.type_table.specs.Types.{tree, structs};
ghost use Rattle.module_arena.specs.Changes.{alias_in, function_in};
ghost use Rattle.module_arena.specs.EntryRules as rules;
ghost use Rattle.module_arena.specs.Known.{KnowsAlias, KnowsFunction, counts};
ghost use Rattle.module_arena.specs.TypeTests.{is_passable};

use crate::constants::Judge;
use crate::types::TypeJudge;
use module_arena::{Alias, AliasType, Function, Parameter};
use type_table::TypeId;

/// Whether a type may stand as a return type: `void`, or a type of values that are handed on.
pub fn return_suits(types: &TypeJudge<'_>, ty: TypeId) -> bool
    requires { ty < length types.now.types }
    ensures { result ≡ rules.return_suits (structs types.now) (tree types.now ty) }
{
    types.is_void(ty) | types.is_passable(ty)
}

/// Whether values of the types of these parameters are handed on.
fn parameters_suit(types: &TypeJudge<'_>, parameters: &[Parameter]) -> bool
    requires { All (λ p. p.ty < length types.now.types) parameters.now }
    ensures { result ≡ list_all (λ p. is_passable (structs types.now) (tree types.now p.ty)) parameters.now }
{
    for parameter in parameters {
        if !types.is_passable(parameter.ty) {
            return false;
        }
    }
    true
}

/// Whether values of these types are handed on.
pub fn are_passable(types: &TypeJudge<'_>, parts: &[TypeId]) -> bool
    requires { All (λ ty. ty < length types.now.types) parts.now }
    ensures { result ≡ list_all (λ ty. is_passable (structs types.now) (tree types.now ty)) parts.now }
{
    for ty in parts {
        if !types.is_passable(*ty) {
            return false;
        }
    }
    true
}

/// Whether the types of a function suit, and only a declaration is variadic.
pub fn function_types_suit(judge: &Judge<'_>, function: &Function) -> bool
    requires { KnowsFunction (length judge.now.table.types) (length judge.now.constants) function.now }
    ensures { result ≡ rules.function_types_suit (structs judge.now.table) (function_in judge.now function.now) }
{
    let types = judge.types();
    let taken = parameters_suit(types, function.parameters.as_slice());
    let returned = return_suits(types, function.result);
    let declared = function.body.is_none();
    taken & (returned & (!function.variadic | declared))
}

/// Whether the types in a function type are as those of a function, and `void` is not written elsewhere.
pub fn alias_types_suit(judge: &Judge<'_>, alias: &Alias) -> bool
    requires { KnowsAlias (length judge.now.table.types) (counts judge.now) alias.now }
    ensures { result ≡ rules.alias_types_suit (structs judge.now.table) (alias_in judge.now alias.now).ty }
{
    let types = judge.types();
    match &alias.ty {
        AliasType::Plain(ty) => types.is_free_of_void(*ty),
        AliasType::Function(returns, parameters, _) => {
            let taken = are_passable(types, parameters.as_slice());
            taken & return_suits(types, *returns)
        }
    }
}
