//! What is asked of names, and of what aliases are of.
ghost use Rattle.std.specs.Prelude.{◌≡◌, ◌<◌, ◌&&◌, All, length, slice_get, Some, is_some};
ghost use Rattle.std.specs.List.{list_any};
ghost use Rattle.ir_base.specs.Name.{IsName};
ghost use Rattle.module_arena.specs.Changes.{alias_in, variable_in, function_in};
ghost use Rattle.module_arena.specs.EntryRules as rules;
ghost use Rattle.module_arena.specs.Known.{HasGlobal, KnowsAlias, counts};
ghost use Rattle.module_arena.specs.Lists.{name_at};
ghost use Rattle.module_arena.specs.Module as modules;
ghost use Rattle.module_arena.specs.View.{module_of};
ghost use Rattle.entry_verify.specs.Constants.FunctionIds.{is_function};
ghost use Rattle.entry_verify.specs.Entries.Readings.{KnowsTarget, alias_type_in, target_name};

use crate::constants::{is_llvm_name, is_only_called};
use crate::entries::linkages::is_lasting;
use module_arena::{
    Alias, AliasType, Arena, Function, FunctionId, GlobalId, Variable, VariableId, host_row,
    host_row_fits,
};

/// What holds of each arena: the name of each variable and of each function has a byte.
fn see_names(arena: &Arena)
    ensures variables { All (λ v. IsName v.name) arena.now.variables }
    ensures functions { All (λ f. IsName f.name) arena.now.functions }
{
    for number in 0..arena.variable_count() {
        let _name = arena.variable(VariableId::new(number)).name.text();
    }
    for place in 0..arena.function_count() {
        let _name = arena.function(FunctionId::new(place)).name.text();
    }
}

/// Whether the entry is a function.
fn is_function(id: GlobalId) -> bool
    ensures { result ≡ is_function id }
{
    matches!(id, GlobalId::Function(_))
}

/// Whether an entry with the name of the target is a function. Where an alias is of nothing, there is no such entry.
pub fn has_function(arena: &Arena, target: Option<GlobalId>) -> bool
    requires { KnowsTarget arena.now target }
    ensures { result ≡ rules.has_function (module_of arena.now) (target_name arena.now target) }
{
    // No two entries of an arena have one name.
    let _count = arena.variable_count();
    match target {
        Some(id) => is_function(id),
        None => {
            see_names(arena);
            false
        }
    }
}

/// Whether the variable is defined, and external, private or internal.
fn is_lasting_variable(variable: &Variable) -> bool
    ensures { result ≡ (is_some variable.now.initialiser && rules.is_lasting variable.now.linkage) }
{
    variable.initialiser.is_some() & is_lasting(variable.linkage)
}

/// Whether the function is defined, and external, private or internal.
fn is_lasting_function(function: &Function) -> bool
    ensures { result ≡ (is_some function.now.body && rules.is_lasting function.now.linkage) }
{
    function.body.is_some() & is_lasting(function.linkage)
}

/// Whether the entry is a variable that is such a definition.
fn leads_to_variable(arena: &Arena, id: GlobalId) -> bool
    requires { HasGlobal (counts arena.now) id }
    ensures { result ≡ list_any (rules.is_lasting_variable (name_at arena.now id)) (module_of arena.now).variables }
{
    // No two entries of an arena have one name.
    let _count = arena.variable_count();
    match id {
        GlobalId::Variable(id) => is_lasting_variable(arena.variable(id)),
        GlobalId::Function(_) => false,
        GlobalId::Alias(_) => false,
    }
}

/// Whether the entry is a function that is such a definition.
fn leads_to_function(arena: &Arena, id: GlobalId) -> bool
    requires { HasGlobal (counts arena.now) id }
    ensures { result ≡ list_any (rules.is_lasting_function (name_at arena.now id)) (module_of arena.now).functions }
{
    // No two entries of an arena have one name.
    let _count = arena.variable_count();
    match id {
        GlobalId::Function(id) => is_lasting_function(arena.function(id)),
        GlobalId::Variable(_) => false,
        GlobalId::Alias(_) => false,
    }
}

/// Whether an entry with the name of the target is a variable that is such a definition. Where an alias is of nothing, there is
/// no such entry.
fn is_variable_target(arena: &Arena, target: Option<GlobalId>) -> bool
    requires { KnowsTarget arena.now target }
    ensures { result ≡ list_any (rules.is_lasting_variable (target_name arena.now target)) (module_of arena.now).variables }
{
    match target {
        Some(id) => leads_to_variable(arena, id),
        None => {
            see_names(arena);
            false
        }
    }
}

/// Whether an entry with the name of the target is a function that is such a definition.
fn is_function_target(arena: &Arena, target: Option<GlobalId>) -> bool
    requires { KnowsTarget arena.now target }
    ensures { result ≡ list_any (rules.is_lasting_function (target_name arena.now target)) (module_of arena.now).functions }
{
    match target {
        Some(id) => leads_to_function(arena, id),
        None => {
            see_names(arena);
            false
        }
    }
}

/// Whether the target of an alias is a definition of the kind that its type says.
fn target_suits(arena: &Arena, ty: &AliasType, target: Option<GlobalId>) -> bool
    requires { KnowsTarget arena.now target }
    ensures { result ≡ rules.target_suits (module_of arena.now) (alias_type_in arena.now ty.now) (target_name arena.now target) }
{
    match ty {
        AliasType::Plain(_) => is_variable_target(arena, target),
        AliasType::Function(_, _, _) => is_function_target(arena, target),
    }
}

/// Whether an alias is external, private or internal, and so is what it is of: a variable with an initialiser or a function
/// with a body, as its type says.
pub fn alias_suits(arena: &Arena, alias: &Alias) -> bool
    requires { KnowsAlias (length arena.now.table.types) (counts arena.now) alias.now }
    ensures { result ≡ rules.alias_suits (module_of arena.now) (alias_in arena.now alias.now) }
{
    is_lasting(alias.linkage) & target_suits(arena, &alias.ty, alias.target)
}

/// Whether the target of an alias is a function that may be used only as a direct callee.
fn is_called_target(arena: &Arena, target: Option<GlobalId>) -> bool
    requires { KnowsTarget arena.now target }
    ensures { result ≡ rules.is_only_called (module_of arena.now) (target_name arena.now target) }
{
    match target {
        Some(id) => is_only_called(arena, id),
        None => false,
    }
}

/// Whether an alias has no name that begins with `llvm.`, and is of no function with such a name.
pub fn alias_names_suit(arena: &Arena, alias: &Alias) -> bool
    requires { KnowsAlias (length arena.now.table.types) (counts arena.now) alias.now }
    ensures { result ≡ rules.alias_names_suit (module_of arena.now) (alias_in arena.now alias.now) }
{
    !is_llvm_name(alias.name.text().bytes()) & !is_called_target(arena, alias.target)
}

/// Whether a function whose name begins with `llvm.` is an intrinsic that is declared, with its type.
pub fn function_name_suits(arena: &Arena, id: FunctionId) -> bool
    requires { id < length arena.now.functions }
    ensures { (f : modules.Function) → slice_get (module_of arena.now).functions id ≡ Some f → result ≡ rules.function_name_suits f }
{
    let name = arena.function(id).name.text().bytes();
    if !is_llvm_name(name) {
        return true;
    }
    match host_row(name) {
        Some(row) => host_row_fits(row, arena, id),
        None => false,
    }
}
