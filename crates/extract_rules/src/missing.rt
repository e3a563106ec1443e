//! Selected names that no definition has.
ghost use Rattle.std.specs.Prelude.{◌≡◌, not, find};
ghost use Rattle.std.specs.Option.{option_copied};
ghost use Rattle.extract_rules.specs.Entries.{is_alias, is_function_with_body, is_variable_with_initialiser};
ghost use Rattle.extract_rules.specs.Selected.{defines_variable, defines_function, defines_alias, first_missing, no_such_symbol};
ghost use Rattle.module_arena.specs.Known.{HasGlobal, counts};
ghost use Rattle.module_arena.specs.View.{module_of};

use crate::Selection;
use ir_base::Name;
use module_arena::{Arena, GlobalId};

/// Whether the entry is a function with a body.
fn is_function_with_body(arena: &Arena, id: GlobalId) -> bool
    requires { HasGlobal (counts arena.now) id }
    ensures { result ≡ is_function_with_body arena.now id }
{
    match id {
        GlobalId::Function(id) => arena.function(id).body.is_some(),
        GlobalId::Variable(_) | GlobalId::Alias(_) => false,
    }
}

/// Whether the entry is a variable with an initialiser.
fn is_variable_with_initialiser(arena: &Arena, id: GlobalId) -> bool
    requires { HasGlobal (counts arena.now) id }
    ensures { result ≡ is_variable_with_initialiser arena.now id }
{
    match id {
        GlobalId::Variable(id) => arena.variable(id).initialiser.is_some(),
        GlobalId::Function(_) | GlobalId::Alias(_) => false,
    }
}

/// Whether the entry is an alias.
fn is_alias(id: GlobalId) -> bool
    ensures { result ≡ is_alias id }
{
    match id {
        GlobalId::Alias(_) => true,
        GlobalId::Variable(_) | GlobalId::Function(_) => false,
    }
}

/// Whether a function with a body has the name.
pub(crate) fn defines_function(arena: &Arena, name: &Name) -> bool
    ensures { result ≡ defines_function (module_of arena.now) name.now }
{
    match arena.lookup(name) {
        Some(id) => is_function_with_body(arena, id),
        None => false,
    }
}

/// Whether a variable with an initialiser has the name.
fn defines_variable(arena: &Arena, name: &Name) -> bool
    ensures { result ≡ defines_variable (module_of arena.now) name.now }
{
    match arena.lookup(name) {
        Some(id) => is_variable_with_initialiser(arena, id),
        None => false,
    }
}

/// Whether an alias has the name.
fn defines_alias(arena: &Arena, name: &Name) -> bool
    ensures { result ≡ defines_alias (module_of arena.now) name.now }
{
    match arena.lookup(name) {
        Some(id) => is_alias(id),
        None => false,
    }
}

/// The first of the names that no function with a body has.
fn missing_function<'a>(arena: &Arena, names: &'a [Name]) -> Option<&'a Name>
    ensures { option_copied result ≡ first_missing (defines_function (module_of arena.now)) names.now }
{
    names.iter().find(|name| !defines_function(arena, name))
}

/// The first of the names that no variable with an initialiser has.
fn missing_variable<'a>(arena: &Arena, names: &'a [Name]) -> Option<&'a Name>
    ensures { option_copied result ≡ first_missing (defines_variable (module_of arena.now)) names.now }
{
    names.iter().find(|name| !defines_variable(arena, name))
}

/// The first of the names that no alias has.
fn missing_alias<'a>(arena: &Arena, names: &'a [Name]) -> Option<&'a Name>
    ensures { option_copied result ≡ first_missing (defines_alias (module_of arena.now)) names.now }
{
    names.iter().find(|name| !defines_alias(arena, name))
}

/// The first selected name that no definition of its kind has, functions first, then variables, then aliases. None where
/// each is there.
pub fn no_such_symbol<'a>(arena: &Arena, selection: &'a Selection) -> Option<&'a Name>
    ensures { option_copied result ≡ no_such_symbol (module_of arena.now) selection.now }
{
    if let Some(name) = missing_function(arena, selection.functions.as_slice()) {
        return Some(name);
    }
    if let Some(name) = missing_variable(arena, selection.variables.as_slice()) {
        return Some(name);
    }
    missing_alias(arena, selection.aliases.as_slice())
}
