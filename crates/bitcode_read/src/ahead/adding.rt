//! Entries, added to an arena where their names are new and there is room.
ghost use Rattle.std.specs.Prelude.{◌≡◌, length, None, IfOk};
ghost use Rattle.module_arena.specs.Changes.{with_alias, with_function, with_variable};
ghost use Rattle.module_arena.specs.Known.{KnowsAlias, KnowsFunction, KnowsVariable, counts};
ghost use Rattle.bitcode_read.specs.Ahead.Entries.{IsAdded, IsRefusal};

use module_arena::{Alias, Arena, ArenaFault, Function, Variable};
use std::alloc::AllocError;

/// Not added for that fault, unless memory ran out.
fn refused(fault: ArenaFault) -> Result<bool, AllocError>
    ensures { IfOk result (λ is. IsRefusal fault is) }
{
    match fault {
        ArenaFault::Memory => Err(AllocError),
        ArenaFault::Duplicate(_) | ArenaFault::TooMany { .. } => Ok(false),
    }
}

/// Adds a variable, if its name is new and there is room, and tells whether it did.
pub(crate) fn add_variable(arena: &mut Arena, variable: Variable) -> Result<bool, AllocError>
    requires known { KnowsVariable (length arena.old.table.types) (length arena.old.constants) variable }
    requires undefined { variable.initialiser ≡ None }
    ensures { IfOk result (λ is. IsAdded arena.old (with_variable arena.old variable) variable.name is arena.new) }
{
    match arena.declare_variable(variable) {
        Ok(_) => Ok(true),
        Err(fault) => refused(fault),
    }
}

/// Adds a function, if its name is new and there is room, and tells whether it did.
pub(crate) fn add_function(arena: &mut Arena, function: Function) -> Result<bool, AllocError>
    requires known { KnowsFunction (length arena.old.table.types) (length arena.old.constants) function }
    requires undefined { function.body ≡ None }
    ensures { IfOk result (λ is. IsAdded arena.old (with_function arena.old function) function.name is arena.new) }
{
    match arena.declare_function(function) {
        Ok(_) => Ok(true),
        Err(fault) => refused(fault),
    }
}

/// Adds an alias, if its name is new and there is room, and tells whether it did.
pub(crate) fn add_alias(arena: &mut Arena, alias: Alias) -> Result<bool, AllocError>
    requires known { KnowsAlias (length arena.old.table.types) (counts arena.old) alias }
    requires undefined { alias.target ≡ None }
    ensures { IfOk result (λ is. IsAdded arena.old (with_alias arena.old alias) alias.name is arena.new) }
{
    match arena.declare_alias(alias) {
        Ok(_) => Ok(true),
        Err(fault) => refused(fault),
    }
}
