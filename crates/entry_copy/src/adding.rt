//! Entries of names that the new arena does not have yet, added where there is room.
ghost use Rattle.std.specs.Prelude.{◌≡◌, length, None, IfOk, OnOk};
ghost use Rattle.module_arena.specs.Changes.{with_variable, with_alias, with_function, variable_in, alias_in, function_in, more_variables, more_aliases, more_functions};
ghost use Rattle.module_arena.specs.Known.{counts, KnowsVariable, KnowsAlias, KnowsFunction};
ghost use Rattle.module_arena.specs.View.{module_of};
ghost use Rattle.item_build.specs.Types.Declarations.{IsFree, AreFew, one_variable_more, one_alias_more, one_function_more};

use item_build::types::{Builder, entry_out_of_memory};
use module_arena::{Alias, Function, GlobalId, Variable};
use std::alloc::AllocError;

/// Adds a variable without an initialiser, and gives its id.
pub fn add_variable(into: &mut Builder, variable: Variable) -> Result<GlobalId, AllocError>
    requires known { KnowsVariable (length into.old.arena.table.types) (length into.old.arena.constants) variable }
    requires undefined { variable.initialiser ≡ None }
    requires free { IsFree into.old.arena variable.name }
    requires few { AreFew (one_variable_more into.old.arena) }
    ensures id { IfOk result (λ id. id ≡ GlobalId.Variable (length into.old.arena.variables)) }
    ensures lists { OnOk result (into.new.arena ≡ with_variable into.old.arena variable) }
    ensures module { OnOk result (module_of into.new.arena ≡ more_variables (module_of into.old.arena) (variable_in into.old.arena variable)) }
{
    match into.arena.declare_variable(variable) {
        Ok(id) => Ok(GlobalId::Variable(id)),
        Err(fault) => Err(entry_out_of_memory(fault)),
    }
}

/// Adds a function without a body, and gives its id.
pub fn add_function(into: &mut Builder, function: Function) -> Result<GlobalId, AllocError>
    requires known { KnowsFunction (length into.old.arena.table.types) (length into.old.arena.constants) function }
    requires undefined { function.body ≡ None }
    requires free { IsFree into.old.arena function.name }
    requires few { AreFew (one_function_more into.old.arena) }
    ensures id { IfOk result (λ id. id ≡ GlobalId.Function (length into.old.arena.functions)) }
    ensures lists { OnOk result (into.new.arena ≡ with_function into.old.arena function) }
    ensures module { OnOk result (module_of into.new.arena ≡ more_functions (module_of into.old.arena) (function_in into.old.arena function)) }
{
    match into.arena.declare_function(function) {
        Ok(id) => Ok(GlobalId::Function(id)),
        Err(fault) => Err(entry_out_of_memory(fault)),
    }
}

/// Adds an alias without a target, and gives its id.
pub fn add_alias(into: &mut Builder, alias: Alias) -> Result<GlobalId, AllocError>
    requires known { KnowsAlias (length into.old.arena.table.types) (counts into.old.arena) alias }
    requires untargeted { alias.target ≡ None }
    requires free { IsFree into.old.arena alias.name }
    requires few { AreFew (one_alias_more into.old.arena) }
    ensures id { IfOk result (λ id. id ≡ GlobalId.Alias (length into.old.arena.aliases)) }
    ensures lists { OnOk result (into.new.arena ≡ with_alias into.old.arena alias) }
    ensures module { OnOk result (module_of into.new.arena ≡ more_aliases (module_of into.old.arena) (alias_in into.old.arena alias)) }
{
    match into.arena.declare_alias(alias) {
        Ok(id) => Ok(GlobalId::Alias(id)),
        Err(fault) => Err(entry_out_of_memory(fault)),
    }
}
