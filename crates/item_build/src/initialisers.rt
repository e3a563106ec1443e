//! Gives the variables of a text their initialisers.
ghost use Rattle.std.specs.Prelude.{◌≡◌, ◌<◌, ◌≤◌, ◌^◌, ◌-◌, ◌+◌, [], length, slice_get, Some, None, OnOk, IfOk};
ghost use Rattle.ir_phrases.specs.Constants.View.{type_view};
ghost use Rattle.ir_syntax.specs.View.{variable_view, item_view, items_view};
ghost use Rattle.type_table.specs.Types.{structs};
ghost use Rattle.module_arena.specs.View.{module_of};
ghost use Rattle.module_arena.specs.declared.entry.Variable as the_variable;
ghost use Rattle.name_rules.specs.ModuleOf.{structs_in};
ghost use Rattle.name_rules.specs.Written.{type_in};
ghost use Rattle.item_build.specs.Types.Fitting.{CanBe};
ghost use Rattle.item_build.specs.Types.Holding.{entries};
ghost use Rattle.item_build.specs.Types.Declarations.{AreFew};
ghost use Rattle.item_build.specs.Buildable.Entries.{CanDeclare, CanInitialise, CanComplete};
ghost use Rattle.item_build.specs.Buildable.Laws.{AreBuildable};
ghost use Rattle.item_build.specs.Declaring.{declared_variables, AreNamed, counts_in};
ghost use Rattle.item_build.specs.Completing.{initialised_by, initialised_in, variable_behind, with_initialisers};

use crate::types::{Builder, initialise};
use ir_syntax::{Item, WrittenVariable};
use module_arena::VariableId;
use std::alloc::{AllocError, Global};

/// Gives the variable with that number its initialiser, where one is written.
fn initialise_variable(
    builder: &mut Builder,
    alloc: Global,
    number: u32,
    variable: &WrittenVariable,
) -> Result<(), AllocError>
    requires known { number < length builder.old.arena.variables }
    requires undefined { (v : the_variable.Variable) → slice_get builder.old.arena.variables number ≡ Some v → v.initialiser ≡ None }
    requires ty { CanBe (structs builder.old.arena.table) (type_in (type_view variable.now.ty)) }
    requires can { CanInitialise (structs builder.old.arena.table) (entries builder.old.arena) (variable_view variable.now).initialiser }
    ensures { OnOk result (module_of builder.new.arena ≡ initialised_by (module_of builder.old.arena) number (type_in (type_view variable.now.ty)) (variable_view variable.now).initialiser) }
{
    match &variable.initialiser {
        Some(constant) => initialise(
            builder,
            alloc,
            VariableId::new(number),
            constant,
            &variable.ty,
        ),
        None => Ok(()),
    }
}

/// Gives the variable with that number its initialiser, where the item is one that has one, and tells the next number.
fn initialise_in(
    builder: &mut Builder,
    alloc: Global,
    number: u32,
    item: &Item,
) -> Result<u32, AllocError>
    requires known { variable_behind number (item_view item.now) ≤ length builder.old.arena.variables }
    requires small { length builder.old.arena.variables < 2 ^ 32 - 1 }
    requires undefined { (v : the_variable.Variable) → variable_behind number (item_view item.now) ≡ number + 1 → slice_get builder.old.arena.variables number ≡ Some v → v.initialiser ≡ None }
    requires declared { CanDeclare (structs builder.old.arena.table) (item_view item.now) }
    requires can { CanComplete (structs builder.old.arena.table) (entries builder.old.arena) (item_view item.now) }
    ensures module { OnOk result (module_of builder.new.arena ≡ initialised_in (module_of builder.old.arena) number (item_view item.now)) }
    ensures next { IfOk result (λ next. next ≡ variable_behind number (item_view item.now)) }
{
    match item {
        Item::Variable(variable) => {
            initialise_variable(builder, alloc, number, variable)?;
            Ok(number + 1)
        }
        _ => Ok(number),
    }
}

/// Gives the variables of a text, which are declared, their initialisers. Only memory may be wanting.
pub fn initialise_items(
    builder: &mut Builder,
    alloc: Global,
    items: &[Item],
) -> Result<(), AllocError>
    requires buildable { AreBuildable (items_view items.now) }
    requires few { AreFew (counts_in (items_view items.now)) }
    requires structs { structs builder.old.arena.table ≡ structs_in (items_view items.now) }
    requires named { AreNamed (module_of builder.old.arena) (items_view items.now) }
    requires declared { (module_of builder.old.arena).variables ≡ declared_variables (items_view items.now) }
    ensures { OnOk result (module_of builder.new.arena ≡ with_initialisers (module_of builder.old.arena) (items_view items.now) []) }
{
    let mut number: u32 = 0;
    'items: for item in items {
        number = initialise_in(builder, alloc, number, item)?;
    }
    Ok(())
}
