//! Declares what the items of a text declare.
ghost use Rattle.std.specs.Prelude.{◌≡◌, ◌<◌, ◌≤◌, ◌^◌, ◌-◌, OnOk};
ghost use Rattle.ir_syntax.specs.Counts.{most_counted};
ghost use Rattle.ir_syntax.specs.Counts.{counted, item_count};
ghost use Rattle.ir_syntax.specs.View.{item_view, items_view};
ghost use Rattle.type_table.specs.Types.{structs};
ghost use Rattle.module_arena.specs.Lists.{no_lists};
ghost use Rattle.module_arena.specs.View.{module_of};
ghost use Rattle.name_rules.specs.Breaks.{global_name};
ghost use Rattle.name_rules.specs.ModuleOf.{structs_in};
ghost use Rattle.item_build.specs.Types.Holding.{entries};
ghost use Rattle.item_build.specs.Types.Declarations.{AreFew, AreUntargeted};
ghost use Rattle.item_build.specs.Buildable.Entries.{CanDeclare};
ghost use Rattle.item_build.specs.Buildable.Laws.{AreBuildable};
ghost use Rattle.item_build.specs.Declaring.{declared_in, with_declared, IsNewName, HasRoom, counts_in};

use crate::types::{
    Builder, declare_alias, declare_definition, declare_function, declare_variable,
};
use ir_syntax::Item;
use std::alloc::{AllocError, Global};

/// Declares the variable, alias or function that the item is; another item declares nothing.
fn declare_item(builder: &mut Builder, alloc: Global, item: &Item) -> Result<(), AllocError>
    requires can { CanDeclare (structs builder.old.arena.table) (item_view item.now) }
    requires few_parameters { item_count (item_view item.now) < 2 ^ 32 - 1 }
    requires free { IsNewName builder.old.arena (global_name (item_view item.now)) }
    requires room { HasRoom builder.old.arena (item_view item.now) }
    ensures module { OnOk result (module_of builder.new.arena ≡ declared_in (module_of builder.old.arena) (item_view item.now)) }
    ensures untargeted { AreUntargeted 0 builder.old.arena → OnOk result (AreUntargeted 0 builder.new.arena) }
{
    match item {
        Item::Variable(variable) => {
            declare_variable(builder, alloc, variable)?;
        }
        Item::Alias(alias) => {
            declare_alias(builder, alloc, alias)?;
        }
        Item::Declaration { declaration, .. } => {
            declare_function(builder, alloc, declaration)?;
        }
        Item::Definition { definition, .. } => {
            declare_definition(builder, alloc, definition)?;
        }
        Item::SourceFilename { .. }
        | Item::DataLayout { .. }
        | Item::TargetTriple { .. }
        | Item::Struct { .. }
        | Item::Attributes(_)
        | Item::Metadata(_) => {}
    }
    Ok(())
}

/// Declares the variables, aliases and functions of a text, in order, where the arena has its structs and no entries. Only memory may be
/// wanting.
pub fn declare_items(builder: &mut Builder, alloc: Global, items: &[Item]) -> Result<(), AllocError>
    requires buildable { AreBuildable (items_view items.now) }
    requires few { AreFew (counts_in (items_view items.now)) }
    requires few_parts { counted (items_view items.now) ≤ most_counted }
    requires structs { structs builder.old.arena.table ≡ structs_in (items_view items.now) }
    requires empty { entries builder.old.arena ≡ no_lists }
    ensures module { OnOk result (module_of builder.new.arena ≡ with_declared (module_of builder.old.arena) (items_view items.now)) }
    ensures untargeted { OnOk result (AreUntargeted 0 builder.new.arena) }
{
    'items: for item in items {
        declare_item(builder, alloc, item)?;
    }
    Ok(())
}
