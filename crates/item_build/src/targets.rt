//! Gives the aliases of a text their targets.
ghost use Rattle.std.specs.Prelude.{◌≡◌, ◌<◌, ◌≤◌, ◌^◌, ◌-◌, [], length, OnOk, IfOk};
ghost use Rattle.ir_syntax.specs.View.{item_view, items_view};
ghost use Rattle.type_table.specs.Types.{structs};
ghost use Rattle.module_arena.specs.View.{module_of};
ghost use Rattle.name_rules.specs.ModuleOf.{structs_in};
ghost use Rattle.item_build.specs.Types.Holding.{entries};
ghost use Rattle.item_build.specs.Types.Declarations.{AreFew, AreUntargeted};
ghost use Rattle.item_build.specs.Buildable.Entries.{CanComplete};
ghost use Rattle.item_build.specs.Buildable.Laws.{AreBuildable};
ghost use Rattle.item_build.specs.Declaring.{declared_aliases, AreNamed, counts_in};
ghost use Rattle.item_build.specs.Completing.{targeted_in, alias_behind, with_targets};

use crate::types::{Builder, set_target};
use ir_syntax::Item;
use module_arena::AliasId;
use std::alloc::{AllocError, Global};

/// Gives the alias with that number its target, where the item is one, and tells the next number.
fn set_target_in(
    builder: &mut Builder,
    alloc: Global,
    number: u32,
    item: &Item,
) -> Result<u32, AllocError>
    requires known { alias_behind number (item_view item.now) ≤ length builder.old.arena.aliases }
    requires small { length builder.old.arena.aliases < 2 ^ 32 - 1 }
    requires untargeted { AreUntargeted number builder.old.arena }
    requires can { CanComplete (structs builder.old.arena.table) (entries builder.old.arena) (item_view item.now) }
    ensures module { OnOk result (module_of builder.new.arena ≡ targeted_in (module_of builder.old.arena) number (item_view item.now)) }
    ensures next { IfOk result (λ next. next ≡ alias_behind number (item_view item.now)) }
    ensures untargeted { IfOk result (λ next. AreUntargeted next builder.new.arena) }
{
    match item {
        Item::Alias(alias) => {
            set_target(builder, alloc, AliasId::new(number), alias)?;
            Ok(number + 1)
        }
        _ => Ok(number),
    }
}

/// Gives the aliases of a text, which are declared, their targets. Only memory may be wanting.
pub fn set_targets(builder: &mut Builder, alloc: Global, items: &[Item]) -> Result<(), AllocError>
    requires buildable { AreBuildable (items_view items.now) }
    requires few { AreFew (counts_in (items_view items.now)) }
    requires structs { structs builder.old.arena.table ≡ structs_in (items_view items.now) }
    requires named { AreNamed (module_of builder.old.arena) (items_view items.now) }
    requires declared { (module_of builder.old.arena).aliases ≡ declared_aliases (items_view items.now) }
    requires untargeted { AreUntargeted 0 builder.old.arena }
    ensures { OnOk result (module_of builder.new.arena ≡ with_targets (module_of builder.old.arena) (items_view items.now) []) }
{
    let mut number: u32 = 0;
    'items: for item in items {
        number = set_target_in(builder, alloc, number, item)?;
    }
    Ok(())
}
