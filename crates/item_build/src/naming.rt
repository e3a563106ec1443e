//! Names the structs of a text.
ghost use Rattle.std.specs.Prelude.{◌≡◌, ◌<◌, ◌^◌, ◌-◌, length, OnOk};
ghost use Rattle.ir_syntax.specs.View.{item_view, items_view};
ghost use Rattle.type_table.specs.Types.{structs, no_types};
ghost use Rattle.module_arena.specs.View.{module_of};
ghost use Rattle.name_rules.specs.ModuleOf.{structs_in};
ghost use Rattle.item_build.specs.Types.Holding.{entries};
ghost use Rattle.item_build.specs.Buildable.Laws.{AreBuildable};
ghost use Rattle.item_build.specs.Named.{named_table, named_in, IsNewStruct};
ghost use Rattle.item_build.specs.Partly.{with_structs};

use crate::types::{Builder, type_out_of_memory};
use ir_syntax::Item;
use std::alloc::{AllocError, Global};

/// Names the struct that the item is; another item names none.
fn name_item(builder: &mut Builder, alloc: Global, item: &Item) -> Result<(), AllocError>
    requires few { length builder.old.arena.table.structs < 2 ^ 32 - 1 }
    requires free { IsNewStruct builder.old.arena.table (item_view item.now) }
    ensures table { OnOk result (builder.new.arena.table ≡ named_in builder.old.arena.table (item_view item.now)) }
    ensures module { OnOk result (module_of builder.new.arena ≡ with_structs (module_of builder.old.arena) (structs builder.new.arena.table)) }
    ensures entries { OnOk result (entries builder.new.arena ≡ entries builder.old.arena) }
{
    match item {
        Item::Struct { name, .. } => {
            let name = name.name.to_name(alloc)?;
            match builder.arena.name_struct(name) {
                Ok(_) => Ok(()),
                Err(fault) => Err(type_out_of_memory(fault)),
            }
        }
        _ => Ok(()),
    }
}

/// Names the structs of a text, in order, where the arena has no types.
pub(crate) fn name_structs(
    builder: &mut Builder,
    alloc: Global,
    items: &[Item],
) -> Result<(), AllocError>
    requires buildable { AreBuildable (items_view items.now) }
    requires empty { builder.old.arena.table ≡ no_types }
    ensures table { OnOk result (builder.new.arena.table ≡ named_table (structs_in (items_view items.now))) }
    ensures module { OnOk result (module_of builder.new.arena ≡ with_structs (module_of builder.old.arena) (structs builder.new.arena.table)) }
    ensures entries { OnOk result (entries builder.new.arena ≡ entries builder.old.arena) }
{
    'items: for item in items {
        name_item(builder, alloc, item)?;
    }
    Ok(())
}
