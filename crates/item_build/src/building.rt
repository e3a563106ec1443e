//! Gives the structs of a text their bodies.
ghost use Rattle.std.specs.Prelude.{◌≡◌, ◌<◌, ◌^◌, ◌-◌, None, IfOk, OnOk};
ghost use Rattle.ir_syntax.specs.View.{item_view, items_view};
ghost use Rattle.type_table.specs.Tree.{Structs};
ghost use Rattle.type_table.specs.Types.{structs, no_types};
ghost use Rattle.module_arena.specs.View.{module_of};
ghost use Rattle.name_rules.specs.Breaks.{first_break};
ghost use Rattle.name_rules.specs.ModuleOf.{structs_in};
ghost use Rattle.item_build.specs.Types.Holding.{entries};
ghost use Rattle.item_build.specs.Buildable.Laws.{AreBuildable};
ghost use Rattle.item_build.specs.Named.{CanDefineItem, struct_behind, AreDone};
ghost use Rattle.item_build.specs.Partly.{IsPartly, AllFit, with_structs};

use crate::along::define_along;
use crate::defining::define_struct;
use crate::naming::name_structs;
use crate::types::Builder;
use ir_syntax::Item;
use std::alloc::{AllocError, Global};

/// Gives the struct with that number its body, where the item is one, and tells the next number.
pub(crate) fn define_item(
    builder: &mut Builder,
    alloc: Global,
    number: u32,
    item: &Item,
) -> Result<u32, AllocError>
    requires small { number < 2 ^ 32 - 1 }
    requires can { (whole : Structs) × CanDefineItem whole builder.old.arena number (item_view item.now) }
    ensures module { OnOk result (module_of builder.new.arena ≡ with_structs (module_of builder.old.arena) (structs builder.new.arena.table)) }
    ensures entries { OnOk result (entries builder.new.arena ≡ entries builder.old.arena) }
    ensures next { IfOk result (λ next. next ≡ struct_behind number (item_view item.now)) }
    ensures partly { (whole : Structs) → CanDefineItem whole builder.old.arena number (item_view item.now) → IsPartly whole builder.old.arena → OnOk result (IsPartly whole builder.new.arena) }
    ensures done { (whole : Structs) → CanDefineItem whole builder.old.arena number (item_view item.now) → AreDone whole builder.old.arena number → IfOk result (λ next. AreDone whole builder.new.arena next) }
{
    match item {
        Item::Struct { body, .. } => {
            define_struct(builder, alloc, number, body)?;
            Ok(number + 1)
        }
        _ => Ok(number),
    }
}

/// Gives the structs of a text, which are named, their bodies.
fn define_structs(builder: &mut Builder, alloc: Global, items: &[Item]) -> Result<(), AllocError>
    requires buildable { AreBuildable (items_view items.now) }
    requires fit { AllFit (structs_in (items_view items.now)) }
    requires partly { IsPartly (structs_in (items_view items.now)) builder.old.arena }
    ensures module { OnOk result (module_of builder.new.arena ≡ with_structs (module_of builder.old.arena) (structs_in (items_view items.now))) }
    ensures entries { OnOk result (entries builder.new.arena ≡ entries builder.old.arena) }
{
    let mut number: u32 = 0;
    'items: for item in items {
        number = define_item(builder, alloc, number, item)?;
    }
    Ok(())
}

/// Names the structs of a text, in order, and gives each its body, where the arena has no types: in the order of these numbers first, and
/// then in that of the text. Where the order has each struct behind those that it holds, the time is linear. Only memory may be wanting.
pub fn build_structs(
    builder: &mut Builder,
    alloc: Global,
    items: &[Item],
    order: &[u32],
) -> Result<(), AllocError>
    requires buildable { AreBuildable (items_view items.now) }
    requires unbroken { first_break (items_view items.now) ≡ None }
    requires empty { builder.old.arena.table ≡ no_types }
    ensures module { OnOk result (module_of builder.new.arena ≡ with_structs (module_of builder.old.arena) (structs_in (items_view items.now))) }
    ensures entries { OnOk result (entries builder.new.arena ≡ entries builder.old.arena) }
{
    name_structs(builder, alloc, items)?;
    define_along(builder, alloc, items, order)?;
    define_structs(builder, alloc, items)?;
    Ok(())
}
