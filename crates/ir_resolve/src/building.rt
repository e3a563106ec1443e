//! Builds the arena of items, step by step.
ghost use Rattle.std.specs.Prelude.{◌≡◌, ◌≤◌, None, IfOk, OnOk};
ghost use Rattle.ir_syntax.specs.Counts.{counted, most_counted};
ghost use Rattle.ir_syntax.specs.Forms.{AreItemsFormed};
ghost use Rattle.ir_syntax.specs.View.{items_view};
ghost use Rattle.type_table.specs.Types.{structs};
ghost use Rattle.module_arena.specs.Lists.{no_lists};
ghost use Rattle.module_arena.specs.View.{module_of};
ghost use Rattle.name_rules.specs.Breaks.{first_break};
ghost use Rattle.name_rules.specs.ModuleOf.{structs_in, module_of_items};
ghost use Rattle.item_build.specs.Types.Holding.{entries};
ghost use Rattle.item_build.specs.Types.Declarations.{AreFew};
ghost use Rattle.item_build.specs.Buildable.Laws.{AreBuildable};
ghost use Rattle.item_build.specs.Buildable.Narrow.{AreItemsNarrow};
ghost use Rattle.item_build.specs.Declaring.{counts_in};
ghost use Rattle.ir_resolve.specs.Whole.{without_entries, with_items};

use crate::bodies::define_items;
use ir_syntax::{Item, Items};
use item_build::types::Builder;
use item_build::{build_structs, declare_items, initialise_items, set_targets, set_texts};
use module_arena::Arena;
use std::alloc::{AllocError, Global};
use type_judge::order::dependency_order;

/// The texts and the structs of the items, and no entries, in an arena that has nothing yet. The
/// structs get their bodies in the order of these numbers first.
fn begin(
    builder: &mut Builder,
    alloc: Global,
    items: &[Item],
    order: &[u32],
) -> Result<(), AllocError>
    requires buildable { AreBuildable (items_view items.now) }
    requires unbroken { first_break (items_view items.now) ≡ None }
    requires nothing { builder.old.arena ≡ no_lists }
    ensures module { OnOk result
        (module_of builder.new.arena ≡ without_entries (items_view items.now)) }
    ensures empty { OnOk result (entries builder.new.arena ≡ no_lists) }
{
    set_texts(builder, alloc, items)?;
    build_structs(builder, alloc, items, order)?;
    Ok(())
}

/// Declares the entries of the items, and then completes them, where the arena has their structs and no entries.
fn build_entries(builder: &mut Builder, alloc: Global, items: &[Item]) -> Result<(), AllocError>
    requires buildable { AreBuildable (items_view items.now) }
    requires few { AreFew (counts_in (items_view items.now)) }
    requires few_parts { counted (items_view items.now) ≤ most_counted }
    requires structs { structs builder.old.arena.table ≡ structs_in (items_view items.now) }
    requires empty { entries builder.old.arena ≡ no_lists }
    ensures { OnOk result (module_of builder.new.arena ≡ with_items (module_of builder.old.arena) (items_view items.now)) }
{
    declare_items(builder, alloc, items)?;
    set_targets(builder, alloc, items)?;
    initialise_items(builder, alloc, items)?;
    define_items(builder, alloc, items)?;
    Ok(())
}

/// Builds what the items define, in an arena that has nothing yet. The builder is borrowed, so that
/// no exit here drops it. The structs get their bodies in the order of these numbers first.
fn build_all(
    builder: &mut Builder,
    alloc: Global,
    items: &[Item],
    order: &[u32],
) -> Result<(), AllocError>
    requires buildable { AreBuildable (items_view items.now) }
    requires few { counted (items_view items.now) ≤ most_counted }
    requires unbroken { first_break (items_view items.now) ≡ None }
    requires nothing { builder.old.arena ≡ no_lists }
    ensures { OnOk result (module_of builder.new.arena ≡ module_of_items (items_view items.now)) }
{
    begin(builder, alloc, items, order)?;
    build_entries(builder, alloc, items)?;
    Ok(())
}

/// The arena, without the tables that building it needed.
fn into_arena(builder: Builder) -> Arena
    ensures { result ≡ builder.arena }
{
    let Builder { arena, .. } = builder;
    arena
}

/// The arena of these items: texts, structs, variables, aliases and functions in the order of the text. The structs get their
/// bodies in the order of these numbers first. It is refused for want of memory alone.
pub(crate) fn build_items(alloc: Global, items: &[Item], order: &[u32]) -> Result<Arena, AllocError>
    requires buildable { AreBuildable (items_view items.now) }
    requires few { counted (items_view items.now) ≤ most_counted }
    requires unbroken { first_break (items_view items.now) ≡ None }
    ensures { IfOk result (λ arena. module_of arena ≡ module_of_items (items_view items.now)) }
{
    let mut builder = Builder::new(alloc);
    build_all(&mut builder, alloc, items, order)?;
    Ok(into_arena(builder))
}

/// The arena of the items of a text, which break no rule of names and numbers. It is refused for want of memory alone.
pub(crate) fn build(alloc: Global, items: &Items) -> Result<Arena, AllocError>
    requires formed { AreItemsFormed (items_view items.now) }
    requires narrow { AreItemsNarrow (items_view items.now) }
    requires few { counted (items_view items.now) ≤ most_counted }
    requires unbroken { first_break (items_view items.now) ≡ None }
    ensures { IfOk result (λ arena. module_of arena ≡ module_of_items (items_view items.now)) }
{
    // Each struct behind those that it holds, so that no type is measured twice.
    let order = dependency_order(alloc, items)?;
    build_items(alloc, items.as_slice(), &order)
}
