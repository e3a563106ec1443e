//! Gives the functions of a text their blocks.
ghost use Rattle.std.specs.Prelude.{◌≡◌, ◌<◌, ◌≤◌, ◌^◌, ◌-◌, ◌+◌, [], map, length, slice_get, Some, None, OnOk, IfOk};
ghost use Rattle.ir_phrases.specs.Instructions.View.{block_view};
ghost use Rattle.ir_syntax.specs.View.{parameter_view, item_view, items_view};
ghost use Rattle.type_table.specs.Types.{structs};
ghost use Rattle.module_arena.specs.Changes.{defined};
ghost use Rattle.module_arena.specs.Module as m;
ghost use Rattle.module_arena.specs.View.{module_of};
ghost use Rattle.module_arena.specs.declared.entry.Function as the_function;
ghost use Rattle.name_rules.specs.ModuleOf.{structs_in};
ghost use Rattle.item_build.specs.Types.Holding.{entries};
ghost use Rattle.item_build.specs.Types.Declarations.{AreFew};
ghost use Rattle.item_build.specs.Buildable.Bodies.{CanBody, parameter_names, body_of};
ghost use Rattle.item_build.specs.Buildable.Entries.{CanComplete};
ghost use Rattle.item_build.specs.Buildable.Laws.{AreBuildable};
ghost use Rattle.item_build.specs.Declaring.{declared_functions, AreNamed, counts_in};
ghost use Rattle.ir_resolve.specs.Defining.{defined_in, function_behind, IsCalledSo, with_bodies};

use crate::body::build_body;
use crate::instruction_build::Locals;
use ir_syntax::{Definition, Item};
use item_build::types::Builder;
use module_arena::FunctionId;
use std::alloc::{AllocError, Global};

/// Gives the function with that number the blocks of the definition. The table of locals may be that of any function before.
fn define_function<'a>(
    builder: &mut Builder,
    alloc: Global,
    locals: &mut Locals<'a>,
    number: u32,
    written: &'a Definition,
) -> Result<(), AllocError>
    requires known { number < length builder.old.arena.functions }
    requires undefined { (f : the_function.Function) → slice_get builder.old.arena.functions number ≡ Some f → f.body ≡ None }
    requires called { (f : m.Function) → slice_get (module_of builder.old.arena).functions number ≡ Some f → map (λ p. p.name) f.parameters ≡ parameter_names (map parameter_view written.now.parameters.items) }
    requires can { CanBody (structs builder.old.arena.table) (entries builder.old.arena) (map parameter_view written.now.parameters.items) (map block_view written.now.blocks.items) }
    ensures { OnOk result (module_of builder.new.arena ≡ defined (module_of builder.old.arena) number (λ f. body_of (map parameter_view written.now.parameters.items) (map block_view written.now.blocks.items))) }
{
    let body = build_body(builder, alloc, locals, &written.parameters, &written.blocks)?;
    builder.arena.define(FunctionId::new(number), body);
    Ok(())
}

/// Gives the function with that number its blocks, where the item is a definition, and tells the next number. The table of
/// locals may be that of any function before.
fn define_item<'a>(
    builder: &mut Builder,
    alloc: Global,
    locals: &mut Locals<'a>,
    number: u32,
    item: &'a Item,
) -> Result<u32, AllocError>
    requires known { function_behind number (item_view item.now) ≤ length builder.old.arena.functions }
    requires small { length builder.old.arena.functions < 2 ^ 32 - 1 }
    requires undefined { (f : the_function.Function) → function_behind number (item_view item.now) ≡ number + 1 → slice_get builder.old.arena.functions number ≡ Some f → f.body ≡ None }
    requires called { (f : m.Function) → slice_get (module_of builder.old.arena).functions number ≡ Some f → IsCalledSo (item_view item.now) f }
    requires can { CanComplete (structs builder.old.arena.table) (entries builder.old.arena) (item_view item.now) }
    ensures module { OnOk result (module_of builder.new.arena ≡ defined_in (module_of builder.old.arena) number (item_view item.now)) }
    ensures next { IfOk result (λ next. next ≡ function_behind number (item_view item.now)) }
{
    match item {
        Item::Definition { definition, .. } => {
            define_function(builder, alloc, locals, number, definition)?;
            Ok(number + 1)
        }
        Item::Declaration { .. } => Ok(number + 1),
        _ => Ok(number),
    }
}

/// Gives the functions of a text, which are declared, their blocks. It is refused for want of memory alone.
pub(crate) fn define_items(
    builder: &mut Builder,
    alloc: Global,
    items: &[Item],
) -> Result<(), AllocError>
    requires buildable { AreBuildable (items_view items.now) }
    requires few { AreFew (counts_in (items_view items.now)) }
    requires structs { structs builder.old.arena.table ≡ structs_in (items_view items.now) }
    requires named { AreNamed (module_of builder.old.arena) (items_view items.now) }
    requires declared { (module_of builder.old.arena).functions ≡ declared_functions (items_view items.now) }
    ensures { OnOk result (module_of builder.new.arena ≡ with_bodies (module_of builder.old.arena) (items_view items.now) []) }
{
    let mut locals = Locals::new(alloc);
    let mut number: u32 = 0;
    'items: for item in items {
        number = define_item(builder, alloc, &mut locals, number, item)?;
    }
    Ok(())
}
