//! The texts of a module.
ghost use Rattle.std.specs.Prelude.{map, flat_map, All, OnOk, IfOk, option_to_list};
ghost use Rattle.std.specs.Option.{option_copied};
ghost use Rattle.type_table.specs.Types.{names};
ghost use Rattle.module_arena.specs.Lists.{value_names, function_blocks};
ghost use Rattle.module_arena.specs.View.{module_of};
ghost use Rattle.record_table.specs.StringTable.{once_each};
ghost use Rattle.record_table.specs.Spelling.{texts_of};
ghost use Rattle.record_write.specs.Order.Table.{Gains, Holds};
ghost use Rattle.record_write.specs.Order.Bodies.{local_text, result_texts, block_texts, body_texts, HasResults};

use crate::order::table::TextTable;
use ir_base::Text;
use module_arena::{
    AliasId, Arena, Block, Function, FunctionId, Inst, LocalName, Parameter, VariableId,
};
use std::alloc::{AllocError, Global};
use type_table::{StructId, TypeTable};

/// A text of the module, where it is there.
fn add_text<'a>(table: &mut TextTable<'a>, text: Option<&'a Text>) -> Result<(), AllocError>
    ensures { OnOk result (Gains table.old table.new (option_to_list (option_copied text.entry))) }
{
    match text {
        Some(text) => table.add(text.bytes()),
        None => Ok(()),
    }
}

/// The names of the structs.
fn add_structs<'a>(table: &mut TextTable<'a>, types: &'a TypeTable) -> Result<(), AllocError>
    ensures { OnOk result (Gains table.old table.new (names types.now)) }
{
    for number in 0..types.struct_count() {
        table.add(types.struct_name(StructId::new(number)).text().bytes())?;
    }
    Ok(())
}

/// The names of the variables.
fn add_variables<'a>(table: &mut TextTable<'a>, arena: &'a Arena) -> Result<(), AllocError>
    ensures { OnOk result (Gains table.old table.new (map (λ v. v.name) arena.now.variables)) }
{
    for number in 0..arena.variable_count() {
        table.add(arena.variable(VariableId::new(number)).name.text().bytes())?;
    }
    Ok(())
}

/// The names of the functions.
fn add_functions<'a>(table: &mut TextTable<'a>, arena: &'a Arena) -> Result<(), AllocError>
    ensures { OnOk result (Gains table.old table.new (map (λ f. f.name) arena.now.functions)) }
{
    for number in 0..arena.function_count() {
        table.add(arena.function(FunctionId::new(number)).name.text().bytes())?;
    }
    Ok(())
}

/// The names of the aliases.
fn add_aliases<'a>(table: &mut TextTable<'a>, arena: &'a Arena) -> Result<(), AllocError>
    ensures { OnOk result (Gains table.old table.new (map (λ a. a.name) arena.now.aliases)) }
{
    for number in 0..arena.alias_count() {
        table.add(arena.alias(AliasId::new(number)).name.text().bytes())?;
    }
    Ok(())
}

/// What a parameter, block or result is called, where it has a name.
fn add_local<'a>(table: &mut TextTable<'a>, name: &'a LocalName) -> Result<(), AllocError>
    ensures { OnOk result (Gains table.old table.new (local_text name.now)) }
{
    match name {
        LocalName::Named(name) => table.add(name.text().bytes()),
        LocalName::Numbered(_) => Ok(()),
    }
}

/// The name of what an instruction defines.
fn add_result<'a>(
    table: &mut TextTable<'a>,
    function: &'a Function,
    instruction: &'a Inst,
) -> Result<(), AllocError>
    requires { HasResults (value_names function.now) instruction.now }
    ensures { OnOk result (Gains table.old table.new (result_texts (value_names function.now) instruction.now)) }
{
    match instruction.result() {
        Some(id) => add_local(table, function.value_name(id)),
        None => Ok(()),
    }
}

/// The names of what instructions define.
fn add_results<'a>(
    table: &mut TextTable<'a>,
    function: &'a Function,
    instructions: &'a [Inst],
) -> Result<(), AllocError>
    requires { All (HasResults (value_names function.now)) instructions.now }
    ensures { OnOk result (Gains table.old table.new (flat_map (result_texts (value_names function.now)) instructions.now)) }
{
    for instruction in instructions {
        add_result(table, function, instruction)?;
    }
    Ok(())
}

/// The name of a block, and those of its results.
fn add_block<'a>(
    table: &mut TextTable<'a>,
    function: &'a Function,
    block: &'a Block,
) -> Result<(), AllocError>
    requires { All (HasResults (value_names function.now)) block.now.instructions }
    ensures { OnOk result (Gains table.old table.new (block_texts (value_names function.now) block.now)) }
{
    add_local(table, &block.name)?;
    add_results(table, function, block.instructions.as_slice())
}

/// The names of parameters.
fn add_parameters<'a>(
    table: &mut TextTable<'a>,
    parameters: &'a [Parameter],
) -> Result<(), AllocError>
    ensures { OnOk result (Gains table.old table.new (flat_map (λ p. local_text p.name) parameters.now)) }
{
    for parameter in parameters {
        add_local(table, &parameter.name)?;
    }
    Ok(())
}

/// The names in some blocks.
fn add_blocks<'a>(
    table: &mut TextTable<'a>,
    function: &'a Function,
    blocks: &'a [Block],
) -> Result<(), AllocError>
    requires { All (λ b. All (HasResults (value_names function.now)) b.instructions) blocks.now }
    ensures { OnOk result (Gains table.old table.new (flat_map (block_texts (value_names function.now)) blocks.now)) }
{
    for block in blocks {
        add_block(table, function, block)?;
    }
    Ok(())
}

/// The names in the body of a function, where it has one.
fn add_body<'a>(table: &mut TextTable<'a>, function: &'a Function) -> Result<(), AllocError>
    requires { All (λ b. All (HasResults (value_names function.now)) b.instructions) (function_blocks function.now) }
    ensures { OnOk result (Gains table.old table.new (body_texts function.now)) }
{
    match &function.body {
        Some(body) => {
            add_parameters(table, function.parameters.as_slice())?;
            add_blocks(table, function, body.blocks.as_slice())
        }
        None => Ok(()),
    }
}

/// The names in the bodies of a module.
fn add_bodies<'a>(table: &mut TextTable<'a>, arena: &'a Arena) -> Result<(), AllocError>
    ensures { OnOk result (Gains table.old table.new (flat_map body_texts arena.now.functions)) }
{
    // What holds of each arena.
    let _count = arena.variable_count();
    for number in 0..arena.function_count() {
        add_body(table, arena.function(FunctionId::new(number)))?;
    }
    Ok(())
}

/// The texts of a module: its own, the names of its structs, variables, functions and aliases, and then those in its
/// bodies. It is refused for want of memory alone.
pub fn text_table<'a>(alloc: Global, arena: &'a Arena) -> Result<TextTable<'a>, AllocError>
    ensures { IfOk result (λ table. Holds table (once_each (texts_of (module_of arena.now)))) }
{
    let mut table = TextTable::new(alloc);
    add_text(&mut table, arena.source())?;
    add_text(&mut table, arena.data_layout())?;
    add_text(&mut table, arena.triple())?;
    add_structs(&mut table, arena.types())?;
    add_variables(&mut table, arena)?;
    add_functions(&mut table, arena)?;
    add_aliases(&mut table, arena)?;
    add_bodies(&mut table, arena)?;
    Ok(table)
}
