//! The types that the entries of a module write.
ghost use Rattle.std.specs.Prelude.{◌≡◌, flat_map, length, Some, All, OnOk, IfOk};
ghost use Rattle.std.specs.Option.{option_copied};
ghost use Rattle.type_table.specs.Types.{bodies, KnowsBody};
ghost use Rattle.module_arena.specs.Known.{KnowsVariable, KnowsFunction, alias_types};
ghost use Rattle.module_arena.specs.View.{module_of};
ghost use Rattle.record_table.specs.Mentions.{mentioned};
ghost use Rattle.record_write.specs.Order.Order.{listed_trees};
ghost use Rattle.record_write.specs.Order.Known.{KnowsBlock};
ghost use Rattle.record_write.specs.Order.Written.{in_type, in_struct_body, in_variable, in_block, in_function, in_alias_type, KnowsType, IsReady, Goes};

use crate::order::TypeOrder;
use crate::order::constants::{note_constant, note_type, note_types};
use crate::order::instructions::note_block;
use module_arena::{
    Alias, AliasId, AliasType, Arena, Block, Function, FunctionId, Parameter, Variable, VariableId,
};
use std::alloc::{AllocError, Global};
use type_table::{StructBody, StructId};

/// Lists the fields of a body.
fn note_body(order: &mut TypeOrder<'_>, arena: &Arena, body: &StructBody) -> Result<(), AllocError>
    requires ready { IsReady arena.now order.old }
    requires body { KnowsBody (length arena.now.table.types) (Some body.now) }
    ensures { OnOk result (Goes arena.now order.old order.new (in_struct_body arena.now.table (Some body.now))) }
{
    match body {
        StructBody::Plain(fields) => note_types(order, arena, fields.as_slice()),
        StructBody::Packed(fields) => note_types(order, arena, fields.as_slice()),
        StructBody::Opaque => Ok(()),
    }
}

/// Lists the fields of a struct, where it is defined.
fn note_fields(
    order: &mut TypeOrder<'_>,
    arena: &Arena,
    body: Option<&StructBody>,
) -> Result<(), AllocError>
    requires ready { IsReady arena.now order.old }
    requires body { KnowsBody (length arena.now.table.types) (option_copied body) }
    ensures { OnOk result (Goes arena.now order.old order.new (in_struct_body arena.now.table (option_copied body.entry))) }
{
    match body {
        Some(body) => note_body(order, arena, body),
        None => Ok(()),
    }
}

/// Lists the fields of the structs.
fn note_structs(order: &mut TypeOrder<'_>, arena: &Arena) -> Result<(), AllocError>
    requires { IsReady arena.now order.old }
    ensures { OnOk result (Goes arena.now order.old order.new (flat_map (in_struct_body arena.now.table) (bodies arena.now.table))) }
{
    let types = arena.types();
    // What holds of the types of each table.
    let _count = types.type_count();
    for number in 0..types.struct_count() {
        note_fields(order, arena, types.struct_body(StructId::new(number)))?;
    }
    Ok(())
}

/// Lists the types of a variable.
fn note_variable(
    order: &mut TypeOrder<'_>,
    arena: &Arena,
    variable: &Variable,
) -> Result<(), AllocError>
    requires ready { IsReady arena.now order.old }
    requires variable { KnowsVariable (length arena.now.table.types) (length arena.now.constants) variable.now }
    ensures { OnOk result (Goes arena.now order.old order.new (in_variable arena.now variable.now)) }
{
    note_type(order, arena, variable.ty)?;
    match variable.initialiser {
        Some(constant) => note_constant(order, arena, constant),
        None => Ok(()),
    }
}

/// Lists the types of the variables.
fn note_variables(order: &mut TypeOrder<'_>, arena: &Arena) -> Result<(), AllocError>
    requires { IsReady arena.now order.old }
    ensures { OnOk result (Goes arena.now order.old order.new (flat_map (in_variable arena.now) arena.now.variables)) }
{
    for number in 0..arena.variable_count() {
        note_variable(order, arena, arena.variable(VariableId::new(number)))?;
    }
    Ok(())
}

/// Lists the types of parameters.
fn note_parameters(
    order: &mut TypeOrder<'_>,
    arena: &Arena,
    parameters: &[Parameter],
) -> Result<(), AllocError>
    requires ready { IsReady arena.now order.old }
    requires parameters { All (λ p. KnowsType arena.now p.ty) parameters.now }
    ensures { OnOk result (Goes arena.now order.old order.new (flat_map (λ p. in_type arena.now p.ty) parameters.now)) }
{
    for parameter in parameters {
        note_type(order, arena, parameter.ty)?;
    }
    Ok(())
}

/// Lists the types in some blocks.
fn note_blocks(order: &mut TypeOrder<'_>, arena: &Arena, blocks: &[Block]) -> Result<(), AllocError>
    requires ready { IsReady arena.now order.old }
    requires blocks { All (KnowsBlock arena.now) blocks.now }
    ensures { OnOk result (Goes arena.now order.old order.new (flat_map (in_block arena.now) blocks.now)) }
{
    for block in blocks {
        note_block(order, arena, block)?;
    }
    Ok(())
}

/// Lists the types of a function: what it returns, its parameters, and those in its body.
fn note_function(
    order: &mut TypeOrder<'_>,
    arena: &Arena,
    function: &Function,
) -> Result<(), AllocError>
    requires ready { IsReady arena.now order.old }
    requires function { KnowsFunction (length arena.now.table.types) (length arena.now.constants) function.now }
    ensures { OnOk result (Goes arena.now order.old order.new (in_function arena.now function.now)) }
{
    note_type(order, arena, function.result)?;
    note_parameters(order, arena, function.parameters.as_slice())?;
    match &function.body {
        Some(body) => note_blocks(order, arena, body.blocks.as_slice()),
        None => Ok(()),
    }
}

/// Lists the types of the functions.
fn note_functions(order: &mut TypeOrder<'_>, arena: &Arena) -> Result<(), AllocError>
    requires { IsReady arena.now order.old }
    ensures { OnOk result (Goes arena.now order.old order.new (flat_map (in_function arena.now) arena.now.functions)) }
{
    // What holds of each arena.
    let _count = arena.variable_count();
    for number in 0..arena.function_count() {
        note_function(order, arena, arena.function(FunctionId::new(number)))?;
    }
    Ok(())
}

/// Lists the types that an alias says of its target.
fn note_alias(order: &mut TypeOrder<'_>, arena: &Arena, alias: &Alias) -> Result<(), AllocError>
    requires ready { IsReady arena.now order.old }
    requires types { All (KnowsType arena.now) (alias_types alias.now.ty) }
    ensures { OnOk result (Goes arena.now order.old order.new (in_alias_type arena.now alias.now.ty)) }
{
    match &alias.ty {
        AliasType::Plain(ty) => note_type(order, arena, *ty),
        AliasType::Function(returns, parameters, _) => {
            note_type(order, arena, *returns)?;
            note_types(order, arena, parameters.as_slice())
        }
    }
}

/// Lists the types that the aliases say of their targets.
fn note_aliases(order: &mut TypeOrder<'_>, arena: &Arena) -> Result<(), AllocError>
    requires { IsReady arena.now order.old }
    ensures { OnOk result (Goes arena.now order.old order.new (flat_map (λ x. in_alias_type arena.now x.ty) arena.now.aliases)) }
{
    // What holds of each arena.
    let _count = arena.variable_count();
    for number in 0..arena.alias_count() {
        note_alias(order, arena, arena.alias(AliasId::new(number)))?;
    }
    Ok(())
}

/// The types that a module mentions, in the order in which they first occur in its structs, variables, functions and
/// aliases, each behind its parts from left to right. It is refused for want of memory alone.
pub fn type_order<'a>(alloc: Global, arena: &'a Arena) -> Result<TypeOrder<'a>, AllocError>
    ensures types { IfOk result (λ order. order.types ≡ arena.now.table) }
    ensures listed { IfOk result (λ order. listed_trees order ≡ mentioned (module_of arena.now)) }
{
    let mut order = TypeOrder::new(alloc, arena.types(), arena.const_count())?;
    note_structs(&mut order, arena)?;
    note_variables(&mut order, arena)?;
    note_functions(&mut order, arena)?;
    note_aliases(&mut order, arena)?;
    Ok(order)
}
