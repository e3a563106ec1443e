//! Functions without their bodies.
ghost use Rattle.std.specs.Prelude.{◌≡◌, ◌<◌, ◌-◌, ◌^◌, map, length, All, IfOk, OnOk};
ghost use Rattle.ir_phrases.specs.Constants.View.{type_view};
ghost use Rattle.ir_phrases.specs.Instructions.View.{block_view};
ghost use Rattle.ir_syntax.specs.Functions.{parameter_types};
ghost use Rattle.ir_syntax.specs.View.{parameter_view, head_view};
ghost use Rattle.type_table.specs.Types.{structs, trees};
ghost use Rattle.module_arena.specs.Changes.{more_functions};
ghost use Rattle.module_arena.specs.View.{module_of, local_view};
ghost use Rattle.module_arena.specs.View as view;
ghost use Rattle.name_rules.specs.Locals.{called, next_behind};
ghost use Rattle.name_rules.specs.ModuleOf.{parameters_in, declared, defined};
ghost use Rattle.name_rules.specs.Written.{type_in};
ghost use Rattle.item_build.specs.Types.Fitting.{CanBe};
ghost use Rattle.item_build.specs.Types.Stands.{Grows};
ghost use Rattle.item_build.specs.Types.Declarations.{IsFree, AreFew, one_function_more};
ghost use Rattle.item_build.specs.Types.Parameters.{AreParameters, name_kept, kept, function_head, without_body};

use crate::types::builder::Builder;
use crate::types::heads::linkage_of;
use crate::types::wanting::entry_out_of_memory;
use ir_base::ItemList;
use ir_syntax::{Declaration, Definition, FunctionHead, WrittenParameter};
use ir_terminals::Local;
use module_arena::{Function, FunctionId, LocalName, ParameterList};
use std::alloc::{AllocError, Global};

/// What is called so where the next number is this one, and names count where the flag is set.
fn called_so(
    alloc: Global,
    next: u32,
    named: bool,
    written: &Option<Local>,
) -> Result<LocalName, AllocError>
    ensures { IfOk result (λ name. local_view name ≡ called next (name_kept named written.now)) }
{
    match written {
        Some(Local::Named(placed)) if named => Ok(LocalName::Named(placed.name.to_name(alloc)?)),
        Some(_) | None => Ok(LocalName::Numbered(next)),
    }
}

/// The next number behind it.
fn number_behind(next: u32, named: bool, written: &Option<Local>) -> u32
    requires { next < 2 ^ 32 - 1 }
    ensures { result ≡ next_behind next (name_kept named written.now) }
{
    match written {
        Some(Local::Named(_)) if named => next,
        Some(_) | None => next + 1,
    }
}

/// The parameters, numbered from 0 where they have no name that counts.
fn add_parameters(
    builder: &mut Builder,
    alloc: Global,
    named: bool,
    written: &[WrittenParameter],
) -> Result<ParameterList, AllocError>
    requires can { All (λ p. CanBe (structs builder.old.arena.table) (type_in (type_view p.ty))) written.now }
    requires few { length written.now < 2 ^ 32 - 1 }
    ensures grows { OnOk result (Grows builder.old.arena builder.new.arena) }
    ensures are { IfOk result (λ ps. AreParameters builder.new.arena ps (parameters_in 0 (map (λ p. kept named (parameter_view p)) written.now))) }
{
    let mut parameters = Vec::with_capacity(alloc, written.len())?;
    let mut next: u32 = 0;
    for parameter in written {
        let ty = builder.add_type(alloc, &parameter.ty)?;
        let name = called_so(alloc, next, named, &parameter.name)?;
        parameters.push(module_arena::Parameter { ty, name })?;
        next = number_behind(next, named, &parameter.name);
    }
    Ok(ItemList::from_vec(parameters))
}

/// Declares a function with these parameters.
fn declare_head(
    builder: &mut Builder,
    alloc: Global,
    head: &FunctionHead,
    parameters: ParameterList,
    variadic: bool,
) -> Result<FunctionId, AllocError>
    requires returns { CanBe (structs builder.old.arena.table) (type_in (type_view head.now.returns)) }
    requires known { All (λ p. p.ty < length builder.old.arena.table.types) parameters }
    requires free { IsFree builder.old.arena head.now.name.name }
    requires few { AreFew (one_function_more builder.old.arena) }
    ensures id { IfOk result (λ id. id ≡ length builder.old.arena.functions) }
    ensures module { OnOk result (module_of builder.new.arena
        ≡ more_functions (module_of builder.old.arena) (function_head (head_view head.now) (map (view.parameter_view (trees builder.old.arena.table)) parameters) variadic)) }
    ensures aliases { OnOk result (builder.new.arena.aliases ≡ builder.old.arena.aliases) }
{
    let result = builder.add_type(alloc, &head.returns)?;
    let name = head.name.name.to_name(alloc)?;
    let function = Function {
        name,
        linkage: linkage_of(head.linkage),
        result,
        parameters,
        variadic,
        body: None,
    };
    match builder.arena.declare_function(function) {
        Ok(id) => Ok(id),
        Err(fault) => Err(entry_out_of_memory(fault)),
    }
}

/// Declares the function that the text declares.
pub fn declare_function(
    builder: &mut Builder,
    alloc: Global,
    written: &Declaration,
) -> Result<FunctionId, AllocError>
    requires returns { CanBe (structs builder.old.arena.table) (type_in (type_view written.now.head.returns)) }
    requires can { All (λ p. CanBe (structs builder.old.arena.table) (type_in (type_view p.ty))) written.now.formal.parameters.items }
    requires few_parameters { length written.now.formal.parameters.items < 2 ^ 32 - 1 }
    requires free { IsFree builder.old.arena written.now.head.name.name }
    requires few { AreFew (one_function_more builder.old.arena) }
    ensures id { IfOk result (λ id. id ≡ length builder.old.arena.functions) }
    ensures module { OnOk result (module_of builder.new.arena
        ≡ more_functions (module_of builder.old.arena) (declared (head_view written.now.head) (parameter_types (map parameter_view written.now.formal.parameters.items)) written.now.formal.variadic)) }
    ensures aliases { OnOk result (builder.new.arena.aliases ≡ builder.old.arena.aliases) }
{
    let parameters = add_parameters(builder, alloc, false, &written.formal.parameters)?;
    declare_head(
        builder,
        alloc,
        &written.head,
        parameters,
        written.formal.variadic,
    )
}

/// Declares the function that the text defines, without its blocks.
pub fn declare_definition(
    builder: &mut Builder,
    alloc: Global,
    written: &Definition,
) -> Result<FunctionId, AllocError>
    requires returns { CanBe (structs builder.old.arena.table) (type_in (type_view written.now.head.returns)) }
    requires can { All (λ p. CanBe (structs builder.old.arena.table) (type_in (type_view p.ty))) written.now.parameters.items }
    requires few_parameters { length written.now.parameters.items < 2 ^ 32 - 1 }
    requires free { IsFree builder.old.arena written.now.head.name.name }
    requires few { AreFew (one_function_more builder.old.arena) }
    ensures id { IfOk result (λ id. id ≡ length builder.old.arena.functions) }
    ensures module { OnOk result (module_of builder.new.arena
        ≡ more_functions (module_of builder.old.arena) (without_body (defined (head_view written.now.head) (map parameter_view written.now.parameters.items) (map block_view written.now.blocks.items)))) }
    ensures aliases { OnOk result (builder.new.arena.aliases ≡ builder.old.arena.aliases) }
{
    let parameters = add_parameters(builder, alloc, true, &written.parameters)?;
    declare_head(builder, alloc, &written.head, parameters, false)
}
