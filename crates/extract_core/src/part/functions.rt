//! Functions, declared as what they become.
ghost use Rattle.std.specs.Prelude.{◌≡◌, ◌++◌, ◌+◌, ◌<◌, map, length, slice_get, option_to_list, All, Some, IfOk, OnOk, ◌≢◌};
ghost use Rattle.module_arena.specs.Functions.{function_names, numbered_parameters};
ghost use Rattle.module_arena.specs.Lists.{Lists, global_name};
ghost use Rattle.module_arena.specs.Module as m;
ghost use Rattle.module_arena.specs.Module.{Bytes};
ghost use Rattle.module_arena.specs.View.{module_of, parameter_view, type_at};
ghost use Rattle.type_table.specs.Types.{trees};
ghost use Rattle.item_build.specs.Types.Parameters.{AreParameters, without_body};
ghost use Rattle.extract_core.specs.Declaring.Declaring.{IsDeclaring, KeepsNames, HasNewId, AreNewIds};
ghost use Rattle.extract_core.specs.Declaring.Stages.{HasTypes};
ghost use Rattle.extract_core.specs.Part.FunctionsThere.{functions_through, with_functions};
ghost use Rattle.extract_core.specs.Fates.Fates.{function_as, parameters_as, made};

use crate::fates::{Fate, FateList, function_linkage};
use entry_copy::{Copier, add_function, parameter_number};
use ir_base::ItemList;
use item_build::types::Builder;
use module_arena::{Arena, Function, FunctionId, GlobalId, LocalName, Parameter, ParameterList};
use std::alloc::{AllocError, Global};
use type_table::{TypeId, TypeList};

/// Parameters of these types, which are named by their numbers from 0 on, as those of a declaration are.
pub(crate) fn numbered_parameters(
    copier: &Copier,
    alloc: Global,
    types: &TypeList,
) -> Result<ParameterList, AllocError>
    ensures { (a b : Lists) → HasTypes a b copier.now → All (λ id. id < length a.table.types) types.now
        → IfOk result (λ copy. AreParameters b copy (numbered_parameters 0 (map (type_at (trees a.table)) types.now))) }
{
    let mut parameters = ItemList::new(alloc);
    'parameters: for place in 0..types.len() {
        let ty = copier.new_type(*types.at(place));
        let number = parameter_number(place)?;
        parameters.push(Parameter {
            ty,
            name: LocalName::Numbered(number),
        })?;
    }
    Ok(parameters)
}

/// The types of parameters.
fn parameter_types(alloc: Global, parameters: &ParameterList) -> Result<TypeList, AllocError>
    ensures { IfOk result (λ types. types ≡ map (λ p. p.ty) parameters.now) }
{
    let all = parameters.as_slice().iter();
    let types: Vec<TypeId> = all.map(|parameter| parameter.ty).collect(alloc)?;
    Ok(ItemList::from_vec(types))
}

/// The parameters of what a function becomes: its own, or where it is declared those that have numbers for names.
fn parameters_by(
    copier: &Copier,
    alloc: Global,
    parameters: &ParameterList,
    fate: Fate,
) -> Result<ParameterList, AllocError>
    ensures { (a b : Lists) → HasTypes a b copier.now → All (λ p. p.ty < length a.table.types) parameters.now
        → IfOk result (λ copy. AreParameters b copy (parameters_as fate (map (parameter_view (trees a.table)) parameters.now))) }
{
    match fate {
        Fate::Kept => {
            let own = copier.copy_parameters(alloc, parameters)?;
            Ok(own)
        }
        _ => {
            let types = parameter_types(alloc, parameters)?;
            let numbered = numbered_parameters(copier, alloc, &types)?;
            Ok(numbered)
        }
    }
}

/// Declares what the function with that id becomes, which is the next and is not left out, without its body.
fn declare_there(
    copier: &Copier,
    alloc: Global,
    from: &Arena,
    into: &mut Builder,
    id: FunctionId,
    fate: Fate,
) -> Result<GlobalId, AllocError>
    requires known { id < length from.now.functions }
    requires there { fate ≢ Fate.LeftOut }
    requires types { HasTypes from.now into.old.arena copier.now }
    requires declaring { IsDeclaring from.now (functions_through from.now id) into.old.arena }
    ensures module { (f : m.Function) → slice_get (module_of from.now).functions id ≡ Some f
        → OnOk result (module_of into.new.arena ≡ with_functions (module_of into.old.arena) ((module_of into.old.arena).functions ++ map without_body (option_to_list (function_as fate f)))) }
    ensures types { OnOk result (HasTypes from.now into.new.arena copier.now) }
    ensures declaring { OnOk result (IsDeclaring from.now (functions_through from.now (id + 1)) into.new.arena) }
    ensures keeps { OnOk result (KeepsNames into.old.arena into.new.arena) }
    ensures id { (name : Bytes) → global_name from.now (GlobalId.Function id) ≡ Some name
        → IfOk result (λ new. global_name into.new.arena new ≡ Some name) }
{
    let _good = from.variable_count();
    let function = from.function(id);
    let name = function.name.copy(alloc)?;
    let parameters = parameters_by(copier, alloc, &function.parameters, fate)?;
    let declared = Function {
        name,
        linkage: function_linkage(fate, function.linkage),
        result: copier.new_type(function.result),
        parameters,
        variadic: function.variadic,
        body: None,
    };
    let new = add_function(into, declared)?;
    Ok(new)
}

/// Declares what the function with that id becomes, which is the next, without its body, and gives its new id. One that is
/// left out has none.
fn declare_function(
    copier: &Copier,
    alloc: Global,
    from: &Arena,
    into: &mut Builder,
    id: FunctionId,
    fate: Fate,
) -> Result<Option<GlobalId>, AllocError>
    requires known { id < length from.now.functions }
    requires types { HasTypes from.now into.old.arena copier.now }
    requires declaring { IsDeclaring from.now (functions_through from.now id) into.old.arena }
    ensures module { (f : m.Function) → slice_get (module_of from.now).functions id ≡ Some f
        → OnOk result (module_of into.new.arena ≡ with_functions (module_of into.old.arena) ((module_of into.old.arena).functions ++ map without_body (option_to_list (function_as fate f)))) }
    ensures types { OnOk result (HasTypes from.now into.new.arena copier.now) }
    ensures declaring { OnOk result (IsDeclaring from.now (functions_through from.now (id + 1)) into.new.arena) }
    ensures keeps { OnOk result (KeepsNames into.old.arena into.new.arena) }
    ensures id { (name : Bytes) → global_name from.now (GlobalId.Function id) ≡ Some name
        → IfOk result (HasNewId into.new.arena name fate) }
{
    match fate {
        Fate::LeftOut => Ok(None),
        Fate::Kept | Fate::Declared => {
            let new = declare_there(copier, alloc, from, into, id, fate)?;
            Ok(Some(new))
        }
    }
}

/// Declares in a new arena, in which the variables are declared, what the functions of another become by these fates, none of it
/// defined yet, and gives their new ids, in their order; one that is left out has none. The copier has copied all types. Only
/// memory may be wanting.
pub fn declare_functions(
    copier: &Copier,
    alloc: Global,
    from: &Arena,
    into: &mut Builder,
    fates: &FateList,
) -> Result<Vec<Option<GlobalId>>, AllocError>
    requires sizes { length fates.now ≡ length from.now.functions }
    requires types { HasTypes from.now into.old.arena copier.now }
    requires declaring { IsDeclaring from.now (functions_through from.now 0) into.old.arena }
    ensures module { OnOk result (module_of into.new.arena ≡ with_functions (module_of into.old.arena) ((module_of into.old.arena).functions ++ map without_body (made function_as fates.now (module_of from.now).functions))) }
    ensures types { OnOk result (HasTypes from.now into.new.arena copier.now) }
    ensures declaring { OnOk result (IsDeclaring from.now (functions_through from.now (length from.now.functions)) into.new.arena) }
    ensures keeps { OnOk result (KeepsNames into.old.arena into.new.arena) }
    ensures ids { IfOk result (λ ids. AreNewIds into.new.arena (function_names (module_of from.now)) fates.now ids.items) }
{
    let mut ids = Vec::new(alloc);
    'functions: for number in 0..from.function_count() {
        let id = FunctionId::new(number);
        let new = declare_function(copier, alloc, from, into, id, *fates.at(number as usize))?;
        ids.push(new)?;
    }
    Ok(ids)
}
