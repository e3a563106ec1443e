//! Variables, declared as what they become.
ghost use Rattle.std.specs.Prelude.{◌≡◌, ◌++◌, ◌+◌, ◌<◌, map, length, slice_get, option_to_list, Some, IfOk, OnOk, ◌≢◌};
ghost use Rattle.module_arena.specs.Functions.{variable_names};
ghost use Rattle.module_arena.specs.Lists.{global_name};
ghost use Rattle.module_arena.specs.Module as m;
ghost use Rattle.module_arena.specs.Module.{Bytes};
ghost use Rattle.module_arena.specs.View.{module_of};
ghost use Rattle.item_build.specs.Types.Declarations.{without_initialiser};
ghost use Rattle.extract_core.specs.Declaring.Declaring.{variables_through, IsDeclaring, KeepsNames, HasNewId, AreNewIds};
ghost use Rattle.extract_core.specs.Fates.Fates.{variable_as, made};
ghost use Rattle.extract_core.specs.Declaring.Stages.{HasTypes, with_variables};

use crate::declaring::emptied::variable_type;
use crate::fates::{Fate, FateList, is_emptied, variable_linkage};
use entry_copy::{Copier, add_variable};
use item_build::types::Builder;
use module_arena::{Arena, GlobalId, Variable, VariableId};
use std::alloc::{AllocError, Global};

/// Declares what the variable with that id becomes, which is the next and is not left out, without its initialiser.
fn declare_there(
    copier: &Copier,
    alloc: Global,
    from: &Arena,
    into: &mut Builder,
    id: VariableId,
    fate: Fate,
) -> Result<GlobalId, AllocError>
    requires known { id < length from.now.variables }
    requires there { fate ≢ Fate.LeftOut }
    requires types { HasTypes from.now into.old.arena copier.now }
    requires declaring { IsDeclaring from.now (variables_through id) into.old.arena }
    ensures module { (v : m.Variable) → slice_get (module_of from.now).variables id ≡ Some v
        → OnOk result (module_of into.new.arena ≡ with_variables (module_of into.old.arena) ((module_of into.old.arena).variables ++ map without_initialiser (option_to_list (variable_as fate v)))) }
    ensures types { OnOk result (HasTypes from.now into.new.arena copier.now) }
    ensures declaring { OnOk result (IsDeclaring from.now (variables_through (id + 1)) into.new.arena) }
    ensures keeps { OnOk result (KeepsNames into.old.arena into.new.arena) }
    ensures id { (name : Bytes) → global_name from.now (GlobalId.Variable id) ≡ Some name
        → IfOk result (λ new. global_name into.new.arena new ≡ Some name) }
{
    let _good = from.variable_count();
    let variable = from.variable(id);
    let emptied = is_emptied(fate, variable.linkage);
    let name = variable.name.copy(alloc)?;
    let ty = variable_type(copier, alloc, from, into, variable.ty, emptied)?;
    let declared = Variable {
        name,
        linkage: variable_linkage(fate, variable.linkage),
        constant: variable.constant,
        ty,
        alignment: variable.alignment,
        initialiser: None,
    };
    let new = add_variable(into, declared)?;
    Ok(new)
}

/// Declares what the variable with that id becomes, which is the next, without its initialiser, and gives its new id. One
/// that is left out has none.
fn declare_variable(
    copier: &Copier,
    alloc: Global,
    from: &Arena,
    into: &mut Builder,
    id: VariableId,
    fate: Fate,
) -> Result<Option<GlobalId>, AllocError>
    requires known { id < length from.now.variables }
    requires types { HasTypes from.now into.old.arena copier.now }
    requires declaring { IsDeclaring from.now (variables_through id) into.old.arena }
    ensures module { (v : m.Variable) → slice_get (module_of from.now).variables id ≡ Some v
        → OnOk result (module_of into.new.arena ≡ with_variables (module_of into.old.arena) ((module_of into.old.arena).variables ++ map without_initialiser (option_to_list (variable_as fate v)))) }
    ensures types { OnOk result (HasTypes from.now into.new.arena copier.now) }
    ensures declaring { OnOk result (IsDeclaring from.now (variables_through (id + 1)) into.new.arena) }
    ensures keeps { OnOk result (KeepsNames into.old.arena into.new.arena) }
    ensures id { (name : Bytes) → global_name from.now (GlobalId.Variable id) ≡ Some name
        → IfOk result (HasNewId into.new.arena name fate) }
{
    match fate {
        Fate::LeftOut => Ok(None),
        Fate::Kept | Fate::Declared => {
            let new = declare_there(copier, alloc, from, into, id, fate)?;
            Ok(Some(new))
        }
    }
}

/// Declares in a new arena what the variables of another become by these fates, none of it initialised yet, and gives their
/// new ids, in their order; one that is left out has none. The copier has copied all types. Only memory may be wanting.
pub fn declare_variables(
    copier: &Copier,
    alloc: Global,
    from: &Arena,
    into: &mut Builder,
    fates: &FateList,
) -> Result<Vec<Option<GlobalId>>, AllocError>
    requires sizes { length fates.now ≡ length from.now.variables }
    requires types { HasTypes from.now into.old.arena copier.now }
    requires declaring { IsDeclaring from.now (variables_through 0) into.old.arena }
    ensures module { OnOk result (module_of into.new.arena ≡ with_variables (module_of into.old.arena) ((module_of into.old.arena).variables ++ map without_initialiser (made variable_as fates.now (module_of from.now).variables))) }
    ensures types { OnOk result (HasTypes from.now into.new.arena copier.now) }
    ensures declaring { OnOk result (IsDeclaring from.now (variables_through (length from.now.variables)) into.new.arena) }
    ensures ids { IfOk result (λ ids. AreNewIds into.new.arena (variable_names (module_of from.now)) fates.now ids.items) }
{
    let mut ids = Vec::new(alloc);
    'variables: for number in 0..from.variable_count() {
        let id = VariableId::new(number);
        let new = declare_variable(copier, alloc, from, into, id, *fates.at(number as usize))?;
        ids.push(new)?;
    }
    Ok(ids)
}
