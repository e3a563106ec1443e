//! Variables.
ghost use Rattle.std.specs.Prelude.{◌≡◌, ◌<◌, length, slice_get, Some, None, IfOk, OnOk};
ghost use Rattle.ir_phrases.specs.Constants.View.{type_view, constant_view};
ghost use Rattle.ir_syntax.specs.View.{variable_view};
ghost use Rattle.type_table.specs.Types.{structs};
ghost use Rattle.module_arena.specs.Changes.{more_variables, initialised};
ghost use Rattle.module_arena.specs.View.{module_of};
ghost use Rattle.module_arena.specs.declared.entry.Variable as the_variable;
ghost use Rattle.name_rules.specs.ModuleOf.{variable_of};
ghost use Rattle.name_rules.specs.Written.{type_in, constant_in};
ghost use Rattle.item_build.specs.Types.Fitting.{CanBe};
ghost use Rattle.item_build.specs.Types.Holding.{entries, CanHold};
ghost use Rattle.item_build.specs.Types.Declarations.{IsFree, AreFew, one_variable_more, IsShort, without_initialiser};

use crate::types::builder::Builder;
use crate::types::heads::{alignment_of, linkage_of};
use crate::types::wanting::entry_out_of_memory;
use ir_phrases::constants::{Constant, Type};
use ir_syntax::WrittenVariable;
use module_arena::VariableId;
use std::alloc::{AllocError, Global};

/// Declares the variable that the text writes, without its initialiser.
pub fn declare_variable(
    builder: &mut Builder,
    alloc: Global,
    written: &WrittenVariable,
) -> Result<VariableId, AllocError>
    requires ty { CanBe (structs builder.old.arena.table) (type_in (type_view written.now.ty)) }
    requires alignment { IsShort written.now.alignment }
    requires free { IsFree builder.old.arena written.now.name.name }
    requires few { AreFew (one_variable_more builder.old.arena) }
    ensures id { IfOk result (λ id. id ≡ length builder.old.arena.variables) }
    ensures module { OnOk result (module_of builder.new.arena
        ≡ more_variables (module_of builder.old.arena) (without_initialiser (variable_of (variable_view written.now)))) }
    ensures aliases { OnOk result (builder.new.arena.aliases ≡ builder.old.arena.aliases) }
{
    let ty = builder.add_type(alloc, &written.ty)?;
    let name = written.name.name.to_name(alloc)?;
    let variable = module_arena::Variable {
        name,
        linkage: linkage_of(written.linkage),
        constant: written.constant,
        ty,
        alignment: alignment_of(&written.alignment),
        initialiser: None,
    };
    match builder.arena.declare_variable(variable) {
        Ok(id) => Ok(id),
        Err(fault) => Err(entry_out_of_memory(fault)),
    }
}

/// Gives the variable, which has none yet, the initialiser that the text writes.
pub fn initialise(
    builder: &mut Builder,
    alloc: Global,
    id: VariableId,
    constant: &Constant,
    ty: &Type,
) -> Result<(), AllocError>
    requires known { id < length builder.old.arena.variables }
    requires undefined { (v : the_variable.Variable) → slice_get builder.old.arena.variables id ≡ Some v → v.initialiser ≡ None }
    requires ty { CanBe (structs builder.old.arena.table) (type_in (type_view ty.now)) }
    requires constant { CanHold (structs builder.old.arena.table) (entries builder.old.arena) (constant_view constant.now) }
    ensures { OnOk result (module_of builder.new.arena
        ≡ initialised (module_of builder.old.arena) id (constant_in (type_in (type_view ty.now)) (constant_view constant.now))) }
{
    let value = builder.add_constant(alloc, constant, ty)?;
    builder.arena.set_initialiser(id, value);
    Ok(())
}
