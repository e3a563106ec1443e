//! Initialisers of what variables become.
ghost use Rattle.std.specs.Prelude.{◌≡◌, ◌+◌, ◌<◌, ◌≤◌, ℕ, List, length, slice_get, Some, None, IfOk, OnOk, ◌≢◌};
ghost use Rattle.extract_rules.specs.Extracted.{declared_variable};
ghost use Rattle.module_arena.specs.Module as m;
ghost use Rattle.module_arena.specs.Module.Constants.{no_constants};
ghost use Rattle.module_arena.specs.View.{module_of};
ghost use Rattle.module_arena.specs.declared.entry.Variable as the_variable;
ghost use Rattle.item_build.specs.Types.Stands.{IsConstant, Grows};
ghost use Rattle.entry_copy.specs.Copies.{Copies};
ghost use Rattle.extract_core.specs.Fates.Fates.{variable_as};
ghost use Rattle.extract_core.specs.Declaring.Stages.{same_name};
ghost use Rattle.entry_copy.specs.Initialisers.{IsInitialiser};
ghost use Rattle.extract_core.specs.Defining.Filling.{initialised_by, initialised_as, behind_made, BeginWithVariables, InitialisesVariables, KeepsCopies};
ghost use Rattle.extract_core.specs.Defining.Naming.{NamesOfVariable};

use crate::fates::{Fate, FateList};
use entry_copy::{Copier, copied_initialiser};
use ir_tables::Linkage;
use item_build::types::Builder;
use module_arena::{Arena, Brackets, Const, ConstId, TypedConstList, VariableId};
use std::alloc::{AllocError, Global};

/// The initialiser of an array of no elements.
fn no_elements(alloc: Global, into: &mut Builder) -> Result<ConstId, AllocError>
    ensures grows { OnOk result (Grows into.old.arena into.new.arena) }
    ensures is { IfOk result (λ id. IsConstant into.new.arena id (m.Aggregate m.Square no_constants)) }
{
    let elements = TypedConstList::new(alloc);
    let id = into.keep_constant(alloc, Const::Aggregate(Brackets::Square, elements))?;
    Ok(id)
}

/// The initialiser of a variable of that linkage where it is declared. Only an appending one has any.
fn declared_initialiser(
    alloc: Global,
    into: &mut Builder,
    linkage: Linkage,
) -> Result<Option<ConstId>, AllocError>
    ensures grows { OnOk result (Grows into.old.arena into.new.arena) }
    ensures is { (v : m.Variable) → IfOk result (IsInitialiser into.new.arena (declared_variable linkage v).initialiser) }
{
    match linkage {
        Linkage::Appending => {
            let none = no_elements(alloc, into)?;
            Ok(Some(none))
        }
        _ => Ok(None),
    }
}

/// The initialiser of what the variable with that id becomes, where that has one.
fn initialiser_of(
    copier: &Copier,
    alloc: Global,
    from: &Arena,
    into: &mut Builder,
    id: VariableId,
    fate: Fate,
) -> Result<Option<ConstId>, AllocError>
    requires known { id < length from.now.variables }
    requires copies { Copies same_name same_name from.now into.old.arena copier.now }
    requires names { (v : m.Variable) → slice_get (module_of from.now).variables id ≡ Some v → NamesOfVariable from.now copier.now fate v }
    ensures grows { OnOk result (Grows into.old.arena into.new.arena) }
    ensures is { (v w : m.Variable) → slice_get (module_of from.now).variables id ≡ Some v → variable_as fate v ≡ Some w
        → IfOk result (IsInitialiser into.new.arena w.initialiser) }
{
    let _good = from.variable_count();
    let variable = from.variable(id);
    match fate {
        Fate::Kept => Ok(copied_initialiser(copier, variable)),
        _ => {
            let declared = declared_initialiser(alloc, into, variable.linkage)?;
            Ok(declared)
        }
    }
}

/// Initialises what the variable with that id becomes, which has this number in the new arena.
fn initialise_there(
    copier: &Copier,
    alloc: Global,
    from: &Arena,
    into: &mut Builder,
    id: VariableId,
    fate: Fate,
    new: VariableId,
) -> Result<(), AllocError>
    requires known { id < length from.now.variables }
    requires there { fate ≢ Fate.LeftOut }
    requires here { new < length into.old.arena.variables }
    requires undefined { (v : the_variable.Variable) → slice_get into.old.arena.variables new ≡ Some v → v.initialiser ≡ None }
    requires copies { Copies same_name same_name from.now into.old.arena copier.now }
    requires names { (v : m.Variable) → slice_get (module_of from.now).variables id ≡ Some v → NamesOfVariable from.now copier.now fate v }
    ensures module { (v w : m.Variable) → slice_get (module_of from.now).variables id ≡ Some v → variable_as fate v ≡ Some w
        → OnOk result (module_of into.new.arena ≡ initialised_by (module_of into.old.arena) new w.initialiser) }
    ensures keeps { OnOk result (KeepsCopies into.old.arena into.new.arena) }
{
    let value = initialiser_of(copier, alloc, from, into, id, fate)?;
    match value {
        Some(value) => {
            into.arena.set_initialiser(new, value);
            Ok(())
        }
        None => Ok(()),
    }
}

/// Initialises what the variable with that id becomes, which is the next in the new arena, and gives the number behind it.
fn initialise_next(
    copier: &Copier,
    alloc: Global,
    from: &Arena,
    into: &mut Builder,
    id: VariableId,
    fate: Fate,
    next: u32,
) -> Result<u32, AllocError>
    requires known { id < length from.now.variables }
    requires upto { next ≤ id }
    requires here { fate ≢ Fate.LeftOut → next < length into.old.arena.variables }
    requires undefined { fate ≢ Fate.LeftOut → (v : the_variable.Variable) → slice_get into.old.arena.variables next ≡ Some v → v.initialiser ≡ None }
    requires copies { Copies same_name same_name from.now into.old.arena copier.now }
    requires names { (v : m.Variable) → slice_get (module_of from.now).variables id ≡ Some v → NamesOfVariable from.now copier.now fate v }
    ensures module { (v : m.Variable) → slice_get (module_of from.now).variables id ≡ Some v
        → OnOk result (module_of into.new.arena ≡ initialised_as (module_of into.old.arena) next (variable_as fate v)) }
    ensures behind { (v : m.Variable) → slice_get (module_of from.now).variables id ≡ Some v → IfOk result (λ number. number ≡ behind_made next (variable_as fate v)) }
    ensures keeps { OnOk result (KeepsCopies into.old.arena into.new.arena) }
{
    let _good = from.variable_count();
    match fate {
        Fate::LeftOut => Ok(next),
        _ => {
            initialise_there(copier, alloc, from, into, id, fate, VariableId::new(next))?;
            Ok(next + 1)
        }
    }
}

/// Initialises what the variables become by these fates. Those that aliases became stand behind them, and stay.
pub fn initialise_variables(
    copier: &Copier,
    alloc: Global,
    from: &Arena,
    into: &mut Builder,
    fates: &FateList,
) -> Result<(), AllocError>
    requires sizes { length fates.now ≡ length from.now.variables }
    requires declared { (rest : List m.Variable) × BeginWithVariables fates.now (module_of from.now).variables rest (module_of into.old.arena).variables }
    requires copies { Copies same_name same_name from.now into.old.arena copier.now }
    requires names { (id : ℕ) (v : m.Variable) (fate : Fate) → slice_get (module_of from.now).variables id ≡ Some v → slice_get fates.now id ≡ Some fate → NamesOfVariable from.now copier.now fate v }
    ensures module { OnOk result (InitialisesVariables fates.now (module_of from.now).variables (module_of into.old.arena) (module_of into.new.arena)) }
    ensures keeps { OnOk result (KeepsCopies into.old.arena into.new.arena) }
{
    let mut next = 0;
    'variables: for number in 0..from.variable_count() {
        let id = VariableId::new(number);
        let behind = initialise_next(
            copier,
            alloc,
            from,
            into,
            id,
            *fates.at(number as usize),
            next,
        )?;
        next = behind;
    }
    Ok(())
}
