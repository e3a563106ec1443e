//! Bodies of functions that are kept.
ghost use Rattle.std.specs.Prelude.{◌≡◌, ◌+◌, ◌<◌, ◌≤◌, ℕ, List, length, slice_get, Some, None, IfOk, OnOk};
ghost use Rattle.module_arena.specs.Module as m;
ghost use Rattle.module_arena.specs.View.{module_of};
ghost use Rattle.module_arena.specs.declared.entry.Function as the_function;
ghost use Rattle.entry_copy.specs.Copies.{Copies};
ghost use Rattle.extract_core.specs.Fates.Fates.{function_as};
ghost use Rattle.extract_core.specs.Declaring.Stages.{same_name};
ghost use Rattle.extract_core.specs.Defining.Filling.{defined_as, behind_made, BeginWithFunctions, DefinesFunctions, KeepsCopies};
ghost use Rattle.extract_core.specs.Defining.Naming.{NamesOfFunction};

use crate::fates::{Fate, FateList};
use entry_copy::Copier;
use item_build::types::Builder;
use module_arena::{Arena, FunctionId};
use std::alloc::{AllocError, Global};

/// Gives the function with that number in the new arena the body of the function with that id.
fn define_kept(
    copier: &Copier,
    alloc: Global,
    from: &Arena,
    into: &mut Builder,
    id: FunctionId,
    new: FunctionId,
) -> Result<(), AllocError>
    requires known { id < length from.now.functions }
    requires here { new < length into.old.arena.functions }
    requires undefined { (f : the_function.Function) → slice_get into.old.arena.functions new ≡ Some f → f.body ≡ None }
    requires parameters { (f g : m.Function) → slice_get (module_of from.now).functions id ≡ Some f → slice_get (module_of into.old.arena).functions new ≡ Some g → g.parameters ≡ f.parameters }
    requires copies { Copies same_name same_name from.now into.old.arena copier.now }
    requires names { (f : m.Function) → slice_get (module_of from.now).functions id ≡ Some f → NamesOfFunction from.now copier.now Fate.Kept f }
    ensures module { (f : m.Function) → slice_get (module_of from.now).functions id ≡ Some f
        → OnOk result (module_of into.new.arena ≡ defined_as (module_of into.old.arena) new (function_as Fate.Kept f)) }
    ensures keeps { OnOk result (KeepsCopies into.old.arena into.new.arena) }
{
    let _good = from.variable_count();
    let function = from.function(id);
    match &function.body {
        Some(body) => {
            let copy = copier.copy_body(alloc, body)?;
            into.arena.define(new, copy);
            Ok(())
        }
        None => Ok(()),
    }
}

/// Defines what the function with that id becomes, which is the next in the new arena, and gives the number behind it.
fn define_next(
    copier: &Copier,
    alloc: Global,
    from: &Arena,
    into: &mut Builder,
    id: FunctionId,
    fate: Fate,
    next: u32,
) -> Result<u32, AllocError>
    requires known { id < length from.now.functions }
    requires upto { next ≤ id }
    requires here { fate ≡ Fate.Kept → next < length into.old.arena.functions }
    requires undefined { fate ≡ Fate.Kept → (f : the_function.Function) → slice_get into.old.arena.functions next ≡ Some f → f.body ≡ None }
    requires parameters { fate ≡ Fate.Kept → (f g : m.Function) → slice_get (module_of from.now).functions id ≡ Some f → slice_get (module_of into.old.arena).functions next ≡ Some g → g.parameters ≡ f.parameters }
    requires copies { Copies same_name same_name from.now into.old.arena copier.now }
    requires names { (f : m.Function) → slice_get (module_of from.now).functions id ≡ Some f → NamesOfFunction from.now copier.now fate f }
    ensures module { (f : m.Function) → slice_get (module_of from.now).functions id ≡ Some f
        → OnOk result (module_of into.new.arena ≡ defined_as (module_of into.old.arena) next (function_as fate f)) }
    ensures behind { (f : m.Function) → slice_get (module_of from.now).functions id ≡ Some f → IfOk result (λ number. number ≡ behind_made next (function_as fate f)) }
    ensures keeps { OnOk result (KeepsCopies into.old.arena into.new.arena) }
{
    let _count = from.function_count();
    match fate {
        Fate::LeftOut => Ok(next),
        Fate::Declared => Ok(next + 1),
        Fate::Kept => {
            define_kept(copier, alloc, from, into, id, FunctionId::new(next))?;
            Ok(next + 1)
        }
    }
}

/// Defines what the functions become by these fates. Those that aliases became stand behind them, and stay.
pub fn define_functions(
    copier: &Copier,
    alloc: Global,
    from: &Arena,
    into: &mut Builder,
    fates: &FateList,
) -> Result<(), AllocError>
    requires sizes { length fates.now ≡ length from.now.functions }
    requires declared { (rest : List m.Function) × BeginWithFunctions fates.now (module_of from.now).functions rest (module_of into.old.arena).functions }
    requires copies { Copies same_name same_name from.now into.old.arena copier.now }
    requires names { (id : ℕ) (f : m.Function) (fate : Fate) → slice_get (module_of from.now).functions id ≡ Some f → slice_get fates.now id ≡ Some fate → NamesOfFunction from.now copier.now fate f }
    ensures module { OnOk result (DefinesFunctions fates.now (module_of from.now).functions (module_of into.old.arena) (module_of into.new.arena)) }
    ensures keeps { OnOk result (KeepsCopies into.old.arena into.new.arena) }
{
    let mut next = 0;
    'functions: for number in 0..from.function_count() {
        let id = FunctionId::new(number);
        let behind = define_next(
            copier,
            alloc,
            from,
            into,
            id,
            *fates.at(number as usize),
            next,
        )?;
        next = behind;
    }
    Ok(())
}
