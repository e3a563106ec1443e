//! The entries that are kept.
ghost use Rattle.std.specs.Prelude.{◌≡◌, ◌&&◌, map, not, None, IfOk, IfErr, OnOk, if◌then◌else◌};
ghost use Rattle.extract_rules.specs.Calls.{AreNames};
ghost use Rattle.extract_rules.specs.Faults.{HasFault};
ghost use Rattle.extract_rules.specs.Flags.{AreKept};
ghost use Rattle.extract_rules.specs.Selected.{is_among, chosen, keeps_variable, keeps_function, keeps_alias, no_such_symbol};
ghost use Rattle.module_arena.specs.View.{module_of};
ghost use Rattle.module_arena.specs.WellFormed.{IsWellFormed};

use crate::chosen::{chosen_names, target_or_own};
use crate::missing::no_such_symbol;
use crate::names::NameSet;
use crate::{EntryFlags, ExtractFault, FlagList, Selection};
use ir_base::{ItemList, Name};
use module_arena::{AliasId, Arena, Checked, FunctionId, GlobalId, VariableId};
use std::alloc::{AllocError, Global};

/// Whether the definition with a name is kept: a chosen one, or with `delete` any other.
fn keeps(chosen: &NameSet, delete: bool, name: &Name) -> bool
    ensures { result ≡ (if delete then not (is_among chosen.now.keys name.now) else is_among chosen.now.keys name.now) }
{
    let is_chosen = chosen.contains(name);
    if delete { !is_chosen } else { is_chosen }
}

/// Whether an entry with a name is kept that is a definition where it is written whole.
fn keeps_definition(chosen: &NameSet, delete: bool, is_written: bool, name: &Name) -> bool
    ensures { result ≡ (is_written && (if delete then not (is_among chosen.now.keys name.now) else is_among chosen.now.keys name.now)) }
{
    is_written && keeps(chosen, delete, name)
}

/// Which variables are kept.
fn kept_variables(
    alloc: Global,
    arena: &Arena,
    selection: &Selection,
    names: &NameSet,
) -> Result<FlagList, AllocError>
    requires { AreNames names.now.keys (chosen (module_of arena.now) selection.now) }
    ensures { IfOk result (λ flags. flags ≡ map (keeps_variable (module_of arena.now) selection.now) (module_of arena.now).variables) }
{
    let mut flags = ItemList::new(alloc);
    for number in 0..arena.variable_count() {
        let variable = arena.variable(VariableId::new(number));
        let is_written = variable.initialiser.is_some();
        let is_kept = keeps_definition(names, selection.delete, is_written, &variable.name);
        flags.push(is_kept)?;
    }
    Ok(flags)
}

/// Which functions are kept.
fn kept_functions(
    alloc: Global,
    arena: &Arena,
    selection: &Selection,
    names: &NameSet,
) -> Result<FlagList, AllocError>
    requires { AreNames names.now.keys (chosen (module_of arena.now) selection.now) }
    ensures { IfOk result (λ flags. flags ≡ map (keeps_function (module_of arena.now) selection.now) (module_of arena.now).functions) }
{
    let mut flags = ItemList::new(alloc);
    for number in 0..arena.function_count() {
        let function = arena.function(FunctionId::new(number));
        let is_written = function.body.is_some();
        let is_kept = keeps_definition(names, selection.delete, is_written, &function.name);
        flags.push(is_kept)?;
    }
    Ok(flags)
}

/// Which aliases are kept.
fn kept_aliases(
    alloc: Global,
    arena: &Arena,
    selection: &Selection,
    names: &NameSet,
) -> Result<FlagList, AllocError>
    requires names { AreNames names.now.keys (chosen (module_of arena.now) selection.now) }
    requires well_formed { IsWellFormed (module_of arena.now) }
    ensures { IfOk result (λ flags. flags ≡ map (keeps_alias (module_of arena.now) selection.now) (module_of arena.now).aliases) }
{
    let mut flags = ItemList::new(alloc);
    for number in 0..arena.alias_count() {
        let target = target_or_own(arena, GlobalId::Alias(AliasId::new(number)));
        let is_kept = keeps(names, selection.delete, target);
        flags.push(is_kept)?;
    }
    Ok(flags)
}

/// Which entries of a module are kept: the chosen definitions, or with `delete` all others, and aliases with their targets.
/// It is refused with the first selected name that no definition of its kind has, and else for want of memory alone.
pub fn choose(
    alloc: Global,
    checked: &Checked,
    selection: &Selection,
) -> Result<EntryFlags, ExtractFault>
    ensures there { OnOk result (no_such_symbol (module_of checked.now) selection.now ≡ None) }
    ensures kept { IfOk result (AreKept (module_of checked.now) selection.now) }
    ensures fault { IfErr result (HasFault (module_of checked.now) selection.now) }
{
    let arena = checked.arena();
    if let Some(name) = no_such_symbol(arena, selection) {
        return Err(ExtractFault::NoSuchSymbol(name.copy(alloc)?));
    }
    let names = chosen_names(alloc, arena, selection)?;
    Ok(EntryFlags {
        variables: kept_variables(alloc, arena, selection, &names)?,
        functions: kept_functions(alloc, arena, selection, &names)?,
        aliases: kept_aliases(alloc, arena, selection, &names)?,
    })
}
