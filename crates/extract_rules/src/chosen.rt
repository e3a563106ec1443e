//! The names that are chosen: what is selected, and what that calls.
ghost use Rattle.std.specs.Prelude.{◌≡◌, ◌∷◌, [], ◌<◌, map, flat_map, length, slice_get, All, OnOk, IfOk};
ghost use Rattle.std.specs.Option.{option_map_or};
ghost use Rattle.extract_rules.specs.Calls.{Adds, AreNames, with_all_called, written_in, defined_behind, called_in, called_in_block, called_in_function, called_in_entry, HasConstant, HasCallees};
ghost use Rattle.extract_rules.specs.Entries.{target_or_own};
ghost use Rattle.extract_rules.specs.Selected.{behind, selected, chosen};
ghost use Rattle.module_arena.specs.Known.{HasGlobal, counts};
ghost use Rattle.module_arena.specs.Lists.{name_at};
ghost use Rattle.module_arena.specs.Mentions.{bare_values_of};
ghost use Rattle.module_arena.specs.View.{module_of};
ghost use Rattle.module_arena.specs.WellFormed.{IsWellFormed};

use crate::Selection;
use crate::missing::defines_function;
use crate::names::{NameSet, add_name, add_names};
use indexmap::IndexSet;
use ir_base::Name;
use module_arena::{Arena, Block, Const, FunctionId, GlobalId, Inst, Value};
use std::alloc::{AllocError, Global};

/// The name of the target of an alias, and of any other entry its own.
pub(crate) fn target_or_own(arena: &Arena, id: GlobalId) -> &Name
    requires known { HasGlobal (counts arena.now) id }
    requires well_formed { IsWellFormed (module_of arena.now) }
    ensures { result.now ≡ target_or_own arena.now id }
{
    // What an alias of an arena is of is an entry of the arena.
    let _count = arena.variable_count();
    match id {
        GlobalId::Alias(alias) => arena.name(arena.alias(alias).target.unwrap()),
        GlobalId::Variable(variable) => &arena.variable(variable).name,
        GlobalId::Function(function) => &arena.function(function).name,
    }
}

/// The name of the target where a name is an alias's, and else the name.
fn name_behind<'a>(arena: &'a Arena, name: &'a Name) -> &'a Name
    requires { IsWellFormed (module_of arena.now) }
    ensures { result.now ≡ behind (module_of arena.now) name.now }
{
    match arena.lookup(name) {
        Some(id) => target_or_own(arena, id),
        None => name,
    }
}

/// Adds the names of what aliases are of.
fn add_targets(
    alloc: Global,
    arena: &Arena,
    names: &mut NameSet,
    aliases: &[Name],
) -> Result<(), AllocError>
    requires { IsWellFormed (module_of arena.now) }
    ensures { OnOk result (Adds names.old.keys (map (behind (module_of arena.now)) aliases.now) names.new.keys) }
{
    for alias in aliases {
        add_name(alloc, names, name_behind(arena, alias))?;
    }
    Ok(())
}

/// The names that are selected.
fn selected_names(
    alloc: Global,
    arena: &Arena,
    selection: &Selection,
) -> Result<NameSet, AllocError>
    requires { IsWellFormed (module_of arena.now) }
    ensures { IfOk result (λ names. AreNames names.keys (selected (module_of arena.now) selection.now)) }
{
    let mut names = IndexSet::new(alloc);
    add_names(alloc, &mut names, selection.functions.as_slice())?;
    add_names(alloc, &mut names, selection.variables.as_slice())?;
    add_targets(alloc, arena, &mut names, selection.aliases.as_slice())?;
    Ok(names)
}

/// Adds the function with a body that an entry is, or is an alias of.
fn add_defined(
    alloc: Global,
    arena: &Arena,
    id: GlobalId,
    names: &mut NameSet,
) -> Result<(), AllocError>
    requires known { HasGlobal (counts arena.now) id }
    requires well_formed { IsWellFormed (module_of arena.now) }
    ensures { OnOk result (Adds names.old.keys (defined_behind (module_of arena.now) (name_at arena.now id ∷ [])) names.new.keys) }
{
    // No two entries of an arena have one name.
    let _count = arena.variable_count();
    let name = target_or_own(arena, id);
    if defines_function(arena, name) {
        add_name(alloc, names, name)?;
    }
    Ok(())
}

/// Adds the function with a body that a value is.
fn add_callee(
    alloc: Global,
    arena: &Arena,
    callee: Value,
    names: &mut NameSet,
) -> Result<(), AllocError>
    requires known { HasConstant (length arena.now.constants) callee }
    requires well_formed { IsWellFormed (module_of arena.now) }
    ensures { OnOk result (Adds names.old.keys (defined_behind (module_of arena.now) (written_in arena.now callee)) names.new.keys) }
{
    // The entries that constants of an arena name are entries of the arena.
    let _count = arena.variable_count();
    let Value::Known(id) = callee else {
        return Ok(());
    };
    let Const::Address(entry) = arena.constant(id) else {
        return Ok(());
    };
    add_defined(alloc, arena, *entry, names)
}

/// Adds what an instruction calls.
fn add_called(
    alloc: Global,
    arena: &Arena,
    instruction: &Inst,
    names: &mut NameSet,
) -> Result<(), AllocError>
    requires known { All (HasConstant (length arena.now.constants)) (bare_values_of instruction.now) }
    requires well_formed { IsWellFormed (module_of arena.now) }
    ensures { OnOk result (Adds names.old.keys (called_in arena.now instruction.now) names.new.keys) }
{
    match instruction {
        Inst::Call(call) => add_callee(alloc, arena, call.get().callee, names),
        _ => Ok(()),
    }
}

/// Adds what a block calls.
fn add_called_in_block(
    alloc: Global,
    arena: &Arena,
    block: &Block,
    names: &mut NameSet,
) -> Result<(), AllocError>
    requires known { HasCallees (length arena.now.constants) block.now }
    requires well_formed { IsWellFormed (module_of arena.now) }
    ensures { OnOk result (Adds names.old.keys (called_in_block arena.now block.now) names.new.keys) }
{
    for instruction in block.instructions.as_slice() {
        add_called(alloc, arena, instruction, names)?;
    }
    Ok(())
}

/// Adds what some blocks call.
fn add_called_in_blocks(
    alloc: Global,
    arena: &Arena,
    blocks: &[Block],
    names: &mut NameSet,
) -> Result<(), AllocError>
    requires known { All (HasCallees (length arena.now.constants)) blocks.now }
    requires well_formed { IsWellFormed (module_of arena.now) }
    ensures { OnOk result (Adds names.old.keys (flat_map (called_in_block arena.now) blocks.now) names.new.keys) }
{
    for block in blocks {
        add_called_in_block(alloc, arena, block, names)?;
    }
    Ok(())
}

/// Adds what a function of the arena calls.
fn add_called_in_function(
    alloc: Global,
    arena: &Arena,
    id: FunctionId,
    names: &mut NameSet,
) -> Result<(), AllocError>
    requires known { id < length arena.now.functions }
    requires well_formed { IsWellFormed (module_of arena.now) }
    ensures { OnOk result (Adds names.old.keys (option_map_or (called_in_function arena.now) (slice_get arena.now.functions id) []) names.new.keys) }
{
    // The constants in the functions of an arena are constants of the arena.
    let _count = arena.variable_count();
    match &arena.function(id).body {
        Some(body) => add_called_in_blocks(alloc, arena, body.blocks.as_slice(), names),
        None => Ok(()),
    }
}

/// Adds what an entry calls, where it is a function.
fn add_called_in_entry(
    alloc: Global,
    arena: &Arena,
    id: GlobalId,
    names: &mut NameSet,
) -> Result<(), AllocError>
    requires known { HasGlobal (counts arena.now) id }
    requires well_formed { IsWellFormed (module_of arena.now) }
    ensures { OnOk result (Adds names.old.keys (called_in_entry arena.now id) names.new.keys) }
{
    match id {
        GlobalId::Function(id) => add_called_in_function(alloc, arena, id, names),
        GlobalId::Variable(_) | GlobalId::Alias(_) => Ok(()),
    }
}

/// Adds all functions with bodies that the functions of some names call, those that they call, and so on. Names are added
/// behind those that are still to be looked at, so that each is looked at once.
fn add_all_called(alloc: Global, arena: &Arena, names: &mut NameSet) -> Result<(), AllocError>
    requires { IsWellFormed (module_of arena.now) }
    ensures { OnOk result (AreNames names.new.keys (with_all_called (module_of arena.now) names.old.keys)) }
{
    let mut next = 0;
    while next < names.len() {
        let name = names.get_index(next).unwrap();
        if let Some(id) = arena.lookup(name) {
            add_called_in_entry(alloc, arena, id, names)?;
        }
        next += 1;
    }
    Ok(())
}

/// The names that are chosen.
pub(crate) fn chosen_names(
    alloc: Global,
    arena: &Arena,
    selection: &Selection,
) -> Result<NameSet, AllocError>
    requires { IsWellFormed (module_of arena.now) }
    ensures { IfOk result (λ names. AreNames names.keys (chosen (module_of arena.now) selection.now)) }
{
    let mut names = selected_names(alloc, arena, selection)?;
    if selection.recursive {
        add_all_called(alloc, arena, &mut names)?;
    }
    Ok(names)
}
