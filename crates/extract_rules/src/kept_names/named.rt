//! The entries whose names are in kept definitions.
ghost use Rattle.std.specs.Prelude.{◌≡◌, ◌<◌, [], false, length, flat_map, slice_index_or, map, IfOk, OnOk, if◌then◌else◌};
ghost use Rattle.extract_rules.specs.Calls.{Adds, AreNames};
ghost use Rattle.extract_rules.specs.Extracted.{kept_names};
ghost use Rattle.extract_rules.specs.Flags.{AreKept, AreNamed, HaveSizes};
ghost use Rattle.extract_rules.specs.Selected.{is_among};
ghost use Rattle.extract_rules.specs.declared.selection.Selection.{Selection};
ghost use Rattle.extract_rules.specs.KeptNames.Marks.{AreUnmarked, IsAmongEach, MarksAll, in_function, in_parts, in_variable, marked_names, own_names, picked};
ghost use Rattle.module_arena.specs.View.{constants_of, module_of};
ghost use Rattle.module_arena.specs.declared.constant.Const.TheVariants as the_const;

use crate::kept_names::marks::{mark, mark_blocks, mark_parts};
use crate::{EntryFlags, FlagList, NameSet, add_name};
use indexmap::IndexSet;
use ir_base::ItemList;
use module_arena::{AliasId, Arena, Const, ConstId, Function, FunctionId, Variable, VariableId};
use std::alloc::{AllocError, Global};

/// Marks the initialiser of a variable that is kept.
fn mark_variable(variable: &Variable, is_kept: bool, marks: &mut [bool])
    ensures { MarksAll marks.old (λ cs. (if is_kept then in_variable cs variable.now else [])) marks.new }
{
    if !is_kept {
        return;
    }
    match variable.initialiser {
        Some(id) => mark(marks, id),
        None => {}
    }
}

/// Marks the constants in the body of a function that is kept.
fn mark_function(function: &Function, is_kept: bool, marks: &mut [bool])
    ensures { MarksAll marks.old (λ cs. (if is_kept then in_function cs function.now else [])) marks.new }
{
    if !is_kept {
        return;
    }
    match &function.body {
        Some(body) => mark_blocks(marks, body.blocks.as_slice()),
        None => {}
    }
}

/// Marks the initialisers of the variables that are kept.
fn mark_variables(arena: &Arena, kept: &[bool], marks: &mut [bool])
    requires { length kept.now ≡ length arena.now.variables }
    ensures { MarksAll marks.old (λ cs. flat_map (in_variable cs) (picked kept.now arena.now.variables)) marks.new }
{
    for number in 0..arena.variable_count() {
        let variable = arena.variable(VariableId::new(number));
        mark_variable(variable, kept[number as usize], marks);
    }
}

/// Marks the constants in the bodies of the functions that are kept.
fn mark_functions(arena: &Arena, kept: &[bool], marks: &mut [bool])
    requires { length kept.now ≡ length arena.now.functions }
    ensures { MarksAll marks.old (λ cs. flat_map (in_function cs) (picked kept.now arena.now.functions)) marks.new }
{
    for number in 0..arena.function_count() {
        let function = arena.function(FunctionId::new(number));
        mark_function(function, kept[number as usize], marks);
    }
}

/// Marks the parts of a constant, and adds its name where it is an entry.
fn open_constant(
    alloc: Global,
    arena: &Arena,
    id: ConstId,
    marks: &mut [bool],
    names: &mut NameSet,
) -> Result<(), AllocError>
    requires { id < length arena.now.constants }
    ensures names { OnOk result (Adds names.old.keys (own_names arena.now (slice_index_or arena.now.constants id the_const.Null)) names.new.keys) }
    ensures marks { OnOk result (MarksAll marks.old (λ cs. in_parts cs (slice_index_or arena.now.constants id the_const.Null)) marks.new) }
{
    // The entries that constants of an arena name are entries of the arena.
    let _count = arena.variable_count();
    let constant = arena.constant(id);
    mark_parts(marks, constant);
    let Const::Address(entry) = constant else {
        return Ok(());
    };
    add_name(alloc, names, arena.name(*entry))
}

/// Opens a constant where it is marked.
fn open_marked(
    alloc: Global,
    arena: &Arena,
    id: ConstId,
    marks: &mut [bool],
    names: &mut NameSet,
) -> Result<(), AllocError>
    requires known { id < length arena.now.constants }
    requires sized { length marks.old ≡ length arena.now.constants }
    ensures names { OnOk result (Adds names.old.keys (if slice_index_or marks.old id false then own_names arena.now (slice_index_or arena.now.constants id the_const.Null) else []) names.new.keys) }
    ensures marks { OnOk result (MarksAll marks.old (λ cs. (if slice_index_or marks.old id false then in_parts cs (slice_index_or arena.now.constants id the_const.Null) else [])) marks.new) }
{
    if !marks[id.number() as usize] {
        return Ok(());
    }
    open_constant(alloc, arena, id, marks, names)
}

/// Adds the names in all constants that are marked, from the last one on, since each constant has earlier ones in it.
fn add_marked(
    alloc: Global,
    arena: &Arena,
    marks: &mut [bool],
    names: &mut NameSet,
) -> Result<(), AllocError>
    requires { length marks.old ≡ length arena.now.constants }
    ensures { OnOk result (IsAmongEach names.new.keys names.old.keys (marked_names (constants_of arena.now) marks.old)) }
{
    // The constants within a constant of an arena are earlier ones.
    let _count = arena.variable_count();
    let mut next = marks.len();
    'back: while next > 0 {
        next -= 1;
        open_marked(alloc, arena, ConstId::new(next as u64), marks, names)?;
    }
    Ok(())
}

/// No marks.
fn unmarked(alloc: Global, count: u64) -> Result<Vec<bool>, AllocError>
    ensures { IfOk result (λ marks. AreUnmarked count marks.items) }
{
    let mut marks = Vec::new(alloc);
    for _id in 0..count {
        marks.push(false)?;
    }
    Ok(marks)
}

/// Adds the names in kept definitions.
fn add_names_in_kept(
    alloc: Global,
    arena: &Arena,
    kept: &EntryFlags,
    marks: &mut [bool],
    names: &mut NameSet,
) -> Result<(), AllocError>
    requires sizes { HaveSizes arena.now kept.now }
    requires unmarked { AreUnmarked (length arena.now.constants) marks.old }
    ensures { OnOk result ((s : Selection) → AreKept (module_of arena.now) s kept.now → IsAmongEach names.new.keys names.old.keys (kept_names (module_of arena.now) s)) }
{
    mark_variables(arena, kept.variables.as_slice(), marks);
    mark_functions(arena, kept.functions.as_slice(), marks);
    add_marked(alloc, arena, marks, names)
}

/// The names in kept definitions.
fn names_in_kept(alloc: Global, arena: &Arena, kept: &EntryFlags) -> Result<NameSet, AllocError>
    requires { HaveSizes arena.now kept.now }
    ensures { IfOk result (λ names. (s : Selection) → AreKept (module_of arena.now) s kept.now → AreNames names.keys (kept_names (module_of arena.now) s)) }
{
    let mut marks = unmarked(alloc, arena.const_count())?;
    let mut names = IndexSet::new(alloc);
    add_names_in_kept(alloc, arena, kept, &mut marks, &mut names)?;
    Ok(names)
}

/// Which variables have one of the names.
fn named_variables(alloc: Global, arena: &Arena, names: &NameSet) -> Result<FlagList, AllocError>
    ensures { IfOk result (λ flags. flags ≡ map (λ v. is_among names.now.keys v.name) (module_of arena.now).variables) }
{
    let mut flags = ItemList::new(alloc);
    for number in 0..arena.variable_count() {
        let is_named = names.contains(&arena.variable(VariableId::new(number)).name);
        flags.push(is_named)?;
    }
    Ok(flags)
}

/// Which functions have one of the names.
fn named_functions(alloc: Global, arena: &Arena, names: &NameSet) -> Result<FlagList, AllocError>
    ensures { IfOk result (λ flags. flags ≡ map (λ f. is_among names.now.keys f.name) (module_of arena.now).functions) }
{
    let mut flags = ItemList::new(alloc);
    for number in 0..arena.function_count() {
        let is_named = names.contains(&arena.function(FunctionId::new(number)).name);
        flags.push(is_named)?;
    }
    Ok(flags)
}

/// Which aliases have one of the names.
fn named_aliases(alloc: Global, arena: &Arena, names: &NameSet) -> Result<FlagList, AllocError>
    ensures { IfOk result (λ flags. flags ≡ map (λ a. is_among names.now.keys a.name) (module_of arena.now).aliases) }
{
    let mut flags = ItemList::new(alloc);
    for number in 0..arena.alias_count() {
        let is_named = names.contains(&arena.alias(AliasId::new(number)).name);
        flags.push(is_named)?;
    }
    Ok(flags)
}

/// Which entries have a name that is in a kept definition. Those that are not kept become declarations. It is refused for
/// want of memory alone.
pub fn named_by_kept(
    alloc: Global,
    arena: &Arena,
    kept: &EntryFlags,
) -> Result<EntryFlags, AllocError>
    requires { HaveSizes arena.now kept.now }
    ensures { IfOk result (λ named. (s : Selection) → AreKept (module_of arena.now) s kept.now → AreNamed (module_of arena.now) s named) }
{
    let names = names_in_kept(alloc, arena, kept)?;
    Ok(EntryFlags {
        variables: named_variables(alloc, arena, &names)?,
        functions: named_functions(alloc, arena, &names)?,
        aliases: named_aliases(alloc, arena, &names)?,
    })
}
