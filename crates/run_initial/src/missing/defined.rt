//! The definitions of a module, and the entries that they use.
ghost use Rattle.std.specs.Prelude.{◌≡◌, true, map, IfOk};
ghost use Rattle.extract_rules.specs.Flags.{HaveSizes};
ghost use Rattle.module_arena.specs.View.{module_of};
ghost use Rattle.run_names.specs.Spots.{is_defined};
ghost use Rattle.run_names.specs.Standings.{has_code};
ghost use Rattle.run_initial.specs.Missing.Used.{AreDefinitions, AreUsed};

use extract_rules::kept_names::named_by_kept;
use extract_rules::{EntryFlags, FlagList};
use ir_base::ItemList;
use module_arena::{Arena, Checked, FunctionId, VariableId};
use run_names::is_definition;
use std::alloc::{AllocError, Global};

/// Which variables are defined.
fn defined_variables(alloc: Global, arena: &Arena) -> Result<FlagList, AllocError>
    ensures { IfOk result (λ flags. flags ≡ map is_defined arena.now.variables) }
{
    let mut flags = ItemList::new(alloc);
    'variables: for number in 0..arena.variable_count() {
        let variable = arena.variable(VariableId::new(number));
        let is_defined = is_definition(variable.linkage, variable.initialiser.is_some());
        flags.push(is_defined)?;
    }
    Ok(flags)
}

/// Which functions have a body that counts.
fn defined_functions(alloc: Global, arena: &Arena) -> Result<FlagList, AllocError>
    ensures { IfOk result (λ flags. flags ≡ map has_code arena.now.functions) }
{
    let mut flags = ItemList::new(alloc);
    'functions: for number in 0..arena.function_count() {
        let function = arena.function(FunctionId::new(number));
        let has_code = is_definition(function.linkage, function.body.is_some());
        flags.push(has_code)?;
    }
    Ok(flags)
}

/// All aliases: what an alias is of is defined.
fn defined_aliases(alloc: Global, arena: &Arena) -> Result<FlagList, AllocError>
    ensures { IfOk result (λ flags. flags ≡ map (λ x. true) arena.now.aliases) }
{
    let mut flags = ItemList::new(alloc);
    'aliases: for _number in 0..arena.alias_count() {
        flags.push(true)?;
    }
    Ok(flags)
}

/// Which entries are defined.
fn definitions(alloc: Global, arena: &Arena) -> Result<EntryFlags, AllocError>
    ensures defined { IfOk result (AreDefinitions arena.now) }
    ensures sizes { IfOk result (HaveSizes arena.now) }
{
    Ok(EntryFlags {
        variables: defined_variables(alloc, arena)?,
        functions: defined_functions(alloc, arena)?,
        aliases: defined_aliases(alloc, arena)?,
    })
}

/// Which entries have a name that a definition uses: in an initialiser or a body, within constants too.
pub(crate) fn used_entries(alloc: Global, program: &Checked) -> Result<EntryFlags, AllocError>
    ensures { IfOk result (AreUsed (module_of program.now)) }
{
    let arena = program.arena();
    let kept = definitions(alloc, arena)?;
    named_by_kept(alloc, arena, &kept)
}
