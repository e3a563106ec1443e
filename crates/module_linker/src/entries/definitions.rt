//! Symbols that are defined, declared as what they are where they are defined.
ghost use Rattle.std.specs.Prelude.{◌≡◌, List, All, IfOk};
ghost use Rattle.linkage_rules.specs.Ids.{IsEntryId};
ghost use Rattle.module_linker.specs.Stages.Ground.{HaveTypes};
ghost use Rattle.module_linker.specs.Entries.Definitions.{definition_of};
ghost use Rattle.module_linker.specs.Entries.Room.{HasRoom};
ghost use Rattle.module_linker.specs.Entries.Step.{IsDeclared};

use crate::entries::types::{joined_alignment, joined_type};
use entry_copy::{Copier, add_alias, add_function, add_variable, copier_of};
use ir_base::Name;
use item_build::types::Builder;
use linkage_rules::{EntryId, SymbolKind, arena_of};
use module_arena::{Alias, AliasId, Checked, Function, FunctionId, GlobalId, Variable, VariableId};
use std::alloc::{AllocError, Global};

/// Declares a variable that is defined there, under this name.
fn declare_variable(
    copiers: &[Copier],
    alloc: Global,
    parts: &[Checked],
    into: &mut Builder,
    home: EntryId,
    ids: &[EntryId],
    name: &Name,
) -> Result<GlobalId, AllocError>
    requires types { HaveTypes parts.now into.old.arena copiers.now }
    requires entry { IsEntryId parts.now home }
    requires known { All (IsEntryId parts.now) ids.now }
    requires variable { home.kind ≡ SymbolKind.Variable }
    requires room { HasRoom into.old.arena (definition_of parts.now home ids.now name.now) }
    ensures { IfOk result (IsDeclared parts.now into.old.arena into.new.arena copiers.now (definition_of parts.now home ids.now name.now)) }
{
    let arena = arena_of(parts, home.part);
    let variable = arena.variable(VariableId::new(home.number));
    let name = name.copy(alloc)?;
    let ty = joined_type(copiers, alloc, parts, into, home, ids)?;
    let declared = Variable {
        name,
        linkage: variable.linkage,
        constant: variable.constant,
        ty,
        alignment: joined_alignment(parts, home, ids),
        initialiser: None,
    };
    let id = add_variable(into, declared)?;
    Ok(id)
}

/// Declares a function that is defined there, under this name. The symbol's other entries play no part.
fn declare_function(
    copiers: &[Copier],
    alloc: Global,
    parts: &[Checked],
    into: &mut Builder,
    home: EntryId,
    name: &Name,
) -> Result<GlobalId, AllocError>
    requires types { HaveTypes parts.now into.old.arena copiers.now }
    requires entry { IsEntryId parts.now home }
    requires function { home.kind ≡ SymbolKind.Function }
    requires room { (ids : List EntryId) × HasRoom into.old.arena (definition_of parts.now home ids name.now) }
    ensures { (ids : List EntryId) → IfOk result (IsDeclared parts.now into.old.arena into.new.arena copiers.now (definition_of parts.now home ids name.now)) }
{
    let arena = arena_of(parts, home.part);
    // The types of the functions of an arena are types of the arena.
    let _good = arena.variable_count();
    let function = arena.function(FunctionId::new(home.number));
    let copier = copier_of(copiers, home.part);
    let name = name.copy(alloc)?;
    let parameters = copier.copy_parameters(alloc, &function.parameters)?;
    let declared = Function {
        name,
        linkage: function.linkage,
        result: copier.new_type(function.result),
        parameters,
        variadic: function.variadic,
        body: None,
    };
    let id = add_function(into, declared)?;
    Ok(id)
}

/// Declares an alias, under this name. The symbol's other entries play no part.
fn declare_alias(
    copiers: &[Copier],
    alloc: Global,
    parts: &[Checked],
    into: &mut Builder,
    home: EntryId,
    name: &Name,
) -> Result<GlobalId, AllocError>
    requires types { HaveTypes parts.now into.old.arena copiers.now }
    requires entry { IsEntryId parts.now home }
    requires alias { home.kind ≡ SymbolKind.Alias }
    requires room { (ids : List EntryId) × HasRoom into.old.arena (definition_of parts.now home ids name.now) }
    ensures { (ids : List EntryId) → IfOk result (IsDeclared parts.now into.old.arena into.new.arena copiers.now (definition_of parts.now home ids name.now)) }
{
    let arena = arena_of(parts, home.part);
    // The types that the aliases of an arena write are types of the arena.
    let _good = arena.variable_count();
    let alias = arena.alias(AliasId::new(home.number));
    let copier = copier_of(copiers, home.part);
    let name = name.copy(alloc)?;
    let ty = copier.copy_alias_type(alloc, &alias.ty)?;
    let declared = Alias {
        name,
        linkage: alias.linkage,
        ty,
        target: None,
    };
    let id = add_alias(into, declared)?;
    Ok(id)
}

/// Declares a symbol that is defined there, one of its entries, under its new name, and gives its id.
pub(crate) fn declare_definition(
    copiers: &[Copier],
    alloc: Global,
    parts: &[Checked],
    into: &mut Builder,
    home: EntryId,
    ids: &[EntryId],
    name: &Name,
) -> Result<GlobalId, AllocError>
    requires types { HaveTypes parts.now into.old.arena copiers.now }
    requires entry { IsEntryId parts.now home }
    requires known { All (IsEntryId parts.now) ids.now }
    requires room { HasRoom into.old.arena (definition_of parts.now home ids.now name.now) }
    ensures { IfOk result (IsDeclared parts.now into.old.arena into.new.arena copiers.now (definition_of parts.now home ids.now name.now)) }
{
    match home.kind {
        SymbolKind::Variable => { declare_variable(copiers, alloc, parts, into, home, ids, name) }
        SymbolKind::Function => declare_function(copiers, alloc, parts, into, home, name),
        SymbolKind::Alias => declare_alias(copiers, alloc, parts, into, home, name),
    }
}
