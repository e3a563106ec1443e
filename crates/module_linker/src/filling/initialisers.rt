//! Initialisers of variables that are defined.
ghost use Rattle.std.specs.Prelude.{◌≡◌, All, IfOk, OnOk};
ghost use Rattle.linkage_rules.specs.Globals.{initialiser_of};
ghost use Rattle.linkage_rules.specs.Ids.{IsEntryId, modules, seen};
ghost use Rattle.module_arena.specs.Module.{Bytes};
ghost use Rattle.module_arena.specs.View.{module_of};
ghost use Rattle.module_arena.specs.declared.entry.GlobalId.TheVariants as global;
ghost use Rattle.link_rules.specs.Linked as linking;
ghost use Rattle.item_build.specs.Types.Stands.{Grows};
ghost use Rattle.module_linker.specs.Stages.Copied.{AreCopied};
ghost use Rattle.module_linker.specs.Stages.Filled.{defined_as};
ghost use Rattle.module_linker.specs.Stages.NewIds.{AllHaveNewIds};
ghost use Rattle.module_linker.specs.Stages.Definitions.{definition_of, entries_defined};
ghost use Rattle.entry_copy.specs.Initialisers.{IsInitialiser};
ghost use Rattle.module_linker.specs.Filling.Filling.{IsBare, KeepsCopied};

use crate::filling::appended::joined_initialiser;
use entry_copy::{Copier, copied_initialiser, copier_of};
use ir_tables::Linkage;
use item_build::types::Builder;
use linkage_rules::{EntryId, SymbolKind, arena_of, head_of};
use module_arena::{Checked, ConstId, VariableId};
use std::alloc::{AllocError, Global};

/// The initialiser of a variable that is defined there: of an appended one the list of all elements.
fn initialiser_of(
    copiers: &[Copier],
    alloc: Global,
    parts: &[Checked],
    into: &mut Builder,
    home: EntryId,
    ids: &[EntryId],
) -> Result<Option<ConstId>, AllocError>
    requires home { IsEntryId parts.now home }
    requires variable { home.kind ≡ SymbolKind.Variable }
    requires known { All (IsEntryId parts.now) ids.now }
    requires copied { AreCopied parts.now into.old.arena copiers.now }
    requires new_ids { AllHaveNewIds parts.now into.old.arena copiers.now }
    ensures grows { OnOk result (Grows into.old.arena into.new.arena) }
    ensures is { IfOk result (IsInitialiser into.new.arena
        (linking.joined_initialiser (modules parts.now) (seen (modules parts.now) home) (entries_defined parts.now ids.now) (initialiser_of (seen (modules parts.now) home).global))) }
{
    match head_of(parts, home).linkage {
        Linkage::Appending => {
            let joined = joined_initialiser(copiers, alloc, parts, into, ids)?;
            Ok(Some(joined))
        }
        _ => {
            let arena = arena_of(parts, home.part);
            let _good = arena.variable_count();
            let variable = arena.variable(VariableId::new(home.number));
            Ok(copied_initialiser(copier_of(copiers, home.part), variable))
        }
    }
}

/// Initialises the variable with that id, which is defined there among these entries.
pub(crate) fn initialise(
    copiers: &[Copier],
    alloc: Global,
    parts: &[Checked],
    into: &mut Builder,
    home: EntryId,
    ids: &[EntryId],
    id: VariableId,
) -> Result<(), AllocError>
    requires home { IsEntryId parts.now home }
    requires variable { home.kind ≡ SymbolKind.Variable }
    requires known { All (IsEntryId parts.now) ids.now }
    requires copied { AreCopied parts.now into.old.arena copiers.now }
    requires new_ids { AllHaveNewIds parts.now into.old.arena copiers.now }
    requires declared { (name : Bytes) × IsBare into.old.arena (global.Variable id) (definition_of parts.now home ids.now name) }
    ensures module { (name : Bytes)
        → OnOk result (module_of into.new.arena ≡ defined_as (module_of into.old.arena) (global.Variable id) (definition_of parts.now home ids.now name)) }
    ensures keeps { OnOk result (KeepsCopied into.old.arena into.new.arena) }
    ensures aliases { OnOk result (into.new.arena.aliases ≡ into.old.arena.aliases) }
{
    let value = initialiser_of(copiers, alloc, parts, into, home, ids)?;
    match value {
        Some(value) => {
            into.arena.set_initialiser(id, value);
            Ok(())
        }
        None => Ok(()),
    }
}
