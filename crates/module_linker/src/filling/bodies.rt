//! Bodies of functions that are defined.
ghost use Rattle.std.specs.Prelude.{◌≡◌, ◌<◌, length, List, OnOk};
ghost use Rattle.linkage_rules.specs.declared.entry.EntryId.{EntryId};
ghost use Rattle.module_arena.specs.Lists.{Lists};
ghost use Rattle.module_arena.specs.Module.{Bytes};
ghost use Rattle.module_arena.specs.View.{module_of};
ghost use Rattle.module_arena.specs.declared.entry.GlobalId.TheVariants as global;
ghost use Rattle.entry_copy.specs.Tables.{Tables};
ghost use Rattle.module_linker.specs.Stages.Filled.{defined_as};
ghost use Rattle.module_linker.specs.Stages.Definitions.{definition_of};
ghost use Rattle.module_linker.specs.Filling.Filling.{IsBareEntry, KeepsCopied};

use entry_copy::Copier;
use item_build::types::Builder;
use linkage_rules::{EntryId, SymbolKind};
use module_arena::{Arena, FunctionId};
use std::alloc::{AllocError, Global};

/// Gives the function with that id, which is defined there in the part of this arena, its body.
pub(crate) fn define(
    copier: &Copier,
    alloc: Global,
    arena: &Arena,
    into: &mut Builder,
    home: EntryId,
    id: FunctionId,
) -> Result<(), AllocError>
    requires function { home.kind ≡ SymbolKind.Function }
    requires number { home.number < length arena.now.functions }
    requires declared { (parts : List Lists) × (tables : List Tables) × (ids : List EntryId) × (name : Bytes) × IsBareEntry parts tables home ids name arena.now into.old.arena copier.now (global.Function id) }
    ensures module { (parts : List Lists) (tables : List Tables) (ids : List EntryId) (name : Bytes) → IsBareEntry parts tables home ids name arena.now into.old.arena copier.now (global.Function id)
        → OnOk result (module_of into.new.arena ≡ defined_as (module_of into.old.arena) (global.Function id) (definition_of parts home ids name)) }
    ensures keeps { OnOk result (KeepsCopied into.old.arena into.new.arena) }
    ensures aliases { OnOk result (into.new.arena.aliases ≡ into.old.arena.aliases) }
{
    let _good = arena.variable_count();
    let function = arena.function(FunctionId::new(home.number));
    match &function.body {
        Some(body) => {
            let copy = copier.copy_body(alloc, body)?;
            into.arena.define(id, copy);
            Ok(())
        }
        None => Ok(()),
    }
}
