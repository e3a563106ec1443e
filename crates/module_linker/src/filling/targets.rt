//! Targets of aliases.
ghost use Rattle.std.specs.Prelude.{◌≡◌, ◌+◌, ◌<◌, length, List};
ghost use Rattle.linkage_rules.specs.declared.entry.EntryId.{EntryId};
ghost use Rattle.module_arena.specs.Lists.{Lists};
ghost use Rattle.module_arena.specs.Module.{Bytes};
ghost use Rattle.module_arena.specs.View.{module_of};
ghost use Rattle.module_arena.specs.WellFormed.{IsWellFormed};
ghost use Rattle.module_arena.specs.declared.entry.GlobalId.TheVariants as global;
ghost use Rattle.item_build.specs.Types.Declarations.{AreUntargeted};
ghost use Rattle.entry_copy.specs.Tables.{Tables};
ghost use Rattle.module_linker.specs.Stages.Filled.{defined_as};
ghost use Rattle.module_linker.specs.Stages.Definitions.{definition_of};
ghost use Rattle.module_linker.specs.Filling.Filling.{IsBareEntry, KeepsCopied};

use entry_copy::Copier;
use item_build::types::Builder;
use linkage_rules::{EntryId, SymbolKind};
use module_arena::{AliasId, Arena};

/// Gives the alias with that id, which is defined there in the part of this arena, its target.
pub(crate) fn target(copier: &Copier, arena: &Arena, into: &mut Builder, home: EntryId, id: AliasId)
    requires alias { home.kind ≡ SymbolKind.Alias }
    requires number { home.number < length arena.now.aliases }
    requires well_formed { IsWellFormed (module_of arena.now) }
    requires untargeted { AreUntargeted id into.old.arena }
    requires declared { (parts : List Lists) × (tables : List Tables) × (ids : List EntryId) × (name : Bytes) × IsBareEntry parts tables home ids name arena.now into.old.arena copier.now (global.Alias id) }
    ensures module { (parts : List Lists) (tables : List Tables) (ids : List EntryId) (name : Bytes) → IsBareEntry parts tables home ids name arena.now into.old.arena copier.now (global.Alias id)
        → module_of into.new.arena ≡ defined_as (module_of into.old.arena) (global.Alias id) (definition_of parts home ids name) }
    ensures keeps { KeepsCopied into.old.arena into.new.arena }
    ensures untargeted { AreUntargeted (id + 1) into.new.arena }
{
    let _good = arena.variable_count();
    // A sealed module has a target for each alias, and each entry has a new id.
    let target = arena.alias(AliasId::new(home.number)).target.unwrap();
    let new = copier.new_global(target).unwrap();
    into.arena.set_target(id, new);
}
