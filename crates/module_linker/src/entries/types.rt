//! Types and alignments of variables that are defined.
ghost use Rattle.std.specs.Prelude.{◌≡◌, length, true, nat_le, if◌then◌else◌, All, IfOk, OnOk};
ghost use Rattle.type_table.specs.Types.{structs};
ghost use Rattle.module_arena.specs.WellFormed.{is_good_type};
ghost use Rattle.linkage_rules.specs.Ids.{IsEntryId, modules, seen};
ghost use Rattle.linkage_rules.specs.Addresses as addresses;
ghost use Rattle.link_rules.specs.Linked as linking;
ghost use Rattle.item_build.specs.Types.Stands.{Grows, IsType};
ghost use Rattle.module_linker.specs.Stages.Ground.{HaveTypes};
ghost use Rattle.module_linker.specs.Entries.Definitions.{entries_defined, joined_of};

use entry_copy::{Copier, copier_of};
use ir_tables::Linkage;
use item_build::types::Builder;
use linkage_rules::resolving::{greatest_common, greatest_stated, is_common, joined_length};
use linkage_rules::{EntryId, SymbolKind, arena_of, element_of, head_of};
use module_arena::{Checked, VariableId};
use std::alloc::{AllocError, Global};
use type_table::{IrType, TypeId};

/// The new id of the type of a variable that is defined there: of an appended one that of an array of the elements of all
/// definitions.
pub(crate) fn joined_type(
    copiers: &[Copier],
    alloc: Global,
    parts: &[Checked],
    into: &mut Builder,
    home: EntryId,
    ids: &[EntryId],
) -> Result<TypeId, AllocError>
    requires types { HaveTypes parts.now into.old.arena copiers.now }
    requires entry { IsEntryId parts.now home }
    requires known { All (IsEntryId parts.now) ids.now }
    requires variable { home.kind ≡ SymbolKind.Variable }
    requires good { is_good_type (structs into.old.arena.table) (joined_of parts.now home ids.now) ≡ true }
    ensures grows { OnOk result (Grows into.old.arena into.new.arena) }
    ensures is { IfOk result (λ id. IsType into.new.arena id (joined_of parts.now home ids.now)) }
{
    let arena = arena_of(parts, home.part);
    // The types of the variables of an arena are types of the arena, and so are the parts of these.
    let _good = arena.variable_count();
    let copier = copier_of(copiers, home.part);
    match head_of(parts, home).linkage {
        Linkage::Appending => {
            let element = copier.new_type(element_of(arena, home.number));
            let length = joined_length(parts, ids);
            let id = into.keep_type(alloc, IrType::Array(length, element))?;
            Ok(id)
        }
        _ => {
            let variable = arena.variable(VariableId::new(home.number));
            Ok(copier.new_type(variable.ty))
        }
    }
}

/// How many of some entries are common definitions.
fn common_count(parts: &[Checked], ids: &[EntryId]) -> usize
    requires { All (IsEntryId parts.now) ids.now }
    ensures { result ≡ length (addresses.commons (entries_defined parts.now ids.now)) }
{
    let mut count = 0;
    'ids: for id in ids {
        if is_common(parts, *id) {
            count += 1;
        }
    }
    count
}

/// The alignment in bytes of a common that is taken: the greatest of all where there are several, and else its own.
fn common_alignment(parts: &[Checked], ids: &[EntryId], own: Option<u32>) -> Option<u32>
    requires { All (IsEntryId parts.now) ids.now }
    ensures { result ≡ (if nat_le 2 (length (addresses.commons (entries_defined parts.now ids.now))) then addresses.greatest_common (modules parts.now) (entries_defined parts.now ids.now) else own) }
{
    if common_count(parts, ids) >= 2 {
        greatest_common(parts, ids)
    } else {
        own
    }
}

/// The alignment in bytes of a variable that is defined there: of an appended one the greatest that is stated, of one of
/// several commons the greatest of all, and else its own.
pub(crate) fn joined_alignment(parts: &[Checked], home: EntryId, ids: &[EntryId]) -> Option<u32>
    requires entry { IsEntryId parts.now home }
    requires known { All (IsEntryId parts.now) ids.now }
    requires variable { home.kind ≡ SymbolKind.Variable }
    ensures { result ≡ linking.joined_alignment (modules parts.now) (seen (modules parts.now) home) (entries_defined parts.now ids.now) }
{
    let arena = arena_of(parts, home.part);
    let variable = arena.variable(VariableId::new(home.number));
    match head_of(parts, home).linkage {
        Linkage::Appending => greatest_stated(parts, ids),
        Linkage::Common => common_alignment(parts, ids, variable.alignment),
        _ => variable.alignment,
    }
}
