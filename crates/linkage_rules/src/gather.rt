//! The ids of all entries of some parts.
ghost use Rattle.std.specs.Prelude.{◌≡◌, ◌++◌, length, All, OnOk, IfOk};
ghost use Rattle.module_arena.specs.Sound.{IsSound};
ghost use Rattle.linkage_rules.specs.Grouped.{numbered, ids_of, AreIds};

use crate::entry::arena_of;
use crate::{EntryId, SymbolKind};
use module_arena::{Arena, Checked};
use std::alloc::{AllocError, Global};

/// Adds so many ids of one kind.
fn push_kind(
    ids: &mut Vec<EntryId>,
    part: u64,
    kind: SymbolKind,
    count: u32,
) -> Result<(), AllocError>
    ensures { OnOk result (ids.new.items ≡ ids.old.items ++ numbered part kind count) }
{
    for number in 0..count {
        ids.push(EntryId { part, kind, number })?;
    }
    Ok(())
}

/// Adds the ids of a part's entries: variables, functions, aliases, each in the order of their making. The part is told by
/// its number, counted from 0.
pub fn push_part(ids: &mut Vec<EntryId>, part: u64, arena: &Arena) -> Result<(), AllocError>
    ensures { OnOk result (ids.new.items ≡ ids.old.items ++ ids_of part arena.now) }
{
    push_kind(ids, part, SymbolKind::Variable, arena.variable_count())?;
    push_kind(ids, part, SymbolKind::Function, arena.function_count())?;
    push_kind(ids, part, SymbolKind::Alias, arena.alias_count())
}

/// The ids of all entries, part by part.
pub fn all_ids(alloc: Global, parts: &[Checked]) -> Result<Vec<EntryId>, AllocError>
    ensures ids { IfOk result (λ ids. AreIds parts.now ids.items) }
    ensures sound { IfOk result (λ _. All IsSound parts.now) }
{
    let mut ids = Vec::new(alloc);
    for part in 0..parts.len() {
        push_part(&mut ids, part as u64, arena_of(parts, part as u64))?;
    }
    Ok(ids)
}
