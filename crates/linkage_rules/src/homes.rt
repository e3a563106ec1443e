//! Which of a symbol's definitions counts.
ghost use Rattle.std.specs.Prelude.{◌≡◌, ◌<◌, length, map, slice_get, true, All, Some, IfOk};
ghost use Rattle.std.specs.Option.{option_map};
ghost use Rattle.linkage_rules.specs.Entries.{symbol_of};
ghost use Rattle.linkage_rules.specs.Globals.{linkage_of};
ghost use Rattle.linkage_rules.specs.Linkages as linkages;
ghost use Rattle.linkage_rules.specs.Winner as winner;
ghost use Rattle.linkage_rules.specs.Ids.{IsEntryId, modules, seen};
ghost use Rattle.linkage_rules.specs.Grouped.{AreGroups, AreHomes, IsHome, better_of, home_among, home_in};
ghost use Rattle.indexmap.specs.IndexMap.{keys};

use crate::entry::{arena_of, head_of, is_definition};
use crate::groups::{Groups, group, symbol_at};
use crate::linkage::rank;
use crate::{EntryId, Symbol, SymbolKind};
use ir_tables::Linkage;
use module_arena::{Checked, VariableId};
use std::alloc::{AllocError, Global};

/// The bytes of a common definition.
fn common_size(parts: &[Checked], id: EntryId) -> u64
    requires entry { IsEntryId parts.now id }
    requires definition { winner.is_definition (seen (modules parts.now) id) ≡ true }
    ensures { result ≡ winner.bytes_of (modules parts.now) id.part (seen (modules parts.now) id).global }
{
    let arena = arena_of(parts, id.part);
    // The types of the variables of an arena are types of the arena.
    let _count = arena.variable_count();
    match id.kind {
        SymbolKind::Variable => {
            let variable = arena.variable(VariableId::new(id.number));
            match arena.types().layout(variable.ty) {
                Some(layout) => layout.size,
                None => 0,
            }
        }
        SymbolKind::Function | SymbolKind::Alias => 0,
    }
}

/// Whether the later of two definitions takes the place of the earlier.
fn gives_way(parts: &[Checked], earlier: EntryId, later: EntryId) -> bool
    requires earlier { IsHome parts.now (Some earlier) }
    requires later { IsHome parts.now (Some later) }
    ensures { result ≡ winner.gives_way (modules parts.now) (seen (modules parts.now) earlier) (seen (modules parts.now) later) }
{
    let (before, after) = (
        head_of(parts, earlier).linkage,
        head_of(parts, later).linkage,
    );
    if rank(before) < rank(after) {
        return true;
    }
    if !matches!(before, Linkage::Common) || !matches!(after, Linkage::Common) {
        return false;
    }
    common_size(parts, earlier) < common_size(parts, later)
}

/// The better of an entry and what is best behind it; an entry that is no definition changes nothing.
fn better(parts: &[Checked], id: EntryId, behind: Option<EntryId>) -> Option<EntryId>
    requires entry { IsEntryId parts.now id }
    requires behind { IsHome parts.now behind }
    ensures home { IsHome parts.now result }
    ensures better { option_map (seen (modules parts.now)) result
        ≡ better_of (modules parts.now) (seen (modules parts.now) id) (option_map (seen (modules parts.now)) behind) }
{
    if !is_definition(parts, id) {
        return behind;
    }
    match behind {
        Some(later) => {
            if gives_way(parts, id, later) {
                Some(later)
            } else {
                Some(id)
            }
        }
        None => Some(id),
    }
}

/// The best of the definitions among some entries.
pub(crate) fn home_among(parts: &[Checked], ids: &[EntryId]) -> Option<EntryId>
    requires { All (IsEntryId parts.now) ids.now }
    ensures home { IsHome parts.now result }
    ensures best { option_map (seen (modules parts.now)) result ≡ home_among (modules parts.now) ids.now }
{
    let mut best = None;
    let mut index = ids.len();
    'back: while index > 0 {
        index -= 1;
        best = better(parts, ids[index], best);
    }
    best
}

/// The home of each symbol.
pub(crate) fn homes(
    alloc: Global,
    parts: &[Checked],
    groups: &Groups,
) -> Result<Vec<Option<EntryId>>, AllocError>
    requires { AreGroups parts.now groups.now.entries }
    ensures { IfOk result (λ homes. AreHomes parts.now (keys groups.now) homes.items) }
{
    let mut homes = Vec::new(alloc);
    for index in 0..groups.len() {
        let symbol = symbol_at(groups, index);
        homes.push(home_among(parts, group(groups, symbol)))?;
    }
    Ok(homes)
}

/// The home of a symbol.
pub(crate) fn home_of(
    groups: &Groups,
    homes: &[Option<EntryId>],
    symbol: &Symbol,
) -> Option<EntryId>
    requires { length homes.now ≡ length (keys groups.now) }
    ensures { result ≡ home_in groups.now.entries homes.now symbol.now }
{
    let index = groups.get_index_of(symbol)?;
    homes[index]
}
