//! Entries under their symbols.
ghost use Rattle.std.specs.Prelude.{◌≡◌, ◌<◌, [], ◌∷◌, filter, slice_get, All, Some, IfOk, OnOk};
ghost use Rattle.indexmap.specs.IndexMap.{keys, index_map_len};
ghost use Rattle.linkage_rules.specs.Globals as globals;
ghost use Rattle.linkage_rules.specs.Grouped.{IsFiled, group_in, with_filed, key_in};
ghost use Rattle.linkage_rules.specs.Ids.{IsEntryId, modules, seen};

use crate::entry::{head_of, key};
use crate::{EntryId, EntryList, Symbol};
use indexmap::IndexMap;
use ir_base::ItemList;
use module_arena::Checked;
use std::alloc::{AllocError, Global};

/// Symbols with their entries, in the order of first entry.
pub(crate) type Groups = IndexMap<Symbol, EntryList>;

/// An entry alone, with no room for others: most symbols have one or two.
fn alone(alloc: Global, id: EntryId) -> Result<EntryList, AllocError>
    ensures { IfOk result (λ ids. ids ≡ id ∷ []) }
{
    let mut ids = Vec::with_capacity(alloc, 1)?;
    ids.push(id)?;
    Ok(ItemList::from_vec(ids))
}

/// Puts an entry under its symbol.
fn file(alloc: Global, groups: &mut Groups, symbol: Symbol, id: EntryId) -> Result<(), AllocError>
    ensures { OnOk result (groups.new.entries ≡ with_filed groups.old.entries symbol id) }
{
    if let Some(index) = groups.get_index_of(&symbol) {
        groups[index].push(id)?;
        return Ok(());
    }
    groups.insert(symbol, alone(alloc, id)?)?;
    Ok(())
}

/// Each entry under its symbol.
pub(crate) fn filed(alloc: Global, parts: &[Checked], ids: &[EntryId]) -> Result<Groups, AllocError>
    requires { All (IsEntryId parts.now) ids.now }
    ensures { IfOk result (λ groups. IsFiled (key_in (modules parts.now)) ids.now groups.entries) }
{
    let mut groups = IndexMap::new(alloc);
    for id in ids {
        let symbol = key(alloc, parts, *id)?;
        file(alloc, &mut groups, symbol, *id)?;
    }
    Ok(groups)
}

/// The entries under a symbol.
pub(crate) fn group<'a>(groups: &'a Groups, symbol: &Symbol) -> &'a [EntryId]
    ensures { result.now ≡ group_in groups.now.entries symbol.now }
{
    match groups.get(symbol) {
        Some(ids) => ids.as_slice(),
        None => &[],
    }
}

/// The symbol at a place.
pub(crate) fn symbol_at(groups: &Groups, index: usize) -> &Symbol
    requires { index < index_map_len groups.now }
    ensures { slice_get (keys groups.now) index ≡ Some result.now }
{
    let (symbol, _) = groups.as_slice().get_index(index).unwrap();
    symbol
}

/// Those of some entries that are aliases.
pub(crate) fn aliases_among(
    alloc: Global,
    parts: &[Checked],
    ids: &[EntryId],
) -> Result<Vec<EntryId>, AllocError>
    requires { All (IsEntryId parts.now) ids.now }
    ensures { IfOk result (λ found. found.items ≡ filter (λ id. globals.is_alias (seen (modules parts.now) id).global) ids.now) }
{
    let mut found = Vec::new(alloc);
    for id in ids {
        if head_of(parts, *id).alias {
            found.push(*id)?;
        }
    }
    Ok(found)
}
