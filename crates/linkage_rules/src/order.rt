//! The symbols in their order: variables and functions by first entry, then aliases by first alias.
ghost use Rattle.std.specs.Prelude.{◌≡◌, [], ◌∷◌, ◌++◌, filter, length, map, false, All, IfOk, OnOk, if◌then◌else◌};
ghost use Rattle.std.specs.Option.{option_map, option_map_or};
ghost use Rattle.indexmap.specs.IndexMap.{keys, index_map_len};
ghost use Rattle.linkage_rules.specs.Globals.{is_alias, is_variable};
ghost use Rattle.linkage_rules.specs.Ids.{IsEntryId, modules, seen};
ghost use Rattle.linkage_rules.specs.Lists.{first};
ghost use Rattle.linkage_rules.specs.Grouped.{AreGroups, AreHomes, IsHome, kind_of, same_kind, AreAliasGroups};
ghost use Rattle.linkage_rules.specs.Symbols.{symbols};

use crate::entry::head_of;
use crate::groups::{Groups, group, symbol_at};
use crate::homes::home_of;
use crate::{EntryId, Symbol, SymbolKind, SymbolList};
use ir_base::ItemList;
use module_arena::Checked;
use std::alloc::{AllocError, Global};

/// Whether a home is an alias.
fn is_alias(parts: &[Checked], home: Option<EntryId>) -> bool
    requires { IsHome parts.now home }
    ensures { result ≡ option_map_or (λ e. is_alias e.global) (option_map (seen (modules parts.now)) home) false }
{
    match home {
        Some(id) => head_of(parts, id).alias,
        None => false,
    }
}

/// Whether the first of the entries is a variable.
fn begins_as_variable(parts: &[Checked], ids: &[EntryId]) -> bool
    requires { All (IsEntryId parts.now) ids.now }
    ensures { result ≡ option_map_or (λ e. is_variable e.global) (first (map (seen (modules parts.now)) ids.now)) false }
{
    match ids.first() {
        Some(id) => head_of(parts, *id).variable,
        None => false,
    }
}

/// An alias, or else a variable or a function.
fn kind_from(is_alias: bool, is_variable: bool) -> SymbolKind
    ensures { result ≡ (if is_alias then SymbolKind.Alias else (if is_variable then SymbolKind.Variable else SymbolKind.Function)) }
{
    if is_alias {
        SymbolKind::Alias
    } else if is_variable {
        SymbolKind::Variable
    } else {
        SymbolKind::Function
    }
}

/// What a symbol is: an alias where its home is one, else what its first entry is.
pub(crate) fn kind_of(
    parts: &[Checked],
    groups: &Groups,
    homes: &[Option<EntryId>],
    symbol: &Symbol,
) -> SymbolKind
    requires groups { AreGroups parts.now groups.now.entries }
    requires homes { AreHomes parts.now (keys groups.now) homes.now }
    ensures { result ≡ kind_of (modules parts.now) symbol.now }
{
    let is_alias = is_alias(parts, home_of(groups, homes, symbol));
    let is_variable = begins_as_variable(parts, group(groups, symbol));
    kind_from(is_alias, is_variable)
}

/// What each of the keys is.
fn kinds_of(
    alloc: Global,
    parts: &[Checked],
    groups: &Groups,
    homes: &[Option<EntryId>],
    among: &Groups,
) -> Result<Vec<SymbolKind>, AllocError>
    requires groups { AreGroups parts.now groups.now.entries }
    requires homes { AreHomes parts.now (keys groups.now) homes.now }
    ensures len { IfOk result (λ kinds. length kinds.items ≡ index_map_len among.now) }
    ensures kinds { IfOk result (λ kinds. kinds.items ≡ map (kind_of (modules parts.now)) (keys among.now)) }
{
    let count = among.len();
    let mut kinds = Vec::with_capacity(alloc, count)?;
    for index in 0..count {
        let symbol = symbol_at(among, index);
        kinds.push(kind_of(parts, groups, homes, symbol))?;
    }
    Ok(kinds)
}

/// Whether two kinds are one.
fn is_same(kind: SymbolKind, other: SymbolKind) -> bool
    ensures { result ≡ same_kind kind other }
{
    match kind {
        SymbolKind::Variable => matches!(other, SymbolKind::Variable),
        SymbolKind::Function => matches!(other, SymbolKind::Function),
        SymbolKind::Alias => matches!(other, SymbolKind::Alias),
    }
}

/// Adds a symbol, if it is to be kept.
fn push_if(
    alloc: Global,
    is_kept: bool,
    symbol: &Symbol,
    symbols: &mut SymbolList,
) -> Result<(), AllocError>
    ensures { OnOk result (symbols.new ≡ symbols.old ++ (if is_kept then symbol.now ∷ [] else [])) }
{
    if is_kept {
        symbols.push(symbol.copy(alloc)?)?;
    }
    Ok(())
}

/// Adds those of the keys that are of one kind, where it is told of each what it is.
fn push_kind(
    alloc: Global,
    among: &Groups,
    kinds: &[SymbolKind],
    kind: SymbolKind,
    symbols: &mut SymbolList,
) -> Result<(), AllocError>
    requires { length kinds.now ≡ index_map_len among.now }
    ensures { OnOk result ((known : Symbol → SymbolKind) → kinds.now ≡ map known (keys among.now)
        → symbols.new ≡ symbols.old ++ filter (λ s. same_kind kind (known s)) (keys among.now)) }
{
    let count = among.len();
    for index in 0..count {
        let symbol = symbol_at(among, index);
        let is_kept = is_same(kind, kinds[index]);
        push_if(alloc, is_kept, symbol, symbols)?;
    }
    Ok(())
}

/// All symbols in their order.
pub(crate) fn ordered(
    alloc: Global,
    parts: &[Checked],
    groups: &Groups,
    homes: &[Option<EntryId>],
    aliases: &Groups,
) -> Result<SymbolList, AllocError>
    requires groups { AreGroups parts.now groups.now.entries }
    requires homes { AreHomes parts.now (keys groups.now) homes.now }
    requires aliases { AreAliasGroups parts.now aliases.now.entries }
    ensures { IfOk result (λ all. all ≡ symbols (modules parts.now)) }
{
    let mut all = ItemList::new(alloc);
    let kinds = kinds_of(alloc, parts, groups, homes, groups)?;
    let own = kinds.as_slice();
    push_kind(alloc, groups, own, SymbolKind::Variable, &mut all)?;
    push_kind(alloc, groups, own, SymbolKind::Function, &mut all)?;
    let alias_kinds = kinds_of(alloc, parts, groups, homes, aliases)?;
    let others = alias_kinds.as_slice();
    push_kind(alloc, aliases, others, SymbolKind::Alias, &mut all)?;
    Ok(all)
}
