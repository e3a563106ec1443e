//! Symbols that no part defines: whether each part that has one can do without it.
ghost use Rattle.std.specs.Prelude.{◌≡◌, map, All, IfOk};
ghost use Rattle.std.specs.List.{list_all};
ghost use Rattle.linkage_rules.specs.Bind.{all_extern_weak};
ghost use Rattle.linkage_rules.specs.Entries.{entries_of};
ghost use Rattle.linkage_rules.specs.Globals.{linkage_of};
ghost use Rattle.linkage_rules.specs.Grouped.{AreGroups};
ghost use Rattle.linkage_rules.specs.Ids.{IsEntryId, modules, seen};
ghost use Rattle.linkage_rules.specs.Linkages.{is_extern_weak};
ghost use Rattle.linkage_rules.specs.Resolving.Meanings.{AreAbsent};

use crate::{Bindings, EntryId, Symbol, head_of};
use indexmap::IndexMap;
use ir_tables::Linkage;
use module_arena::Checked;
use std::alloc::{AllocError, Global};

/// Symbols, each with whether all its entries can do without a definition. They are walked once here, and not once for each
/// part that has the name.
pub(crate) type Absent = IndexMap<Symbol, bool>;

/// Whether an entry can do without a definition.
fn is_extern_weak(parts: &[Checked], id: EntryId) -> bool
    requires { IsEntryId parts.now id }
    ensures { result ≡ is_extern_weak (linkage_of (seen (modules parts.now) id).global) }
{
    matches!(head_of(parts, id).linkage, Linkage::ExternWeak)
}

/// Whether each of the entries can do without a definition, and is null where there is none (LangRef, "Linkage Types",
/// `extern_weak`).
pub fn are_extern_weak(parts: &[Checked], ids: &[EntryId]) -> bool
    requires { All (IsEntryId parts.now) ids.now }
    ensures { result ≡ list_all (λ e. is_extern_weak (linkage_of e.global)) (map (seen (modules parts.now)) ids.now) }
{
    for id in ids {
        if !is_extern_weak(parts, *id) {
            return false;
        }
    }
    true
}

/// Those of some symbols that no part defines.
pub(crate) fn absent_among(
    alloc: Global,
    parts: &[Checked],
    bindings: &Bindings,
    symbols: &[Symbol],
) -> Result<Absent, AllocError>
    requires groups { AreGroups parts.now bindings.now.groups }
    ensures { IfOk result (λ absent. AreAbsent (modules parts.now) absent.entries) }
{
    let mut absent = IndexMap::new(alloc);
    for symbol in symbols {
        if bindings.home(symbol).is_none() {
            let is_absent = are_extern_weak(parts, bindings.entries(symbol));
            absent.insert(symbol.copy(alloc)?, is_absent)?;
        }
    }
    Ok(absent)
}

/// Whether each part that has a symbol can do without it.
pub(crate) fn can_be_absent(
    parts: &[Checked],
    absent: &Absent,
    symbol: &Symbol,
    ids: &[EntryId],
) -> bool
    requires absent { AreAbsent (modules parts.now) absent.now.entries }
    requires known { All (IsEntryId parts.now) ids.now }
    requires entries { map (seen (modules parts.now)) ids.now ≡ entries_of (modules parts.now) symbol.now }
    ensures { result ≡ all_extern_weak (modules parts.now) symbol.now }
{
    match absent.get(symbol) {
        Some(is_absent) => *is_absent,
        None => are_extern_weak(parts, ids),
    }
}
