//! What a name of a part means: the symbol that it is of, what is behind that symbol, and what that is.
ghost use Rattle.std.specs.Prelude.{◌≡◌, map, not, false, All, Some, IfOk};
ghost use Rattle.std.specs.Option.{option_map_or};
ghost use Rattle.linkage_rules.specs.Bind as bind;
ghost use Rattle.linkage_rules.specs.Entries.{entries_of};
ghost use Rattle.linkage_rules.specs.Globals.{linkage_of, is_variable, target_name};
ghost use Rattle.linkage_rules.specs.Ids.{IsEntryId, modules, seen};
ghost use Rattle.linkage_rules.specs.Linkages.{is_appending};
ghost use Rattle.linkage_rules.specs.Lists.{first};
ghost use Rattle.linkage_rules.specs.Resolved.{AreBindings};
ghost use Rattle.linkage_rules.specs.Resolving.Meanings.{AreAbsent, bound_view, symbol_under};

use crate::resolving::Bound;
use crate::resolving::absent::{Absent, can_be_absent};
use crate::{Bindings, EntryId, Symbol, SymbolKind, arena_of, head_of};
use ir_base::Name;
use ir_tables::Linkage;
use module_arena::{AliasId, Checked, host_row};
use std::alloc::{AllocError, Global};

/// Whether the elements of an entry are to stand behind those of other parts.
fn appends(parts: &[Checked], id: EntryId) -> bool
    requires { IsEntryId parts.now id }
    ensures { result ≡ is_appending (linkage_of (seen (modules parts.now) id).global) }
{
    matches!(head_of(parts, id).linkage, Linkage::Appending)
}

/// Whether the first of the entries is a function.
fn begins_as_function(parts: &[Checked], ids: &[EntryId]) -> bool
    requires { All (IsEntryId parts.now) ids.now }
    ensures { result ≡ option_map_or (λ e. not (is_variable e.global)) (first (map (seen (modules parts.now)) ids.now)) false }
{
    match ids.first() {
        Some(id) => !head_of(parts, *id).variable,
        None => false,
    }
}

/// What a symbol means that no part defines: the host's function, null, or nothing.
fn undefined(parts: &[Checked], symbol: Symbol, ids: &[EntryId], is_absent: bool) -> Bound
    requires absent { is_absent ≡ bind.all_extern_weak (modules parts.now) symbol }
    requires known { All (IsEntryId parts.now) ids.now }
    requires entries { map (seen (modules parts.now)) ids.now ≡ entries_of (modules parts.now) symbol }
    ensures { bound_view (modules parts.now) result ≡ Some (bind.undefined (modules parts.now) symbol) }
{
    match symbol {
        Symbol::Local(_, _) => Bound::Unresolved,
        Symbol::Shared(name) => {
            if begins_as_function(parts, ids) && host_row(name.text().bytes()).is_some() {
                return Bound::Host(name);
            }
            if is_absent {
                Bound::Null
            } else {
                Bound::Unresolved
            }
        }
    }
}

/// What a symbol means that is no alias.
fn own_meaning(parts: &[Checked], bindings: &Bindings, absent: &Absent, symbol: Symbol) -> Bound
    requires absent { AreAbsent (modules parts.now) absent.now.entries }
    requires bindings { AreBindings parts.now bindings.now }
    ensures { bound_view (modules parts.now) result ≡ Some (bind.own_meaning (modules parts.now) symbol) }
{
    let Some(id) = bindings.home(&symbol) else {
        let ids = bindings.entries(&symbol);
        let is_absent = can_be_absent(parts, absent, &symbol, ids);
        return undefined(parts, symbol, ids, is_absent);
    };
    if appends(parts, id) {
        Bound::Appended(symbol)
    } else {
        Bound::Definition(id.part, id.global())
    }
}

/// The name of what an alias is of.
fn target_of(parts: &[Checked], id: EntryId) -> &Name
    requires entry { IsEntryId parts.now id }
    requires alias { id.kind ≡ SymbolKind.Alias }
    ensures { result.now ≡ target_name (seen (modules parts.now) id).global }
{
    let arena = arena_of(parts, id.part);
    // What an alias of an arena is of is an entry of the arena.
    let _count = arena.variable_count();
    let target = arena.alias(AliasId::new(id.number)).target.unwrap();
    arena.name(target)
}

/// What a name is of in a part: that part's own symbol, where it has one.
fn symbol_named(
    alloc: Global,
    bindings: &Bindings,
    part: u64,
    name: &Name,
) -> Result<Symbol, AllocError>
    ensures { IfOk result (λ symbol. symbol ≡ symbol_under bindings.now.groups part name.now) }
{
    let local = Symbol::Local(part, name.copy(alloc)?);
    if bindings.entries(&local).is_empty() {
        Ok(Symbol::Shared(name.copy(alloc)?))
    } else {
        Ok(local)
    }
}

/// The symbol that a symbol stands for: of one that is defined by an alias that of the target, in the part of the alias; of
/// any other itself (LangRef, "Aliases").
pub fn symbol_behind(
    alloc: Global,
    parts: &[Checked],
    bindings: &Bindings,
    symbol: Symbol,
) -> Result<Symbol, AllocError>
    requires { AreBindings parts.now bindings.now }
    ensures { IfOk result (λ s. s ≡ bind.behind (modules parts.now) symbol) }
{
    let Some(id) = bindings.home(&symbol) else {
        return Ok(symbol);
    };
    match id.kind {
        SymbolKind::Alias => symbol_named(alloc, bindings, id.part, target_of(parts, id)),
        SymbolKind::Variable | SymbolKind::Function => Ok(symbol),
    }
}

/// What a name means in a part.
pub(crate) fn meaning(
    alloc: Global,
    parts: &[Checked],
    bindings: &Bindings,
    absent: &Absent,
    part: u64,
    name: &Name,
) -> Result<Bound, AllocError>
    requires absent { AreAbsent (modules parts.now) absent.now.entries }
    requires bindings { AreBindings parts.now bindings.now }
    ensures { IfOk result (λ bound. bound_view (modules parts.now) bound ≡ Some (bind.bind (modules parts.now) part name.now)) }
{
    let symbol = symbol_named(alloc, bindings, part, name)?;
    let symbol = symbol_behind(alloc, parts, bindings, symbol)?;
    Ok(own_meaning(parts, bindings, absent, symbol))
}
