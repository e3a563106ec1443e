//! The names of symbols in the module that is made of their parts.
ghost use Rattle.std.specs.Prelude.{◌≡◌, ◌∷◌, [], map, All, IfOk, OnOk};
ghost use Rattle.std.specs.List.{list_all};
ghost use Rattle.linkage_rules.specs.Entries.{symbol_name};
ghost use Rattle.linkage_rules.specs.Globals.{name_of};
ghost use Rattle.linkage_rules.specs.Ids.{IsEntryId, modules, seen};
ghost use Rattle.linkage_rules.specs.Symbols.{symbols as all_symbols};
ghost use Rattle.link_rules.specs.Rename.{all_names, renaming, shared_names};
ghost use Rattle.link_names.specs.Naming.{HasMore, GivesName, is_shared};

use crate::Naming;
use crate::numbered::base_of;
use ir_base::{Name, NameList};
use linkage_rules::{EntryId, Symbol, all_ids, name};
use module_arena::Checked;
use std::alloc::{AllocError, Global};

/// Avoids the names of some entries.
fn avoid_names(
    alloc: Global,
    parts: &[Checked],
    ids: &[EntryId],
    naming: &mut Naming,
) -> Result<(), AllocError>
    requires { All (IsEntryId parts.now) ids.now }
    ensures avoided { OnOk result (HasMore naming.old.avoided (map (λ id. name_of (seen (modules parts.now) id).global) ids.now) naming.new.avoided) }
    ensures given { naming.new.given ≡ naming.old.given }
{
    for id in ids {
        naming.avoid(alloc, name(parts, *id))?;
    }
    Ok(())
}

/// Avoids the names of all entries.
fn avoid_all(alloc: Global, parts: &[Checked], naming: &mut Naming) -> Result<(), AllocError>
    ensures avoided { OnOk result (HasMore naming.old.avoided (all_names (modules parts.now)) naming.new.avoided) }
    ensures given { naming.new.given ≡ naming.old.given }
{
    let ids = all_ids(alloc, parts)?;
    avoid_names(alloc, parts, ids.as_slice(), naming)
}

/// Gives the name of a symbol that all parts share.
fn give_if_shared(alloc: Global, symbol: &Symbol, naming: &mut Naming) -> Result<(), AllocError>
    ensures given { OnOk result (HasMore naming.old.given (shared_names (symbol.now ∷ [])) naming.new.given) }
    ensures avoided { naming.new.avoided ≡ naming.old.avoided }
{
    match symbol {
        Symbol::Shared(name) => naming.give(alloc, name),
        Symbol::Local(_, _) => Ok(()),
    }
}

/// Gives the names that all parts share.
fn give_shared(alloc: Global, symbols: &[Symbol], naming: &mut Naming) -> Result<(), AllocError>
    ensures given { OnOk result (HasMore naming.old.given (shared_names symbols.now) naming.new.given) }
    ensures avoided { naming.new.avoided ≡ naming.old.avoided }
{
    for symbol in symbols {
        give_if_shared(alloc, symbol, naming)?;
    }
    Ok(())
}

/// The name of the next symbol: a shared one is given already.
fn name_symbol(alloc: Global, symbol: &Symbol, naming: &mut Naming) -> Result<Name, AllocError>
    ensures name { IfOk result (λ new. GivesName naming.old symbol.now new naming.new) }
    ensures avoided { naming.new.avoided ≡ naming.old.avoided }
{
    match symbol {
        Symbol::Shared(name) => name.copy(alloc),
        Symbol::Local(_, name) => {
            let base = base_of(alloc, name)?;
            naming.name_for(alloc, name, &base)
        }
    }
}

/// What the symbols of some parts are called, where each of a part's own may have to give way to another.
fn names_apart(alloc: Global, parts: &[Checked], symbols: &[Symbol]) -> Result<NameList, AllocError>
    requires { symbols.now ≡ all_symbols (modules parts.now) }
    ensures { IfOk result (λ names. names ≡ map (λ row. row.1) (renaming (modules parts.now))) }
{
    let mut naming = Naming::new(alloc);
    avoid_all(alloc, parts, &mut naming)?;
    give_shared(alloc, symbols, &mut naming)?;
    let mut names = NameList::new(alloc);
    for symbol in symbols {
        let name = name_symbol(alloc, symbol, &mut naming)?;
        names.push(name)?;
    }
    Ok(names)
}

/// Whether all parts share the symbol.
fn is_shared(symbol: &Symbol) -> bool
    ensures { result ≡ is_shared symbol.now }
{
    match symbol {
        Symbol::Shared(_) => true,
        Symbol::Local(_, _) => false,
    }
}

/// Whether all parts share each of these symbols.
fn are_shared(symbols: &[Symbol]) -> bool
    ensures { result ≡ list_all is_shared symbols.now }
{
    for symbol in symbols {
        if !is_shared(symbol) {
            return false;
        }
    }
    true
}

/// The names of some symbols.
fn own_names(alloc: Global, symbols: &[Symbol]) -> Result<NameList, AllocError>
    ensures { IfOk result (λ names. names ≡ map symbol_name symbols.now) }
{
    let mut names = Vec::with_capacity(alloc, symbols.len())?;
    for symbol in symbols {
        let name = symbol.name().copy(alloc)?;
        names.push(name)?;
    }
    Ok(NameList::from_vec(names))
}

/// What the symbols of some parts are called in the module that is made of them, in their order. A name that all parts share
/// stays. A part's own stays where no other symbol has it; else it gets a dot and the least number from 1 on that makes it a
/// name of no entry. Only memory may be wanting.
pub fn new_names(
    alloc: Global,
    parts: &[Checked],
    symbols: &[Symbol],
) -> Result<NameList, AllocError>
    requires { symbols.now ≡ all_symbols (modules parts.now) }
    ensures { IfOk result (λ names. names ≡ map (λ row. row.1) (renaming (modules parts.now))) }
{
    // Where no part has a symbol of its own, no name gives way.
    if are_shared(symbols) {
        own_names(alloc, symbols)
    } else {
        names_apart(alloc, parts, symbols)
    }
}
