//! All symbols, declared one after another.
ghost use Rattle.std.specs.Prelude.{◌≡◌, ◌<◌, map, length, slice_get, Some, IfOk, OnOk};
ghost use Rattle.module_arena.specs.View.{module_of};
ghost use Rattle.linkage_rules.specs.Ids.{modules};
ghost use Rattle.link_rules.specs.Carried.{IsSymbol};
ghost use Rattle.link_rules.specs.Linked.{linked};
ghost use Rattle.link_rules.specs.Rename.{renaming};
ghost use Rattle.item_build.specs.Types.Declarations.{AreUntargeted};
ghost use Rattle.module_linker.specs.Stages.Declared.{declared, ids_of};
ghost use Rattle.module_linker.specs.Stages.Ground.{HaveTypes, ground};
ghost use Rattle.module_linker.specs.Stages.Parts.{CanLink, IsResolved};
ghost use Rattle.module_linker.specs.Entries.Room.{HasRoom};
ghost use Rattle.module_linker.specs.Entries.Step.{IsDeclared};

use crate::entries::declarations::declare_undefined;
use crate::entries::definitions::declare_definition;
use entry_copy::Copier;
use ir_base::{Name, NameList};
use item_build::types::Builder;
use linkage_rules::{Bindings, EntryId, Symbol};
use module_arena::{Checked, GlobalId};
use std::alloc::{AllocError, Global};

/// The first of some entries.
fn first_of(ids: &[EntryId]) -> EntryId
    requires { 0 < length ids.now }
    ensures { slice_get ids.now 0 ≡ Some result }
{
    ids[0]
}

/// Declares a symbol under its new name: as what it is where it is defined, or else as in its first entry. It gives the new id.
fn declare_symbol(
    copiers: &[Copier],
    alloc: Global,
    parts: &[Checked],
    bindings: &Bindings,
    into: &mut Builder,
    symbol: &Symbol,
    name: &Name,
) -> Result<GlobalId, AllocError>
    requires can { CanLink (modules parts.now) }
    requires resolved { IsResolved parts.now bindings.now }
    requires symbol { IsSymbol (modules parts.now) symbol.now }
    requires types { HaveTypes parts.now into.old.arena copiers.now }
    requires room { HasRoom into.old.arena (linked (modules parts.now) (symbol.now, name.now)) }
    ensures { IfOk result (IsDeclared parts.now into.old.arena into.new.arena copiers.now (linked (modules parts.now) (symbol.now, name.now))) }
{
    let ids = bindings.entries(symbol);
    match bindings.home(symbol) {
        Some(home) => declare_definition(copiers, alloc, parts, into, home, ids, name),
        None => {
            // Each symbol has an entry.
            let first = first_of(ids);
            declare_undefined(copiers, alloc, parts, into, first, ids, name)
        }
    }
}

/// Declares the entries of the module that is made of some parts, one for each symbol, in order, under these names, and gives
/// their ids. None of them is defined yet, since initialisers and bodies may name entries that stand behind them. Only memory
/// may be wanting.
pub fn declare_symbols(
    copiers: &[Copier],
    alloc: Global,
    parts: &[Checked],
    bindings: &Bindings,
    into: &mut Builder,
    names: &NameList,
) -> Result<Vec<GlobalId>, AllocError>
    requires can { CanLink (modules parts.now) }
    requires resolved { IsResolved parts.now bindings.now }
    requires names { names.now ≡ map (λ row. row.1) (renaming (modules parts.now)) }
    requires ground { module_of into.old.arena ≡ ground (modules parts.now) }
    requires types { HaveTypes parts.now into.old.arena copiers.now }
    ensures module { OnOk result (module_of into.new.arena ≡ declared (modules parts.now)) }
    ensures types { OnOk result (HaveTypes parts.now into.new.arena copiers.now) }
    ensures untargeted { OnOk result (AreUntargeted 0 into.new.arena) }
    ensures ids { IfOk result (λ ids. ids.items ≡ ids_of (modules parts.now)) }
{
    let symbols = bindings.symbols();
    let mut ids = Vec::new(alloc);
    'each: for index in 0..symbols.len() {
        let symbol = symbols.at(index);
        let name = names.at(index);
        let id = declare_symbol(copiers, alloc, parts, bindings, into, symbol, name)?;
        ids.push(id)?;
    }
    Ok(ids)
}
