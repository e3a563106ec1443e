//! The symbols of some parts, with their entries and where they are defined.
ghost use Rattle.std.specs.Prelude.{◌≡◌, None, IfOk, IfErr};
ghost use Rattle.linkage_rules.specs.Conflicts.{first_conflict};
ghost use Rattle.linkage_rules.specs.Grouped.{group_in, home_in, kind_of};
ghost use Rattle.linkage_rules.specs.Ids.{modules};
ghost use Rattle.linkage_rules.specs.Resolved.{AreBindings, IsFault};
ghost use Rattle.linkage_rules.specs.Symbols.{symbols};

use crate::clash::refuse_conflict;
use crate::gather::all_ids;
use crate::groups::{Groups, aliases_among, filed, group};
use crate::homes::{home_of, homes};
use crate::order::{kind_of, ordered};
use crate::{EntryId, Symbol, SymbolFault, SymbolKind, SymbolList};
use module_arena::Checked;
use std::alloc::Global;
use std::marker::Model;

/// The symbols of some parts, with their entries and where they are defined.
#[derive(Drop)]
pub struct Bindings {
    symbols: SymbolList,
    groups: Groups,
    homes: Vec<Option<EntryId>>,
}

impl Model for Bindings {
    ghost use Rattle.std.specs.Prelude.{◌≡◌, length};
    ghost use Rattle.linkage_rules.specs.Resolved.{Resolved};

    ghost Value = { Resolved };

    ghost view = { λ b. record { symbols = b.symbols; groups = b.groups.entries; homes = b.homes.items } };

    ghost invariant = { λ b. length b.homes.items ≡ length b.groups.entries };
}

impl Bindings {
    /// The symbols: variables, then functions, each in the order of first entry, part by part, then aliases in the order
    /// of first alias (LangRef, "Linkage Types").
    pub fn symbols(&self) -> &SymbolList
        ensures { result.now ≡ self.now.symbols }
    {
        &self.symbols
    }

    /// The entries of a symbol, part by part; of any other symbol none.
    pub fn entries(&self, symbol: &Symbol) -> &[EntryId]
        ensures { result.now ≡ group_in self.now.groups symbol.now }
    {
        group(&self.groups, symbol)
    }

    /// Where a symbol is defined: the definition of greatest rank, among commons the largest, then the first. Of an
    /// appended symbol it is the first (LangRef, "Linkage Types"). None exactly where no part defines it.
    pub fn home(&self, symbol: &Symbol) -> Option<EntryId>
        ensures { result ≡ home_in self.now.groups self.now.homes symbol.now }
    {
        home_of(&self.groups, &self.homes, symbol)
    }

    /// What a symbol is: an alias where it is defined by one, else what its first entry is.
    pub fn kind(&self, parts: &[Checked], symbol: &Symbol) -> SymbolKind
        requires { AreBindings parts.now self.now }
        ensures { result ≡ kind_of (modules parts.now) symbol.now }
    {
        kind_of(parts, &self.groups, &self.homes, symbol)
    }
}

/// Resolves the symbols of parts that are linked, or run together. Parts are refused with their first conflict: the
/// first in symbol order, then the least kind, then the least pair of parts (LangRef, "Linkage Types"), or memory ran out.
pub fn resolve_symbols(alloc: Global, parts: &[Checked]) -> Result<Bindings, SymbolFault>
    ensures agree { IfOk result (λ _. first_conflict (modules parts.now) ≡ None) }
    ensures symbols { IfOk result (λ b. b.symbols ≡ symbols (modules parts.now)) }
    ensures bindings { IfOk result (AreBindings parts.now) }
    ensures fault { IfErr result (IsFault (modules parts.now)) }
{
    let ids = all_ids(alloc, parts)?;
    let groups = filed(alloc, parts, &ids)?;
    let homes = homes(alloc, parts, &groups)?;
    let found = aliases_among(alloc, parts, &ids)?;
    let aliases = filed(alloc, parts, &found)?;
    let symbols = ordered(alloc, parts, &groups, &homes, &aliases)?;
    refuse_conflict(alloc, parts, &groups, symbols.as_slice())?;
    Ok(Bindings {
        symbols,
        groups,
        homes,
    })
}
