//! Symbols as they are told.

use crate::telling::{add, add_escaped, add_number};
use ir_base::Name;
use linkage_rules::{Bindings, Symbol, SymbolKind};
use std::alloc::{AllocError, Global};

/// The word for a kind.
pub(crate) fn kind_word(kind: SymbolKind) -> &'static str {
    match kind {
        SymbolKind::Variable => "variable",
        SymbolKind::Function => "function",
        SymbolKind::Alias => "alias",
    }
}

/// Adds a name behind a mark.
pub(crate) fn add_name(told: &mut Vec<u8>, name: &Name) -> Result<(), AllocError> {
    add(told, " @")?;
    add_escaped(told, name.text().bytes())
}

/// Adds which part something is of.
pub(crate) fn add_part(told: &mut Vec<u8>, alloc: Global, part: u64) -> Result<(), AllocError> {
    add(told, " of part ")?;
    add_number(told, alloc, part)
}

/// The word for what a symbol is: an alias where its home is one, else what its first entry is.
fn symbol_word(bindings: &Bindings, symbol: &Symbol) -> &'static str {
    if let Some(home) = bindings.home(symbol) {
        if matches!(home.kind, SymbolKind::Alias) {
            return "alias";
        }
    }
    match bindings.entries(symbol).first() {
        Some(entry) => kind_word(entry.kind),
        None => "nothing",
    }
}

/// Adds a symbol: what it is, its name, and whose own it is.
pub(crate) fn add_symbol(
    told: &mut Vec<u8>,
    alloc: Global,
    bindings: &Bindings,
    symbol: &Symbol,
) -> Result<(), AllocError> {
    add(told, symbol_word(bindings, symbol))?;
    add_name(told, symbol.name())?;
    match symbol {
        Symbol::Local(part, _) => add_part(told, alloc, *part),
        Symbol::Shared(_) => Ok(()),
    }
}
