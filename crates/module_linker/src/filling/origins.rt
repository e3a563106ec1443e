//! What is kept of the symbols while they are defined, without the names by which they are found.
ghost use Rattle.std.specs.Prelude.{◌≡◌, ◌<◌, length, map, slice_get, Some, IfOk};
ghost use Rattle.linkage_rules.specs.Grouped.{group_in};
ghost use Rattle.module_linker.specs.Filling.Origins.{entries_kept, origin_in};

use linkage_rules::{Bindings, EntryId, EntryList, Symbol, SymbolKind};
use std::alloc::{AllocError, Global};

/// Where a symbol is defined, and all entries of one that is defined as a variable.
#[derive(Drop)]
pub(crate) struct SymbolOrigin {
    pub(crate) home: Option<EntryId>,
    pub(crate) entries: EntryList,
}

/// The entries of a symbol with that home, where it is a variable; else none.
fn entries_kept<'a>(bindings: &'a Bindings, symbol: &Symbol, home: Option<EntryId>) -> &'a [EntryId]
    ensures { result.now ≡ entries_kept home (group_in bindings.now.groups symbol.now) }
{
    match home {
        Some(home) => match home.kind {
            SymbolKind::Variable => bindings.entries(symbol),
            SymbolKind::Function | SymbolKind::Alias => &[],
        },
        None => &[],
    }
}

/// What is kept of a symbol.
fn origin_of(
    alloc: Global,
    bindings: &Bindings,
    symbol: &Symbol,
) -> Result<SymbolOrigin, AllocError>
    ensures { IfOk result (λ origin. origin ≡ origin_in bindings.now symbol.now) }
{
    let home = bindings.home(symbol);
    let entries = Vec::from_slice(alloc, entries_kept(bindings, symbol, home))?;
    Ok(SymbolOrigin {
        home,
        entries: EntryList::from_vec(entries),
    })
}

/// What is kept of all symbols, in their order. The table by which they are found is let go.
pub(crate) fn origins_of(alloc: Global, bindings: Bindings) -> Result<Vec<SymbolOrigin>, AllocError>
    ensures { IfOk result (λ origins. origins.items ≡ map (origin_in bindings) bindings.symbols) }
{
    let symbols = bindings.symbols();
    let mut origins = Vec::with_capacity(alloc, symbols.len())?;
    for symbol in symbols.as_slice() {
        let origin = origin_of(alloc, &bindings, symbol)?;
        origins.push(origin)?;
    }
    Ok(origins)
}

/// The origin of the symbol with that number.
pub(crate) fn origin_at(origins: &[SymbolOrigin], number: usize) -> &SymbolOrigin
    requires { number < length origins.now }
    ensures { slice_get origins.now number ≡ Some result.now }
{
    &origins[number]
}
