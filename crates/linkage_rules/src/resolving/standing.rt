//! Where variables and functions stand.
ghost use Rattle.std.specs.Prelude.{◌≡◌, ◌+◌, filter, IfOk};
ghost use Rattle.std.specs.Int.{next_multiple_of};
ghost use Rattle.std.specs.Option.{option_map};
ghost use Rattle.linkage_rules.specs.Grouped.{kind_of, same_kind};
ghost use Rattle.linkage_rules.specs.Ids.{modules};
ghost use Rattle.linkage_rules.specs.Resolved.{AreBindings};
ghost use Rattle.linkage_rules.specs.Symbols.{symbols};
ghost use Rattle.linkage_rules.specs.Resolving.Places.{ArePlaced, ArePlaces, clamped, room_told, rows_among, variable_room};

use crate::resolving::Room;
use crate::resolving::room::room_of;
use crate::{Bindings, FIRST_ADDRESS, GAP, Symbol, SymbolKind, SymbolList};
use ir_base::ItemList;
use module_arena::Checked;
use std::alloc::{AllocError, Global};
use std::marker::Model;

/// A variable that lies in memory.
#[derive(Drop)]
pub struct PlacedVariable {
    /// What it is.
    pub symbol: Symbol,
    /// What it needs.
    pub room: Room,
    /// Its first byte; 2^64 - 1 where it lies further on.
    pub address: u64,
}

/// The variables that lie in memory, in the order of symbols.
pub type PlacedVariableList = ItemList<PlacedVariable>;

/// The variables that lie in memory, and the functions, each in the order of symbols.
#[derive(Drop)]
pub struct Places {
    variables: PlacedVariableList,
    functions: SymbolList,
}

impl Model for Places {
    ghost use Rattle.linkage_rules.specs.Resolving.Places.{PlacesTold};

    ghost Value = { PlacesTold };

    ghost view = { λ p. record { variables = p.variables; functions = p.functions } };
}

impl Places {
    /// The variables that are defined, with their rooms and addresses, in the order of symbols.
    pub fn variables(&self) -> &PlacedVariableList
        ensures { result.now ≡ self.now.variables }
    {
        &self.variables
    }

    /// The function symbols in their order. The number n of each, counted from 0, gives its address, 2^62 + 16 n.
    pub fn functions(&self) -> &SymbolList
        ensures { result.now ≡ self.now.functions }
    {
        &self.functions
    }
}

/// A number rounded up to a multiple of an alignment; 2^64 - 1 where it is more.
fn rounded(number: u64, alignment: u32) -> u64
    ensures { result ≡ clamped (next_multiple_of number alignment) }
{
    // Each number is a multiple of no alignment.
    if alignment == 0 {
        return number;
    }
    match number.checked_next_multiple_of(alignment as u64) {
        Some(multiple) => multiple,
        None => u64::MAX,
    }
}

/// Where the next variable can lie: the gap behind one of that many bytes; 2^64 - 1 where it is more.
fn next_behind(address: u64, size: u64) -> u64
    ensures { result ≡ clamped (address + size + GAP) }
{
    address.saturating_add(size).saturating_add(GAP)
}

/// What a variable needs in memory; None where the symbol is no variable, or no part defines it.
fn variable_room(parts: &[Checked], bindings: &Bindings, symbol: &Symbol) -> Option<Room>
    requires { AreBindings parts.now bindings.now }
    ensures { result ≡ option_map room_told (variable_room (modules parts.now) symbol.now) }
{
    match bindings.kind(parts, symbol) {
        SymbolKind::Variable => room_of(parts, bindings, symbol),
        SymbolKind::Function | SymbolKind::Alias => None,
    }
}

/// Those of some symbols that are variables and defined, from address 65,536 on.
fn placed_variables(
    alloc: Global,
    parts: &[Checked],
    bindings: &Bindings,
    symbols: &[Symbol],
) -> Result<PlacedVariableList, AllocError>
    requires { AreBindings parts.now bindings.now }
    ensures { IfOk result (ArePlaced (rows_among (modules parts.now) symbols.now)) }
{
    let mut variables = ItemList::new(alloc);
    let mut next = FIRST_ADDRESS;
    for symbol in symbols {
        if let Some(room) = variable_room(parts, bindings, symbol) {
            let address = rounded(next, room.alignment);
            next = next_behind(address, room.size);
            let symbol = symbol.copy(alloc)?;
            variables.push(PlacedVariable {
                symbol,
                room,
                address,
            })?;
        }
    }
    Ok(variables)
}

/// Those of some symbols that are functions.
fn functions_among(
    alloc: Global,
    parts: &[Checked],
    bindings: &Bindings,
    symbols: &[Symbol],
) -> Result<SymbolList, AllocError>
    requires { AreBindings parts.now bindings.now }
    ensures { IfOk result (λ functions. functions ≡ filter (λ s. same_kind SymbolKind.Function (kind_of (modules parts.now) s)) symbols.now) }
{
    let mut functions = ItemList::new(alloc);
    for symbol in symbols {
        if matches!(bindings.kind(parts, symbol), SymbolKind::Function) {
            functions.push(symbol.copy(alloc)?)?;
        }
    }
    Ok(functions)
}

/// Where the variables and functions of parts stand whose symbols are resolved: variables that are defined from address
/// 65,536 on, each at the next multiple of its alignment and 16 bytes behind the one before, and functions by number. It is
/// refused for want of memory alone (LangRef, "Linkage Types").
pub fn place_symbols(
    alloc: Global,
    parts: &[Checked],
    bindings: &Bindings,
) -> Result<Places, AllocError>
    requires bindings { AreBindings parts.now bindings.now }
    requires symbols { bindings.now.symbols ≡ symbols (modules parts.now) }
    ensures { IfOk result (ArePlaces (modules parts.now)) }
{
    let symbols = bindings.symbols().as_slice();
    let variables = placed_variables(alloc, parts, bindings, symbols)?;
    let functions = functions_among(alloc, parts, bindings, symbols)?;
    Ok(Places {
        variables,
        functions,
    })
}
