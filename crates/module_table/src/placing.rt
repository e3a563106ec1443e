//! Where symbols stand, as it is told.
ghost use Rattle.std.specs.Prelude.{◌≡◌};
ghost use Rattle.linkage_rules.specs.Ids.{modules};
ghost use Rattle.linkage_rules.specs.Resolved.{AreBindings};
ghost use Rattle.linkage_rules.specs.Symbols.{symbols};

use crate::symbols::add_symbol;
use crate::telling::{add, add_number};
use linkage_rules::resolving::{PlacedVariable, Places, place_symbols, symbol_behind};
use linkage_rules::{Bindings, Symbol, SymbolKind};
use module_arena::Checked;
use std::alloc::{AllocError, Global};

/// The variable of a symbol, where it lies in memory.
fn placed<'a>(places: &'a Places, symbol: &Symbol) -> Option<&'a PlacedVariable> {
    for placed in places.variables().as_slice() {
        if placed.symbol == *symbol {
            return Some(placed);
        }
    }
    None
}

/// The number of a function.
fn number_of(places: &Places, symbol: &Symbol) -> Option<usize> {
    let functions = places.functions().as_slice();
    for number in 0..functions.len() {
        if functions[number] == *symbol {
            return Some(number);
        }
    }
    None
}

/// Adds where the target of an alias stands.
fn add_target(
    told: &mut Vec<u8>,
    alloc: Global,
    places: &Places,
    target: &Symbol,
) -> Result<(), AllocError> {
    if let Some(placed) = placed(places, target) {
        add(told, ": address ")?;
        return add_number(told, alloc, placed.address);
    }
    match number_of(places, target) {
        Some(number) => {
            add(told, ": number ")?;
            add_number(told, alloc, number as u64)
        }
        None => add(told, ": nowhere"),
    }
}

/// How far the lists have been walked: the variables and functions stand there in the order of symbols.
#[derive(Clone, Copy)]
struct Walked {
    variables: usize,
    functions: usize,
}

/// Adds where a variable stands and what it needs, if it is the next that lies in memory, and walks on.
fn add_variable(
    told: &mut Vec<u8>,
    alloc: Global,
    places: &Places,
    symbol: &Symbol,
    walked: Walked,
) -> Result<Walked, AllocError> {
    match places.variables().as_slice().get(walked.variables) {
        Some(placed) if placed.symbol == *symbol => {
            add(told, ": address ")?;
            add_number(told, alloc, placed.address)?;
            add(told, ", size ")?;
            add_number(told, alloc, placed.room.size)?;
            add(told, ", alignment ")?;
            add_number(told, alloc, placed.room.alignment as u64)?;
            Ok(Walked {
                variables: walked.variables.saturating_add(1),
                functions: walked.functions,
            })
        }
        _ => {
            add(told, ": nowhere")?;
            Ok(walked)
        }
    }
}

/// Adds the number of a function, if it is the next, and walks on.
fn add_function(
    told: &mut Vec<u8>,
    alloc: Global,
    places: &Places,
    symbol: &Symbol,
    walked: Walked,
) -> Result<Walked, AllocError> {
    match places.functions().as_slice().get(walked.functions) {
        Some(function) if *function == *symbol => {
            add(told, ": number ")?;
            add_number(told, alloc, walked.functions as u64)?;
            Ok(Walked {
                variables: walked.variables,
                functions: walked.functions.saturating_add(1),
            })
        }
        _ => {
            add(told, ": nowhere")?;
            Ok(walked)
        }
    }
}

/// Adds a line for each symbol: where it stands.
pub(crate) fn add_places(
    told: &mut Vec<u8>,
    alloc: Global,
    parts: &[Checked],
    bindings: &Bindings,
) -> Result<(), AllocError>
    requires bindings { AreBindings parts.now bindings.now }
    requires symbols { bindings.now.symbols ≡ symbols (modules parts.now) }
{
    let places = place_symbols(alloc, parts, bindings)?;
    let mut walked = Walked {
        variables: 0,
        functions: 0,
    };
    for symbol in bindings.symbols().as_slice() {
        add_symbol(told, alloc, bindings, symbol)?;
        match bindings.kind(parts, symbol) {
            SymbolKind::Variable => {
                walked = add_variable(told, alloc, &places, symbol, walked)?;
            }
            SymbolKind::Function => {
                walked = add_function(told, alloc, &places, symbol, walked)?;
            }
            SymbolKind::Alias => {
                let target = symbol_behind(alloc, parts, bindings, symbol.copy(alloc)?)?;
                add_target(told, alloc, &places, &target)?;
            }
        }
        add(told, "\n")?;
    }
    Ok(())
}
