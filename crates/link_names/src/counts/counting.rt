//! How many symbols there are of each kind.
ghost use Rattle.std.specs.Prelude.{◌≡◌, ◌+◌, ◌-◌, ◌^◌, ◌<◌, length, if◌then◌else◌};
ghost use Rattle.linkage_rules.specs.Grouped.{same_kind};
ghost use Rattle.linkage_rules.specs.Ids.{modules};
ghost use Rattle.linkage_rules.specs.Resolved.{AreBindings};
ghost use Rattle.linkage_rules.specs.Symbols.{alias_symbols, function_symbols, symbols, variable_symbols};
ghost use Rattle.link_names.specs.Counts.Told.{count_of};

use linkage_rules::{Bindings, Symbol, SymbolKind};
use module_arena::Checked;

/// How many symbols of some parts are variables, functions and aliases.
///
/// ```
/// SymbolCounts { variables: 1, functions: 1, aliases: 0 } // of `@a = global i32 7` and `declare void @f()`
/// ```
#[derive(Clone, Copy)]
pub struct SymbolCounts {
    pub variables: u64,
    pub functions: u64,
    pub aliases: u64,
}

impl SymbolCounts {
    /// The same counts, with one more of that kind.
    fn with_one(self, kind: SymbolKind) -> SymbolCounts
        requires { self.variables + self.functions + self.aliases < 2 ^ 64 - 1 }
        ensures variables { result.variables ≡ self.variables + (if same_kind SymbolKind.Variable kind then 1 else 0) }
        ensures functions { result.functions ≡ self.functions + (if same_kind SymbolKind.Function kind then 1 else 0) }
        ensures all { result.variables + result.functions + result.aliases ≡ self.variables + self.functions + self.aliases + 1 }
    {
        let SymbolCounts {
            variables,
            functions,
            aliases,
        } = self;
        match kind {
            SymbolKind::Variable => SymbolCounts {
                variables: variables + 1,
                functions,
                aliases,
            },
            SymbolKind::Function => SymbolCounts {
                variables,
                functions: functions + 1,
                aliases,
            },
            SymbolKind::Alias => SymbolCounts {
                variables,
                functions,
                aliases: aliases + 1,
            },
        }
    }
}

/// How many of some symbols are of each kind.
fn count_all(parts: &[Checked], bindings: &Bindings, symbols: &[Symbol]) -> SymbolCounts
    requires { AreBindings parts.now bindings.now }
    ensures variables { result.variables ≡ count_of (modules parts.now) SymbolKind.Variable symbols.now }
    ensures functions { result.functions ≡ count_of (modules parts.now) SymbolKind.Function symbols.now }
    ensures all { result.variables + result.functions + result.aliases ≡ length symbols.now }
{
    let mut counts = SymbolCounts {
        variables: 0,
        functions: 0,
        aliases: 0,
    };
    for symbol in symbols {
        counts = counts.with_one(bindings.kind(parts, symbol));
    }
    counts
}

/// How many symbols of some parts are variables, functions and aliases.
pub fn count_symbols(parts: &[Checked], bindings: &Bindings) -> SymbolCounts
    requires symbols { bindings.now.symbols ≡ symbols (modules parts.now) }
    requires bindings { AreBindings parts.now bindings.now }
    ensures variables { result.variables ≡ length (variable_symbols (modules parts.now)) }
    ensures functions { result.functions ≡ length (function_symbols (modules parts.now)) }
    ensures aliases { result.aliases ≡ length (alias_symbols (modules parts.now)) }
{
    count_all(parts, bindings, bindings.symbols().as_slice())
}
