//! Symbols: what a name is of.
ghost use Rattle.std.specs.Prelude.{◌≡◌, IfOk};
ghost use Rattle.std.proofs.Common.{ap};
ghost use Rattle.std.specs.Cmp.{partial_equiv_from_equiv, decided};
ghost use Rattle.linkage_rules.specs.Entries.{same_symbol, symbol_name};
ghost use Rattle.linkage_rules.specs.SymbolLaws.{symbol_writes, same_symbol_decides};

use ir_base::{ItemList, Name};
use std::alloc::{AllocError, Global};
use std::hash::{Hash, Hasher};

/// What a name is of: one thing of all parts, or what one part keeps to itself.
///
/// ```
/// Symbol::Shared(name) // of `define i32 @main()`, whose name is `main`
/// Symbol::Local(1, name) // of `@a = internal global i32 7` in the second part, whose name is `a`
/// ```
#[derive(Drop)]
pub enum Symbol {
    /// A name that all parts share.
    Shared(Name),
    /// A private or internal name, and the number of its part counted from 0.
    Local(u64, Name),
}

/// What a symbol is.
#[derive(Clone, Copy)]
pub enum SymbolKind {
    /// A variable.
    Variable,
    /// A function.
    Function,
    /// An alias.
    Alias,
}

/// Some symbols, in order.
pub type SymbolList = ItemList<Symbol>;

impl Symbol {
    /// The same symbol again, with a name of its own.
    pub fn copy(&self, alloc: Global) -> Result<Symbol, AllocError>
        ensures { IfOk result (λ copy. copy ≡ self.now) }
    {
        match self {
            Symbol::Shared(name) => Ok(Symbol::Shared(name.copy(alloc)?)),
            Symbol::Local(part, name) => Ok(Symbol::Local(*part, name.copy(alloc)?)),
        }
    }

    /// The symbol's name.
    pub fn name(&self) -> &Name
        ensures { result.now ≡ symbol_name self.now }
    {
        match self {
            Symbol::Shared(name) | Symbol::Local(_, name) => name,
        }
    }
}

impl PartialEq for Symbol {
    ghost eq = { same_symbol };

    ghost laws = { partial_equiv_from_equiv (decided same_symbol same_symbol_decides) };

    fn eq(&self, other: &Symbol) -> bool {
        match self {
            Symbol::Shared(name) => matches!(other, Symbol::Shared(found) if *name == *found),
            Symbol::Local(part, name) => {
                matches!(other, Symbol::Local(place, found) if *part == *place && *name == *found)
            }
        }
    }
}

impl Eq for Symbol {
    ghost laws = { decided same_symbol same_symbol_decides };
}

impl Hash for Symbol {
    ghost hash_input = { symbol_writes };

    ghost respects_eq = { λ s t same. ap symbol_writes ((same_symbol_decides s t).0 same) };

    fn hash<H: Hasher>(&self, state: &mut H) {
        match self {
            Symbol::Shared(name) => {
                state.write_u8(0);
                name.hash(state);
            }
            Symbol::Local(part, name) => {
                state.write_u8(1);
                part.hash(state);
                name.hash(state);
            }
        }
    }
}
