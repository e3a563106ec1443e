//! Why parts cannot be linked.
use ir_base::Name;
use std::alloc::{AllocError, AllocFailed};
use thiserror::Error;

/// What is wrong with two entries of one name, in the order in which it is told.
#[derive(Clone, Copy, Debug)]
pub enum ConflictKind {
    /// Both are external definitions.
    TwoStrong,
    /// One is a function, the other a variable.
    FunctionAndVariable,
    /// One has linkage `appending`, the other not.
    AppendingAndPlain,
    /// Both are appending, with elements of unlike shape.
    ElementShape,
    /// Both are appending, and one alone is constant.
    Constness,
}

/// Why symbols were not resolved.
///
/// ```
/// // of `define void @f()` in the first and in the third part, whose name is `f`
/// SymbolFault::Conflict { kind: ConflictKind::TwoStrong, name, one: 0, other: 2 }
/// ```
#[derive(Debug, Drop, Error)]
pub enum SymbolFault {
    /// Two entries of that name are in conflict, of an earlier and of a later part, which are counted from 0.
    #[error("two parts are in conflict")]
    Conflict {
        kind: ConflictKind,
        name: Name,
        one: u64,
        other: u64,
    },
    /// There is no memory left.
    #[error("out of memory")]
    Memory,
}

impl<T: Drop> From<AllocFailed<T>> for SymbolFault {
    ghost use Rattle.std.specs.Prelude.{◌≡◌};
    ghost use Rattle.linkage_rules.specs.declared.conflict.SymbolFault.{SymbolFault};

    ghost from_gives = { λ _ fault. fault ≡ SymbolFault.Memory };

    fn from(_failed: AllocFailed<T>) -> SymbolFault {
        SymbolFault::Memory
    }
}

impl From<AllocError> for SymbolFault {
    ghost use Rattle.std.specs.Prelude.{◌≡◌};
    ghost use Rattle.linkage_rules.specs.declared.conflict.SymbolFault.{SymbolFault};

    ghost from_gives = { λ _ fault. fault ≡ SymbolFault.Memory };

    fn from(_failed: AllocError) -> SymbolFault {
        SymbolFault::Memory
    }
}
