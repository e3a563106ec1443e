//! Why a call of an arena was refused.
use crate::GlobalId;
use std::alloc::{AllocError, AllocFailed};
use thiserror::Error;

/// What there may be too many of.
///
/// ```
/// ArenaFault::TooMany { kind: CountKind::Variables, count: 262_145 } // of one variable too many
/// ```
#[derive(Clone, Copy, Debug)]
pub enum CountKind {
    /// Structs that have names.
    Structs,
    /// Variables.
    Variables,
    /// Functions.
    Functions,
    /// Aliases.
    Aliases,
    /// Bytes of an array that linking appends.
    AppendedBytes,
}

/// Why a call of an arena was refused. A refused call leaves the arena as it was.
///
/// ```
/// ArenaFault::Duplicate(GlobalId::Function(f)) // where a second entry would have the name of the function `f`
/// ```
#[derive(Clone, Copy, Debug, Error)]
pub enum ArenaFault {
    /// An entry has that name already.
    #[error("an entry has that name already")]
    Duplicate(GlobalId),
    /// There would be `count` of that kind, which is past the limit.
    #[error("too many entries")]
    TooMany { kind: CountKind, count: u64 },
    /// There is no memory left.
    #[error("out of memory")]
    Memory,
}

impl<T: Drop> From<AllocFailed<T>> for ArenaFault {
    ghost use Rattle.std.specs.Prelude.{◌≡◌};
    ghost use Rattle.module_arena.specs.declared.fault.ArenaFault.{ArenaFault};

    ghost from_gives = { λ _ fault. fault ≡ ArenaFault.Memory };

    fn from(_failed: AllocFailed<T>) -> ArenaFault {
        ArenaFault::Memory
    }
}

impl From<AllocError> for ArenaFault {
    ghost use Rattle.std.specs.Prelude.{◌≡◌};
    ghost use Rattle.module_arena.specs.declared.fault.ArenaFault.{ArenaFault};

    ghost from_gives = { λ _ fault. fault ≡ ArenaFault.Memory };

    fn from(_failed: AllocError) -> ArenaFault {
        ArenaFault::Memory
    }
}
