//! Why parts were not linked.
use ir_base::Name;
use linkage_rules::{ConflictKind, SymbolFault};
use module_arena::CountKind;
use std::alloc::AllocError;
use thiserror::Error;

/// Why parts were not linked. A conflict is told before a count.
#[derive(Debug, Drop, Error)]
pub enum LinkFault {
    /// Two entries of that name are in conflict, of an earlier and of a later part, which are counted from 0.
    #[error("two parts are in conflict")]
    Conflict {
        kind: ConflictKind,
        name: Name,
        one: u64,
        other: u64,
    },
    /// The linked module would have so many, which is past the limit; 2^64 - 1 where there are more.
    #[error("the linked module would be too large")]
    TooMany {
        kind: CountKind,
        count: u64,
    },
    /// There is no memory left.
    #[error("out of memory")]
    Memory,
}

impl From<SymbolFault> for LinkFault {
    ghost use Rattle.std.specs.Prelude.{◌≡◌};
    ghost use Rattle.module_linker.specs.Faults.{of_symbols};

    ghost from_gives = { λ fault told. told ≡ of_symbols fault };

    fn from(fault: SymbolFault) -> LinkFault {
        match fault {
            SymbolFault::Conflict {
                kind,
                name,
                one,
                other,
            } => LinkFault::Conflict {
                kind,
                name,
                one,
                other,
            },
            SymbolFault::Memory => LinkFault::Memory,
        }
    }
}

impl From<AllocError> for LinkFault {
    ghost use Rattle.std.specs.Prelude.{◌≡◌};
    ghost use Rattle.module_linker.specs.declared.fault.LinkFault.{LinkFault};

    ghost from_gives = { λ _ fault. fault ≡ LinkFault.Memory };

    fn from(_failed: AllocError) -> LinkFault {
        LinkFault::Memory
    }
}
