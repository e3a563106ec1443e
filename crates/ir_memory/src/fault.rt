//! Why memory refuses.
use ir_tables::UndefinedKind;
use std::alloc::{AllocError, AllocFailed};
use thiserror::Error;

/// Why a call on memory is refused: it is undefined, live bytes would pass their limit, or the
/// interpreter itself has no memory left.
///
/// ```
/// MemoryFault::Undefined(UndefinedKind::BadFree) // of a block that is freed again
/// MemoryFault::MemoryLimit // of a block of 268,435,457 bytes
/// ```
#[derive(Clone, Copy, PartialEq, Eq, Debug, Error)]
pub enum MemoryFault {
    /// The call is undefined, for that reason.
    #[error("undefined behaviour: {}", .0.word())]
    Undefined(UndefinedKind),
    /// The live bytes would pass their limit, 268,435,456.
    #[error("too many live bytes")]
    MemoryLimit,
    /// The interpreter itself has no memory left.
    #[error("out of memory")]
    Memory,
}

impl From<AllocError> for MemoryFault {
    ghost use Rattle.std.specs.Prelude.{◌≡◌};
    ghost use Rattle.ir_memory.specs.declared.fault.MemoryFault.{MemoryFault};

    ghost from_gives = { λ e t. t ≡ MemoryFault.Memory };

    fn from(_fault: AllocError) -> MemoryFault {
        MemoryFault::Memory
    }
}

impl<T: Drop> From<AllocFailed<T>> for MemoryFault {
    ghost use Rattle.std.specs.Prelude.{◌≡◌};
    ghost use Rattle.ir_memory.specs.declared.fault.MemoryFault.{MemoryFault};

    ghost from_gives = { λ e t. t ≡ MemoryFault.Memory };

    fn from(_fault: AllocFailed<T>) -> MemoryFault {
        MemoryFault::Memory
    }
}

impl From<UndefinedKind> for MemoryFault {
    ghost use Rattle.std.specs.Prelude.{◌≡◌};
    ghost use Rattle.ir_memory.specs.declared.fault.MemoryFault.{MemoryFault};

    ghost from_gives = { λ e t. t ≡ MemoryFault.Undefined e };

    fn from(kind: UndefinedKind) -> MemoryFault {
        MemoryFault::Undefined(kind)
    }
}
