//! Why a change of the table was refused.
use std::alloc::{AllocError, AllocFailed};
use thiserror::Error;

/// Why a change of the table was refused. A refused change leaves the table as it was.
///
/// ```
/// TypeFault::TooLarge // of `[1099511627777 x i8]`, whose length passes 2^40
/// TypeFault::SelfContaining // of the body `{ i32, %s }` for `%s`
/// ```
#[derive(Clone, Copy, Debug, Error)]
pub enum TypeFault {
    /// A struct has that name already.
    #[error("a struct has that name already")]
    Duplicate,
    /// The struct would hold itself by value.
    #[error("the struct contains itself")]
    SelfContaining,
    /// A type would nest more than 64 deep, through the bodies of named structs.
    #[error("a type nests too deep")]
    TooDeep,
    /// A size or an array's length would pass 2^40, or the parts of a type 2^20.
    #[error("a type is too large")]
    TooLarge,
    /// There is no memory left.
    #[error("out of memory")]
    Memory,
}

impl<T: Drop> From<AllocFailed<T>> for TypeFault {
    ghost use Rattle.std.specs.Prelude.{◌≡◌};
    ghost use Rattle.type_table.specs.declared.fault.TypeFault.{TypeFault};

    ghost from_gives = { λ _ fault. fault ≡ TypeFault.Memory };

    fn from(_failed: AllocFailed<T>) -> TypeFault {
        TypeFault::Memory
    }
}

impl From<AllocError> for TypeFault {
    ghost use Rattle.std.specs.Prelude.{◌≡◌};
    ghost use Rattle.type_table.specs.declared.fault.TypeFault.{TypeFault};

    ghost from_gives = { λ _ fault. fault ≡ TypeFault.Memory };

    fn from(_failed: AllocError) -> TypeFault {
        TypeFault::Memory
    }
}
