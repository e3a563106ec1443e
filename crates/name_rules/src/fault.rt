//! Why the items of a text are no module.
use ir_base::{Place, Text};
use module_arena::CountKind;
use std::alloc::{AllocError, AllocFailed};
use thiserror::Error;

/// Why the items of a text are no module, at the first place where they are none.
///
/// ```
/// // of `@a = global i32 @b`, where nothing is called `@b`
/// ResolveFault::UnknownName { place: Place { line: 1, column: 17 }, spelled }
/// ```
#[derive(Debug, Drop, Error)]
pub enum ResolveFault {
    /// More structs, variables, functions or aliases than a module may have, and how many there are.
    #[error("too many entries")]
    TooMany {
        kind: CountKind,
        count: u64,
    },
    /// What the token there names is named already, first at the place `first`.
    #[error("named twice")]
    Duplicate {
        place: Place,
        first: Place,
    },
    /// The name there, as it is spelled, is that of nothing, or of a value where a block stands, or of a block where a value
    /// does.
    #[error("unknown name")]
    UnknownName {
        place: Place,
        spelled: Text,
    },
    /// The number there is not the next one: the place, the next one, and the digits of the one that is written.
    #[error("wrong number")]
    WrongNumber {
        place: Place,
        next: u64,
        found: Text,
    },
    /// The integer there does not fit its place.
    #[error("constant out of range")]
    ConstantRange(Place),
    /// The type there nests more than 64 deep, through the bodies of named structs.
    #[error("too deep")]
    TooDeep(Place),
    /// The struct there contains itself by value.
    #[error("contains itself")]
    SelfContaining(Place),
    /// The type there has more than 2^40 bytes or elements, or more than 2^20 parts.
    #[error("too large")]
    TooLarge(Place),
    /// There is no memory left.
    #[error("out of memory")]
    Memory,
}

impl<T: Drop> From<AllocFailed<T>> for ResolveFault {
    ghost use Rattle.std.specs.Prelude.{◌≡◌};
    ghost use Rattle.name_rules.specs.declared.fault.ResolveFault.{ResolveFault};

    ghost from_gives = { λ _ fault. fault ≡ ResolveFault.Memory };

    fn from(_failed: AllocFailed<T>) -> ResolveFault {
        ResolveFault::Memory
    }
}

impl From<AllocError> for ResolveFault {
    ghost use Rattle.std.specs.Prelude.{◌≡◌};
    ghost use Rattle.name_rules.specs.declared.fault.ResolveFault.{ResolveFault};

    ghost from_gives = { λ _ fault. fault ≡ ResolveFault.Memory };

    fn from(_failed: AllocError) -> ResolveFault {
        ResolveFault::Memory
    }
}
