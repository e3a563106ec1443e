//! Why a phrase was not read.
ghost use Rattle.std.specs.Prelude.{◌≡◌};
ghost use Rattle.ir_terminals.specs.declared.fault.Fault.TheVariants.{Memory};

use std::alloc::{AllocError, AllocFailed};

/// Memory ran out, or the cursor stands at the first token with which no such phrase begins or goes on.
///
/// ```
/// Fault::Refused // of a comma, where the cursor stands at `)`
/// ```
#[derive(Clone, Copy, Debug)]
pub enum Fault {
    /// Memory ran out.
    Memory,
    /// The cursor stands at the first token with which no such phrase begins or goes on.
    Refused,
}

impl From<AllocError> for Fault {
    ghost from_gives = { λ _ e. e ≡ Memory };

    fn from(_error: AllocError) -> Fault {
        Fault::Memory
    }
}

impl<T: Drop> From<AllocFailed<T>> for Fault {
    ghost from_gives = { λ _ e. e ≡ Memory };

    fn from(_error: AllocFailed<T>) -> Fault {
        Fault::Memory
    }
}
