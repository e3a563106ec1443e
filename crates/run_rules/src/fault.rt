//! Why a call did not come to an end of the run.
use std::alloc::{AllocError, AllocFailed};
use thiserror::Error;

/// Why a call did not come to an end of the run: a read or a write failed, or the interpreter has no memory left.
///
/// ```
/// RunFault::ReadFault // where `getchar` waits for a byte, and the read of it fails
/// RunFault::WriteFault // where the program's bytes are written, and that fails
/// ```
#[derive(Clone, Copy, PartialEq, Eq, Debug, Error)]
pub enum RunFault {
    /// The input failed to be read.
    #[error("cannot read the input")]
    ReadFault,
    /// The output failed to be written.
    #[error("cannot write the output")]
    WriteFault,
    /// Memory ran out.
    #[error("out of memory")]
    Memory,
}

impl From<AllocError> for RunFault {
    ghost use Rattle.std.specs.Prelude.{◌≡◌};
    ghost use Rattle.run_rules.specs.declared.fault.RunFault.{RunFault};

    ghost from_gives = { λ e t. t ≡ RunFault.Memory };

    fn from(_fault: AllocError) -> RunFault {
        RunFault::Memory
    }
}

impl<T: Drop> From<AllocFailed<T>> for RunFault {
    ghost use Rattle.std.specs.Prelude.{◌≡◌};
    ghost use Rattle.run_rules.specs.declared.fault.RunFault.{RunFault};

    ghost from_gives = { λ e t. t ≡ RunFault.Memory };

    fn from(_fault: AllocFailed<T>) -> RunFault {
        RunFault::Memory
    }
}
