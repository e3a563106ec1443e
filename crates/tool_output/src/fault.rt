//! Why a result was not written.
ghost use Rattle.std.specs.Prelude.{◌≡◌};
ghost use Rattle.tool_output.specs.declared.fault.OutputFault.TheVariants.{Memory};

use ir_base::Text;
use std::alloc::AllocError;
use thiserror::Error;

/// Why a result was not written to its output.
#[derive(Debug, Drop, Error)]
pub enum OutputFault {
    /// A write of the output of this name failed; a front of the result may be there.
    #[error("cannot write")]
    CannotWrite(Text),
    /// Memory ran out, before anything was written.
    #[error("out of memory")]
    Memory,
}

impl From<AllocError> for OutputFault {
    ghost from_gives = { λ _ fault. fault ≡ Memory };

    fn from(_error: AllocError) -> OutputFault {
        OutputFault::Memory
    }
}
