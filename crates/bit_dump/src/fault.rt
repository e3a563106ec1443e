//! Why telling a stream stops.
ghost use Rattle.std.specs.Prelude.{◌≡◌};
ghost use Rattle.bit_dump.specs.declared.fault.DumpFault.TheVariants.{Bit, WriteFault, Memory};
ghost use Rattle.bit_dump.specs.Fault.{of_stream};

use bit_stream::{BitFault, StreamFault};
use ir_base::Failed;
use std::alloc::{AllocError, AllocFailed};
use thiserror::Error;

/// A fault of the stream, a failed write, or want of memory.
#[derive(Clone, Copy, Debug, PartialEq, Eq, Error)]
pub enum DumpFault {
    /// A field of the stream, by its kind and its first bit.
    #[error(transparent)]
    Bit(BitFault),
    /// The sink failed to write.
    #[error("cannot write")]
    WriteFault,
    /// Memory ran out.
    #[error("out of memory")]
    Memory,
}

impl From<BitFault> for DumpFault {
    ghost from_gives = { λ bit fault. fault ≡ Bit bit };

    fn from(fault: BitFault) -> DumpFault {
        DumpFault::Bit(fault)
    }
}

impl From<StreamFault> for DumpFault {
    ghost from_gives = { λ stream fault. fault ≡ of_stream stream };

    fn from(fault: StreamFault) -> DumpFault {
        match fault {
            StreamFault::Bit(fault) => DumpFault::Bit(fault),
            StreamFault::Memory => DumpFault::Memory,
        }
    }
}

impl From<Failed> for DumpFault {
    ghost from_gives = { λ _ fault. fault ≡ WriteFault };

    fn from(_failed: Failed) -> DumpFault {
        DumpFault::WriteFault
    }
}

impl From<AllocError> for DumpFault {
    ghost from_gives = { λ _ fault. fault ≡ Memory };

    fn from(_error: AllocError) -> DumpFault {
        DumpFault::Memory
    }
}
