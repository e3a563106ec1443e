//! Why bitcode is refused.
ghost use Rattle.std.specs.Prelude.{◌≡◌};
ghost use Rattle.record_read.specs.Faults.{of_stream, IsMisplaced};
ghost use Rattle.record_read.specs.declared.fault.BitcodeFault.TheVariants.{Memory};

use bit_stream::{BitFault, StreamFault};
use record_table::is_block_id;
use std::alloc::{AllocError, AllocFailed};
use thiserror::Error;

/// Why bitcode is refused.
///
/// ```
/// BitcodeFault::BadVersion(3) // where the block of a module says version 3
/// ```
#[derive(Clone, Copy, Debug, Error)]
pub enum BitcodeFault {
    /// A field of the container.
    #[error(transparent)]
    Bit(BitFault),
    /// Another producer.
    #[error("foreign producer")]
    ForeignProducer,
    /// Another version of the record table.
    #[error("bad version {0}")]
    BadVersion(u64),
    /// In this block a record of this code, which the block does not have; the code is 0 where there is no such block.
    #[error("unknown record {code} in block {block}")]
    UnknownRecord { block: u32, code: u32 },
    /// In this block the record of this index over the stream, counted from 0, and the least rule that it breaks.
    #[error("bad record {index} in block {block}, rule {rule}")]
    BadRecord { block: u32, index: u64, rule: u8 },
    /// Memory ran out.
    #[error("out of memory")]
    Memory,
}

impl From<StreamFault> for BitcodeFault {
    ghost from_gives = { λ stream fault. fault ≡ of_stream stream };

    fn from(fault: StreamFault) -> BitcodeFault {
        match fault {
            StreamFault::Bit(fault) => BitcodeFault::Bit(fault),
            StreamFault::Memory => BitcodeFault::Memory,
        }
    }
}

impl From<AllocError> for BitcodeFault {
    ghost from_gives = { λ _ fault. fault ≡ Memory };

    fn from(_error: AllocError) -> BitcodeFault {
        BitcodeFault::Memory
    }
}

impl<T: Drop> From<AllocFailed<T>> for BitcodeFault {
    ghost from_gives = { λ _ fault. fault ≡ Memory };

    fn from(_error: AllocFailed<T>) -> BitcodeFault {
        BitcodeFault::Memory
    }
}

/// The refusal of a block where none of its kind may stand, behind so many records.
pub fn misplaced(id: u32, at: u64) -> BitcodeFault
    ensures { IsMisplaced id at result }
{
    if is_block_id(id) {
        BitcodeFault::BadRecord {
            block: id,
            index: at,
            rule: 5,
        }
    } else {
        BitcodeFault::UnknownRecord { block: id, code: 0 }
    }
}
