//! Why reading stops.
ghost use Rattle.std.specs.Prelude.{◌≡◌};
ghost use Rattle.bit_stream.specs.declared.bits.fault.BitFaultKind.TheVariants.{BadAbbreviation, BadBlockLength, NestedTooDeep};
ghost use Rattle.bit_stream.specs.declared.fault.StreamFault.TheVariants.{Bit, Memory};

use crate::bits::{BitFault, BitFaultKind};
use std::alloc::{AllocError, AllocFailed};
use thiserror::Error;

/// A fault of the stream, or want of memory.
///
/// ```
/// // of the bytes 42 43 C0 alone, which are too few
/// StreamFault::Bit(BitFault { kind: BitFaultKind::BadMagic, bit: 0 })
/// ```
#[derive(Clone, Copy, Debug, Error)]
pub enum StreamFault {
    /// A field of the stream, by its kind and its first bit.
    #[error(transparent)]
    Bit(BitFault),
    /// Memory ran out.
    #[error("out of memory")]
    Memory,
}

impl<T: Drop> From<AllocFailed<T>> for StreamFault {
    ghost from_gives = { λ _ fault. fault ≡ Memory };

    fn from(_failed: AllocFailed<T>) -> StreamFault {
        StreamFault::Memory
    }
}

impl From<AllocError> for StreamFault {
    ghost from_gives = { λ _ fault. fault ≡ Memory };

    fn from(_error: AllocError) -> StreamFault {
        StreamFault::Memory
    }
}

impl From<BitFault> for StreamFault {
    ghost from_gives = { λ bit fault. fault ≡ Bit bit };

    fn from(fault: BitFault) -> StreamFault {
        StreamFault::Bit(fault)
    }
}

/// The fault of a field that the format's rules on abbreviations refuse.
pub fn bad_abbreviation(bit: u64) -> BitFault
    ensures { result ≡ record { kind = BadAbbreviation; bit = bit } }
{
    BitFault {
        kind: BitFaultKind::BadAbbreviation,
        bit,
    }
}

/// The fault of a block that does not have as many words as its count, which begins at this bit.
pub fn bad_block_length(bit: u64) -> BitFault
    ensures { result ≡ record { kind = BadBlockLength; bit = bit } }
{
    BitFault {
        kind: BitFaultKind::BadBlockLength,
        bit,
    }
}

/// The fault of a block too many, whose id begins at this bit.
pub fn nested_too_deep(bit: u64) -> BitFault
    ensures { result ≡ record { kind = NestedTooDeep; bit = bit } }
{
    BitFault {
        kind: BitFaultKind::NestedTooDeep,
        bit,
    }
}
