//! What a bit stream is refused for.

use thiserror::Error;

/// Why a field is refused (LLVM Bitcode File Format).
///
/// ```
/// BitFaultKind::Truncated // of a field of 32 bits where 24 are left
/// BitFaultKind::VbrTooLong // of a number of 14 chunks of 6 bits, which have 70 bits of data
/// ```
#[derive(Clone, Copy, Debug, PartialEq, Eq, Error)]
pub enum BitFaultKind {
    /// The stream does not begin with the bytes 42 43 C0 DE.
    #[error("bad magic")]
    BadMagic,
    /// The field ends after the stream.
    #[error("truncated")]
    Truncated,
    /// An abbreviation is not defined, or its definition cannot stand.
    #[error("bad abbreviation")]
    BadAbbreviation,
    /// A number in chunks has more than 64 bits of data.
    #[error("vbr too long")]
    VbrTooLong,
    /// A block has more or fewer words than it says.
    #[error("bad block length")]
    BadBlockLength,
    /// A block would be the 17th that is open at once.
    #[error("nested too deep")]
    NestedTooDeep,
}

/// A fault, and the first bit of the field that is refused, counted from 0.
///
/// ```
/// BitFault { kind: BitFaultKind::BadMagic, bit: 0 } // of bytes that do not begin with 42 43 C0 DE
/// ```
#[derive(Clone, Copy, Debug, PartialEq, Eq, Error)]
#[error("bit {bit}: {kind}")]
pub struct BitFault {
    pub kind: BitFaultKind,
    pub bit: u64,
}
