//! Leaves of values.

/// An address, with the block that it came from, if it came from one. Blocks are counted from 0.
///
/// ```
/// Pointer { block: Some(0), address: 65_536 } // into the first block
/// Pointer { block: None, address: 0 } // null
/// ```
#[derive(Clone, Copy, Debug, PartialEq, Eq)]
pub struct Pointer {
    pub block: Option<u64>,
    pub address: u64,
}

/// A leaf of a value: an integer below 2^N at its width N, a pointer, or poison (LangRef, "Poison
/// Values").
///
/// ```
/// Scalar::Int(255) // at width 8: 255 without sign, and -1 with sign
/// Scalar::Ptr(Pointer { block: None, address: 0 }) // null
/// ```
#[derive(Clone, Copy, Debug, PartialEq, Eq)]
pub enum Scalar {
    /// An integer without a sign. Its width stands beside it.
    Int(u128),
    /// A pointer.
    Ptr(Pointer),
    /// Poison, of whatever type.
    Poison,
}
