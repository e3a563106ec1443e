//! How a type lies in memory.

/// How a type lies in memory (LangRef, "Data Layout").
///
/// ```
/// Layout { size: 8, align: 4, leaves: 2 } // of `{ i8, i32 }`
/// Layout { size: 5, align: 1, leaves: 2 } // of `<{ i8, i32 }>`
/// ```
#[derive(Clone, Copy)]
pub struct Layout {
    /// The bytes from one element of an array to the next.
    pub size: u64,
    /// The alignment in bytes, a power of two.
    pub align: u32,
    /// The integers and pointers of a value, written out.
    pub leaves: u64,
}
