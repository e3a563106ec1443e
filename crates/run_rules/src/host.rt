//! What host functions go by.

/// The alignment of the blocks that `malloc` makes, in bytes (C, "Memory management functions").
pub const HEAP_ALIGNMENT: u32 = 16;

/// What `getchar` gives at the end of the input: -1 as an i32 (C, "The getchar function").
pub const END_OF_INPUT: u128 = 0xFFFF_FFFF;
