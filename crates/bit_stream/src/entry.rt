//! Entries of a stream.

/// What a stream holds at a place.
///
/// ```
/// Entry::Block(8) // a block of id 8, that of a module, begins
/// Entry::Record(1) // a record of code 1, whose operands follow
/// ```
#[derive(Clone, Copy)]
pub enum Entry {
    /// A block with this id begins.
    Block(u32),
    /// The innermost open block ends.
    EndBlock,
    /// A record with this code.
    Record(u32),
    /// No bit is left.
    End,
}
