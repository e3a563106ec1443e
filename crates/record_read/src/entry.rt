//! What a reader gives.

/// What stands next in a block, or in a stream.
#[derive(Clone, Copy)]
pub enum NextEntry {
    /// A block of that id begins.
    Block(u32),
    /// A record of that code, whose operands are taken one by one.
    Record(u32),
    /// The innermost open block ends, or the stream.
    End,
}
