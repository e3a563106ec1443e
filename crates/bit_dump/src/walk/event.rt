//! What a walker gives.

/// A block that begins: its id, how many bits the abbreviation ids inside it have, and its count of words.
///
/// ```
/// // of a block of id 8 whose abbreviation ids have 3 bits, and which has 20 words of 32 bits
/// BlockHead { id: 8, width: 3, words: 20 }
/// ```
#[derive(Clone, Copy)]
pub struct BlockHead {
    pub id: u32,
    pub width: u32,
    pub words: u32,
}

/// A record that stands there: its abbreviation id, which is 3 where it has none, and its code.
///
/// ```
/// RecordHead { id: 3, code: 1 } // of a record of code 1 without an abbreviation
/// ```
#[derive(Clone, Copy)]
pub struct RecordHead {
    pub id: u32,
    pub code: u32,
}

/// An entry or a definition of a stream.
///
/// ```
/// Event::Begun(BlockHead { id: 8, width: 3, words: 20 })
/// Event::Defined(4) // the first abbreviation of a block
/// ```
#[derive(Clone, Copy)]
pub enum Event {
    /// A block begins.
    Begun(BlockHead),
    /// The innermost open block ends.
    Ended,
    /// An abbreviation is defined, and has this id where it is in force.
    Defined(u64),
    /// A record, whose operands are taken one by one.
    Held(RecordHead),
}
