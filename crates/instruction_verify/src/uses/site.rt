//! Where an instruction or the end of a block stands.

use module_arena::BlockId;

/// Where an instruction or the end of a block stands in its function.
///
/// ```
/// // The first instruction of the second block, where the first block has two instructions and its end.
/// Site { number: 3, block: BlockId::new(1), before: 0 }
/// ```
#[derive(Clone, Copy)]
pub struct Site {
    /// Its number among all instructions and ends of the function.
    pub number: u64,
    /// Its block.
    pub block: BlockId,
    /// How many instructions of the block stand before it.
    pub before: usize,
}
