//! Ways into blocks.

/// A way into a block: the place of its first instruction behind the phis, and the moves that these get, from `first` up to `end` in
/// the pool of the function's moves.
///
/// ```
/// // into block 2, which has one phi of one leaf, whose move is the fifth of the pool
/// Edge { block: 2, position: 1, first: 4, end: 5 }
/// ```
#[derive(Clone, Copy, Debug, PartialEq, Eq)]
pub struct Edge {
    pub block: u32,
    pub position: u32,
    pub first: u32,
    pub end: u32,
}

/// A case of a switch: the number, and the way that it goes.
///
/// ```
/// SwitchWay { number: 7, edge } // of `i32 7, label %b`, where `edge` leads into `%b`
/// ```
#[derive(Clone, Copy, Debug, PartialEq, Eq)]
pub struct SwitchWay {
    pub number: u128,
    pub edge: Edge,
}
