//! Places in the lists of a body.

/// Where a leaf is had from: the place in the frame where it stands, or its place among the known leaves of the body. Both are
/// counted from 0.
///
/// ```
/// // in a function with the parameters `ptr %p` and `i32 %a`
/// LeafAt::Held(1) // of `i32 %a`
/// LeafAt::Known(0) // of `i32 7`, where that is the first leaf that is known
/// ```
#[derive(Clone, Copy, Debug, PartialEq, Eq)]
pub enum LeafAt {
    /// A place in the frame.
    Held(u32),
    /// A place among the known leaves.
    Known(u32),
}

/// Some items of a pool that follow one another: the place of the first, counted from 0, and how many they are.
///
/// ```
/// Span { first: 1, count: 2 } // the second item and the third
/// ```
#[derive(Clone, Copy, Debug, PartialEq, Eq)]
pub struct Span {
    pub first: u32,
    pub count: u32,
}

/// No items, whatever pool these would be in.
pub const NOTHING: Span = Span { first: 0, count: 0 };

const _: () = prove!(size_of::<LeafAt>() <= 8);
