//! Where a leaf is had from.
use ir_eval::Scalar;

/// Where a leaf is had from: the place in the frame where it stands, counted from 0, or the leaf itself.
///
/// ```
/// // in a function with the parameters `ptr %p` and `i32 %a`
/// Origin::Held(1) // of `i32 %a`
/// Origin::Known(Scalar::Int(7)) // of `i32 7`
/// ```
#[derive(Clone, Copy, Debug, PartialEq, Eq)]
pub enum Origin {
    /// A place in the frame.
    Held(u32),
    /// The leaf itself.
    Known(Scalar),
}

/// A leaf of a phi on an edge: the place in the frame that it goes to, and where it is had from.
///
/// ```
/// // of `%x = phi i32 [ 7, %a ]` on the way from `%a`, where the leaf of `%x` stands at place 2
/// Move { to: 2, from: Origin::Known(Scalar::Int(7)) }
/// ```
#[derive(Clone, Copy, Debug, PartialEq, Eq)]
pub struct Move {
    pub to: u32,
    pub from: Origin,
}
