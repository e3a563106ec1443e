//! One byte of a pointer.
use ir_eval::Pointer;

/// One byte of a pointer, counted from the lowest.
#[derive(Clone, Copy, Debug, PartialEq, Eq)]
pub struct PointerPiece {
    pub pointer: Pointer,
    pub place: u8,
}
