//! The pieces of pointers in memory, those of eight addresses each in a slot of an ordered map.
//!
//! It stands on the pointers of `ir_eval`. Its promise: each call changes the pieces of the addresses that
//! it names and no others, and where memory is refused, none at all. Definitions: `specs/Pointers/Pieces`.
//!
//! ```
//! let mut pieces = Pieces::new(alloc);
//! pieces.place(65_536, pointer)?;
//! pieces.get(65_539) // Some(PointerPiece { pointer, place: 3 })
//! pieces.clear(65_539, 65_540);
//! pieces.get(65_539) // None
//! ```
mod moved;
mod piece;
mod pieces;
mod ranges;
mod slot;
mod slots;

pub use piece::PointerPiece;
pub use pieces::Pieces;
