//! What is known of the types of parameters and results.

use type_table::TypeId;

/// The type of a parameter or result of a function.
#[derive(Clone, Copy)]
pub enum LocalType {
    /// A type of the arena.
    Written(TypeId),
    /// `i1`, which a comparison gives, and which need not be a type of the arena.
    Truth,
    /// `ptr`, which an address has, and which need not be a type of the arena.
    Pointer,
    /// No type: its instruction gives none.
    Nothing,
}
