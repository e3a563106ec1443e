//! The block of types that is written of a module is read back.
//!
//! It stands on the records of `record_table` and on `record_law::bodies`. It promises that of a well-formed module the types and structs that its
//! records list are read as those that it has. Definitions: `specs/Types/ReadTypes` says what is read, `specs/Types/Laws` what the law is.
//!
//! ```
//! -- of `@a = global [2 x i32] zeroinitializer`
//! mentioned m -- int 32 ∷ array 2 (int 32) ∷ []: each behind its parts
//! type_lines texts (mentioned m) m -- (1, 32 ∷ []) ∷ (4, 2 ∷ 0 ∷ []) ∷ []: INT 32, and ARRAY of two of type 0
//! ```
mod laws;

pub use laws::types_are_read_back;
