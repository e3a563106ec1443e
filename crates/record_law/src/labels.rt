//! The names that a body declares are known ahead of it: they are those that are read.
//!
//! It stands on the records of `record_table`. It promises the law that its call names, and has in its proofs what a reader
//! needs record by record. Definitions: `Bodies` of `record_table`, and `specs/Labels/Laws`.
//!
//! ```
//! -- of the records of `define i32 @f(i32 %a) { %b = add i32 %a, 1 ret i32 %b }`
//! (labels texts k 1 inside).values -- Named (codes "a") ∷ Named (codes "b") ∷ []
//! (labels texts k 1 inside).blocks -- Numbered 0 ∷ []
//! ```
mod laws;

pub use laws::labels_are_those_read;
