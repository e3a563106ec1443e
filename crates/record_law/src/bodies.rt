//! A body that is written is read back.
//!
//! It stands on the records of `record_table` and on its laws of lines. It promises the law that its call names.
//! Definitions: `specs/Bodies/FittingBodies` says what a body must be, `specs/Bodies/Laws` what the law is.
//!
//! ```
//! -- of the records of `define i32 @f(i32 %a) { ret i32 %a }`: PARAMS, BLOCK and that of `ret`
//! body texts k 1 at records -- Ok begun
//! begun.parameters -- Named (codes "a") ∷ []
//! begun.blocks -- one, of the name Numbered 0, which ends in `ret i32 %a`
//! ```
mod laws;

pub use laws::bodies_are_read_back;
