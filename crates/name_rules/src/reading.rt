//! The module that a text reads to is well formed.
//!
//! It stands on the rules of names and numbers of `name_rules`. It promises the one law that its call names, over texts of
//! bytes. Definitions: `Reads` of `name_rules`, `IsWellFormed` of `module_arena`.
//!
//! ```
//! Reads "@a = global ptr @a" m -- m has the variable `a`, of which the initialiser names it: m is well formed
//! Reads "@a = global ptr @b" m -- of no m: nothing is called `b`
//! ```
mod laws;

pub use laws::what_bytes_read_to_is_well_formed;
