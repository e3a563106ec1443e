//! The records of variables, functions and aliases, read into an arena in which they are declared.
//!
//! It stands on `bitcode_read::head` and `body_read::constants`. It promises for each record what the entry holds that it stands for, or the
//! least rule that it breaks. Definitions: `Records` of `record_table`, and `specs/Entry/Entries`.
//!
//! ```
//! // of the bitcode of `@a = global i32 7` and `declare void @f()`, in an arena that has both
//! read_variable(&mut m, &texts, 0, true)? // Some(id): the constant 7
//! read_function(&mut m, &texts, 0, true)? // false: it has no body
//! ```
mod ending;
mod holding;
mod records;

pub use records::{read_alias, read_function, read_variable};
