//! What parameters, blocks and results of a body are called, as its records say.
//!
//! It stands on `record_read`. It promises that each name that is read is new exactly where the rule on names holds, and that
//! a name that passes the end of the string table is told apart from others. Definitions: `Bodies` of `record_table`, and
//! `specs/Names/Called`.
//!
//! ```
//! let mut names = BodyNames::new(alloc);
//! names.call(alloc, Some(&name))? // true
//! names.call(alloc, Some(&name))? // false: something is called so already
//! ```
mod called;
mod label;
mod names;

pub use called::BodyNames;
pub use label::read_called;
pub use names::read_names;
