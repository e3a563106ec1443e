//! The order of a module's block: what stands in it, its version and its texts, whose body is due, and what is missing at its
//! end.
//!
//! It stands on `record_read`. It promises for each of these records what it stands for, or the least rule that it breaks, and
//! that a block is over exactly where nothing of it is missing. Definitions: `Records` of `record_table`, and `specs/`.
//!
//! ```
//! ModulePart::Version.place() // 1
//! ModulePart::Version.may_follow(0) // true: it stands first
//! ModulePart::Source.may_follow(0) // false
//! next_due(&[true, false, true], 1) // Some(2): the body of function 0 came, and function 1 has none
//! ```
mod due;
mod ending;
mod part;
mod text;
mod version;

pub use due::next_due;
pub use ending::expect_whole;
pub use part::ModulePart;
pub use text::read_module_text;
pub use version::read_version;
