//! Bitcode read into an arena.
//!
//! It stands on the walker of `bit_dump::walk` and on the records of `type_read`, `bitcode_read::entry` and `body_read`. It promises the
//! module that the bytes spell, which is well formed, or why they spell none: the container is judged whole first, and then
//! the records in order, each by the least rule that it breaks. It holds no tree and no list of operands. Definitions:
//! `Records` of `record_table`.
//!
//! Its modules:
//!
//! - `head`: What the records of variables, functions and aliases begin with, and what is known
//!   ahead of the block of a module.
//! - `ahead`: The variables, functions and aliases of a module, declared in an arena ahead of their
//!   records, so that constants may name what stands behind them.
//! - `entry`: The records of variables, functions and aliases, read into an arena in which they are
//!   declared.
//! - `holding`: What the entries of an arena hold, set all at once: initialisers, targets and
//!   bodies, in the order of the entries.
//!
//! ```
//! // of the bytes that `bitcode_write` writes of `define void @f() { ret void }`
//! read(alloc, bytes)? // an arena with that function
//! // of no bytes it is refused, since they do not begin as a stream of bitcode does
//! ```
#![tactic(auto)]

pub mod ahead;
mod blocks;
pub mod entry;
pub mod head;
pub mod holding;
mod module;
mod opening;
mod reading;
mod records;
mod sofar;

pub use reading::read;
pub use record_read::BitcodeFault;
