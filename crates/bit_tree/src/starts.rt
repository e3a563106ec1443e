//! Which definitions BLOCKINFO gave to each block id, by the bits where they start, twelve bytes a definition.
//!
//! It stands on std alone. It promises that an id has the starts that it was given, in order, and that the ids ascend. A
//! look-up is two binary searches, and giving a definition moves few others. Definitions: `specs/Starts/Given`.
//!
//! ```
//! let mut given = Given::new(alloc);
//! given.give(17, 96)?;
//! given.give(17, 128)?;
//! given.count(17) // 2
//! given.get(17, 1) // Some(128)
//! given.count(8) // 0
//! ```
mod given;
mod merging;
mod row;
mod search;

pub use given::{Given, MOST_DEFINITIONS};
