//! From the items of a text to its module, or to why they are none.
//!
//! It stands on the rules of `name_rules`, which `name_judge` judges and by which `build` builds. It promises that what
//! is resolved is the one module of the items and well formed, and that a refusal is the first demand in the order of the
//! text that fails. Definitions: `Reads` and `Breaks` of `name_rules`.
//!
//! Its modules:
//!
//! - `instruction_build`: Instructions and the ends of blocks, as an arena has them.
//! - `builds_well`: Items that break no rule are such that an arena can be built from them.
//! - `reads_narrow`: What the tokens of a text give beyond its tree: integer types of 1 to 128
//!   bits, and no result of a store.
//!
//! ```
//! let items = read_items(alloc, b"@a = global i32 7")?;
//! let arena = resolve(alloc, &items)?; // one variable
//!
//! let items = read_items(alloc, b"@a = global ptr @b")?;
//! resolve(alloc, &items) // Err(ResolveFault::UnknownName { place, spelled }): `@b`, at 1:17
//! ```
#![tactic(auto)]

mod blocks;
mod bodies;
mod body;
mod building;
pub mod builds_well;
mod gathered;
pub mod instruction_build;
mod instructions;
mod names;
pub mod reads_narrow;
mod resolving;

pub use name_rules::ResolveFault;
pub use resolving::resolve;
