//! The items of a text, made in an arena: its structs, named and defined, its texts, and its entries one after the other.
//!
//! It stands on `item_build::types`, and on what `item_build::buildable` asks for. It promises that a struct which is defined has the fields
//! that the text writes, that each entry is the one that its item writes, that nothing else of the module changes, and that only
//! memory may be wanting: structs of which some have no body yet are never deeper or larger than the whole. Definitions:
//! `specs/Partly`, `specs/Named`, `specs/Places`, `specs/Declaring`, `specs/Completing`, `specs/Texts`.
//!
//! Its modules:
//!
//! - `types`: The types, constants and entries of a text, as those of an arena.
//! - `buildable`: What an arena asks for where the items of a text are built in it: definitions
//!   alone.
//!
//! ```
//! let items = read_items(alloc, b"%pair = type { i8, i32 }\n@a = global %pair zeroinitializer")?;
//! let mut builder = Builder::new(alloc);
//! build_structs(&mut builder, alloc, items.as_slice(), &[0])?; // the struct `%pair`, with its body
//! declare_items(&mut builder, alloc, items.as_slice())?; // the variable `@a`, without its initialiser
//! initialise_items(&mut builder, alloc, items.as_slice())?; // `@a` starts as `zeroinitializer`
//! ```
#![tactic(auto)]

mod along;
pub mod buildable;
mod building;
mod declaring;
mod defining;
mod initialisers;
mod naming;
mod targets;
mod texts;
pub mod types;

pub use building::build_structs;
pub use declaring::declare_items;
pub use initialisers::initialise_items;
pub use targets::set_targets;
pub use texts::set_texts;
