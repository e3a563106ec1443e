//! The types, constants and entries of a text, as those of an arena.
//!
//! It stands on `ir_syntax`, `name_rules` and the arena of `module_arena`. It promises that its ids are those of the types,
//! constants and entries that the text writes, that nothing else of the module changes, and that only memory may be
//! wanting. Definitions: `specs/Types/Stands`, `specs/Types/Fitting`, `specs/Types/Holding`, `specs/Types/Declarations`, and `Written` of `name_rules`.
//!
//! ```
//! let mut builder = Builder::new(alloc);
//! let ty = builder.keep_type(alloc, IrType::Int(32))?;
//! let seven = builder.keep_constant(alloc, Const::Integer(7))?;
//! builder.keep_type(alloc, IrType::Int(32))? // `ty` again
//! ```
mod aliases;
mod builder;
mod constant_places;
mod constants;
mod copies;
mod functions;
mod heads;
mod id_pages;
mod integers;
mod type_places;
mod types;
mod variables;
mod wanting;

pub use aliases::{declare_alias, set_target};
pub use builder::Builder;
pub use functions::{declare_definition, declare_function};
pub use heads::alignment_of;
pub use integers::index_of;
pub use variables::{declare_variable, initialise};
pub use wanting::{entry_out_of_memory, type_out_of_memory};
