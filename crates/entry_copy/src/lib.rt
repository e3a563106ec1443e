//! Types, constants and bodies of one arena, made again in another, where structs and globals have other ids and names.
//!
//! It stands on `module_arena` and the builder of `item_build::types`. It promises that each copy is the old one under the other
//! names, that an entry is added as it is given where its name is free and there is room, that nothing else of the new module
//! changes, and that only memory may be wanting. Definitions: `specs/Tables`, `specs/Copies`, `specs/Moved`, `Renamed` of
//! `module_arena`, and `Declarations` of `item_build::types`.
//!
//! Its modules:
//!
//! - `structs`: The named structs of an arena, made again in an empty one under the same ids and
//!   names.
//!
//! ```
//! let mut copier = Copier::new(alloc, Vec::new(alloc)); // each struct keeps its id
//! copier.copy_types(alloc, &old, &mut builder, old.types().type_count())?;
//! copier.new_type(TypeId::new(0)) // the id in `builder.arena` of the type that is the first of `old`
//! copier.copy_constants(alloc, &old, &mut builder)?;
//! copier.new_constant(ConstId::new(0)) // the same of the first constant
//! copier.copy_body(alloc, &body)? // a function's body, of the new ids
//! ```
#![tactic(auto)]

mod adding;
mod bodies;
mod constants;
mod copier;
mod copiers;
mod endings;
mod initialisers;
mod instructions;
mod moved;
mod parameters;
pub mod structs;
mod types;
mod values;

pub use adding::{add_alias, add_function, add_variable};
pub use copier::Copier;
pub use copiers::copier_of;
pub use initialisers::copied_initialiser;
pub use parameters::parameter_number;
