//! The named structs of the module that is made of several (the tool `llvm-link`): by what numbers the structs of a part are
//! compared with those of the others.
//!
//! It stands on the shapes of `link_names::shapes` and the tables of `type_table`. It promises that a struct is told the number
//! of its own shape, with its name and those of the structs in it, so structs of any parts are one in the linked module
//! exactly where their numbers are equal. Each type and each struct of a part is looked at once.
//! Definitions: `specs/Structs/Shapes`, `specs/Structs/Walked`, and `Shape` of `type_table`.
//!
//! ```
//! // of two parts with `%T = type { i32 }` each
//! let mut shapes = ShapeSet::new(alloc);
//! let mut walk = ShapeWalk::new(alloc, first)?;
//! let mut other_walk = ShapeWalk::new(alloc, second)?;
//! walk.struct_number(alloc, first, &mut shapes, id)? // the number of that shape in the set
//! other_walk.struct_number(alloc, second, &mut shapes, other_id)? // the same: these are one struct of the linked module
//! ```
mod walk;

pub use walk::ShapeWalk;
