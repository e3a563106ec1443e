//! The named structs of an arena, made again in an empty one under the same ids and names.
//!
//! It stands on `entry_copy` and `item_build`. It promises that the new module has the structs of the old one and is else what
//! it was, that the types which they name are copied, and that only memory may be wanting. Definitions: `Copies` of
//! `entry_copy`, `Partly` and `Named` of `item_build`.
//!
//! ```
//! let mut copier = Copier::new(alloc, Vec::new(alloc));
//! let mut builder = Builder::new(alloc);
//! copy_structs(&mut copier, alloc, &old, &mut builder)?;
//! builder.arena.types().struct_name(StructId::new(0)) // `pair`, where `old` has `%pair = type { i8, i32 }` first
//!
//! behind_body(9, &body) // 4, where the fields are the types 0 and 3: the first four types make all of them
//! ```
mod behind;
mod defining;
mod naming;

pub use behind::behind_body;
pub use defining::copy_structs;
