//! What names mean, and where symbols stand, when several parts are linked, or run together.
//!
//! It stands on `ir_base`, `ir_tables`, `type_table`, `module_arena`, `linkage_rules` and `indexmap`. It promises that each
//! name of each part is told exactly what it means, through aliases, and no other name anything; and of each symbol that is
//! defined its size, alignment and address, of commons and appended arrays those of all parts together. Definitions:
//! `specs/Resolving/Meanings` and `specs/Resolving/Places`, and `Bind` and `Addresses` of `linkage_rules`.
//!
//! ```
//! // of the parts `declare void @f()` and `define void @f() { ret void }`
//! let bindings = resolve_symbols(alloc, parts)?;
//! let meanings = bind_names(alloc, parts, &bindings)?;
//! meanings.bind(0, &name) // of `f` Some(Bound::Definition(1, GlobalId::Function(id)))
//! ```
mod absent;
mod bound;
mod extent;
mod meaning;
mod names;
mod room;
mod standing;

pub use absent::are_extern_weak;
pub use bound::Bound;
pub use meaning::symbol_behind;
pub use names::{Meanings, bind_names};
pub use room::{Room, greatest_common, greatest_stated, is_common, joined_length, room_of};
pub use standing::{PlacedVariable, PlacedVariableList, Places, place_symbols};
