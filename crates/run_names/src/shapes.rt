//! The shapes of the types of a table by their ids: what they are but for their parts, their layouts, and their parts.
//!
//! It stands on `type_table` and the leaves of `run_rules`. It promises that widths, layouts, elements, fields and offsets
//! are those of the types written out through the bodies of their structs. Definitions: `specs/Shapes/Shapes`; `Shape` and `Layout` of
//! `type_table`, `Leaves` of `run_rules`.
//!
//! ```
//! form_of(types, ty) // of `[2 x i32]` TypeForm::Array(2)
//! parts(types, ty) // the one type `i32`
//! layout_of(types, ty) // Layout { size: 8, align: 4, leaves: 2 }
//! ```
mod form;
mod part;

pub use form::{TypeForm, form_of, layout_of, parts, width};
pub use part::{element, element_offset, elements, is_struct};
