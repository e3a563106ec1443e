//! The types of a module and its named structs, under typed ids: their layouts, field offsets and shapes.
//!
//! It stands on `ir_base` and `indexmap`. It promises that a layout, an offset and whether two shapes are equal are
//! those of the types written out through the bodies of their structs, that no type of a table is past the limits
//! on nesting, parts and size, and that a change is refused exactly where it would make one so.
//! Definitions: `specs/Tree`, `Shape`, `Layout`, `Contains`, `Limits`, `Types`, `Measures` and `Keys`.
//!
//! Its modules:
//!
//! - `names`: What the names of a text stand for: a table from names, which are borrowed from the
//!   items, to values.
//!
//! ```
//! let mut table = TypeTable::new(alloc);
//! let byte = table.add(IrType::Int(8))?;
//! let word = table.add(IrType::Int(32))?;
//! let mut fields = TypeList::new(alloc);
//! fields.push(byte)?;
//! fields.push(word)?;
//! let pair = table.add(IrType::Struct(false, fields))?; // { i8, i32 }
//! table.layout(pair) // Some(Layout { size: 8, align: 4, leaves: 2 })
//! table.offset(pair, 1) // Some(4)
//! ```
#![tactic(auto)]

mod fault;
mod ids;
mod ir_type;
mod layout;
mod measure;
pub mod names;
mod outline;
mod settle;
mod structs;
mod table;

pub use fault::TypeFault;
pub use ids::{StructId, TypeId};
pub use ir_type::{IrType, StructBody, TypeList};
pub use layout::Layout;
pub use measure::{Measure, NESTING_LIMIT, PARTS_LIMIT, SIZE_LIMIT};
pub use table::TypeTable;
