//! Shapes with the names of structs in them, each once under a number: by such numbers the structs of several modules are
//! compared (the tool `llvm-link`).
//!
//! It stands on `ir_base`, `type_table` and `indexmap`. It promises that a shape is kept under one number alone, and that what
//! has a number keeps it. Definitions: `specs/Shapes/Keys`, `specs/Shapes/Shapes`, and `Shape` of `type_table`.
//!
//! ```
//! let mut shapes = ShapeSet::new(alloc);
//! shapes.keep(Labelled { label: None, head: IrType::Int(32) })? // 0
//! shapes.keep(Labelled { label: None, head: IrType::Ptr })? // 1
//! shapes.keep(Labelled { label: None, head: IrType::Int(32) })? // 0
//! ```
mod labelled;
mod shape_set;

pub use labelled::Labelled;
pub use shape_set::ShapeSet;
