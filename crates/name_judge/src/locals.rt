//! Judges the functions that a text defines: tells the first demand, in the order of the text, that does not hold.
//!
//! It stands on the judges of types and constants of `type_judge` and on the rules of `name_rules`. It promises, want
//! of memory aside, that an answer is Ok exactly where each demand holds, and else the refusal of the first that does not.
//! Definitions: `specs/Locals/Names`, `specs/Locals/Calling`, `specs/Locals/Literals`; the demands are those of `name_rules`,
//! `specs/FunctionDemands`.
//!
//! ```
//! // `definition` is the one item of the text `define i32 @f(i32 %x) { ret i32 %y }`.
//! let known = Known::of_items(alloc, &items)?;
//! let mut tables = LocalTables::new(alloc); // for this function and those behind it
//! check_definition(alloc, &known, &mut tables, &definition.parameters, &definition.blocks) // an unknown name, `%y`, at 1:33
//! ```
mod called;
mod endings;
mod functions;
mod gathered;
mod kind_names;
mod literals;
mod local_names;
mod operands;
mod operations;
mod passing;
mod results;
mod tables;

pub use functions::check_definition;
pub use tables::LocalTables;
