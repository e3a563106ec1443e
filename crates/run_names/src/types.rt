//! What a run asks of types beyond their form: the part of a value to which indices lead, whether the function type of a call is one
//! of a host function's, and which argument is one leaf.
//!
//! It stands on the forms of types of `run_names::shapes` and the rows of `module_arena`. It promises the answers of the definitions of
//! `run_rules`, where the name of a struct stands for its body. Definitions: `specs/Types/Wanted`; `Calls`, `Leaves`,
//! `Look` of `run_rules`.
//!
//! ```
//! part_of(types, whole, &[1]) // of `{ i8, [2 x i32] }` the part `[2 x i32]`, with one leaf before it
//! only_leaf(types, ty) // of `ptr` Some(Leaf::Ptr), of `[2 x i32]` None
//! fits_row(types, HostRow::Putchar, word, &[word], false) // true, where `word` is `i32`
//! ```
mod part;
mod row;
mod wanted;

pub use part::{ValuePart, part_of};
pub use row::fits_row;
pub use wanted::only_leaf;
