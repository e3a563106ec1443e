//! What the names of one module mean in a run of it: addresses of its globals, and what stands at an address.
//!
//! It stands on `ir_tables`, `type_table`, `module_arena`, `ir_eval`, and the definitions of `linkage_rules` and `run_rules`.
//! It promises, for a checked module alone, exactly the addresses, bounds, and callees that look-up defines; all is
//! found by numbers, and building is linear in the module. Definitions: `specs/Told`, `Standings`, `Spots`; `Look`, `Plan` of `run_rules`.
//!
//! Its modules:
//!
//! - `entry`: The function that a run of one module begins with.
//! - `values`: Whole values in the memory of a run: leaves that lie behind one another, strings,
//!   allocas that end, and room for a block.
//! - `host`: What host functions do, a function each: bytes, lines and strings, the heap, copies
//!   and fills, and the intrinsics over integers.
//! - `shapes`: The shapes of the types of a table by their ids: what they are but for their parts,
//!   their layouts, and their parts.
//! - `types`: What a run asks of types beyond their form: the part of a value to which indices
//!   lead, whether the function type of a call is one of a host function's, and which argument is
//!   one leaf.
//!
//! ```
//! let names = names_of(alloc, &checked)?; // of `@a = global i32 7`
//! names.spots() // one Spot, that of the variable, of 4 bytes
//! names.callee(0) // CalleeRef::Nothing: no function has that address
//! ```
#![tactic(auto)]

mod callee;
pub mod entry;
pub mod host;
mod names;
pub mod shapes;
mod spot;
mod standing;
pub mod types;
pub mod values;

pub use callee::{CalleeRef, function_address};
pub use names::{Names, names_of};
pub use spot::Spot;
pub use standing::is_definition;
