//! The slots of a type: its leaves in order, and where they lie in memory.
//!
//! It stands on the shapes of `run_names::shapes` and the slots of `run_names::values`. It promises that the slots of a value are those that the
//! definition of leaves gives, from any offset on. Definitions: `Leaves` of `run_rules`.
//!
//! ```
//! push_slots(types, ty, 0, &mut slots)?; // of `{ i8, i32 }` Slot::new(0, Leaf::Int(8)) and Slot::new(4, Leaf::Int(32))
//! start_of(false, 1, 4) // 4
//! start_of(true, 1, 4) // 1: there are no gaps in what is packed
//! ```
mod slots;

pub use slots::{push_slots, start_of};
