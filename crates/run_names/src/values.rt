//! Whole values in the memory of a run: leaves that lie behind one another, strings, allocas that end, and room for a block.
//!
//! It stands on `ir_memory`, `ir_eval` and the definitions of `run_rules` and `typed_runs`. It promises that a value is loaded and
//! stored leaf by leaf as a run's load and store are defined, that what few steps tell of one integer is that too, that the bytes of
//! a string are those before its first zero, and that no want of memory is told where there was room. Definitions: `specs/Values/Answer`,
//! `specs/Values/Strings`; `Access` and `Printing` of `run_rules`.
//!
//! ```
//! block_size(&memory, 3, 8) // Some(24), where so many more bytes may live
//!
//! let slots = [Slot::new(0, Leaf::Int(8)), Slot::new(4, Leaf::Int(32))]; // those of `{ i8, i32 }`
//! store_value(&mut memory, address, 4, &slots, &[Scalar::Int(1), Scalar::Int(2)])?;
//! load_value(&memory, address, 4, &slots, &mut leaves)?; // adds Scalar::Int(1) and Scalar::Int(2)
//!
//! plain_string(&memory, pointer) // Some(b"many"), where these bytes and a zero lie in a block that has only bytes
//! ```
mod alloca;
mod displaced;
mod load;
mod room;
mod slot;
mod store;
mod string;

pub use alloca::release;
pub use load::{load_leaf, load_plain, load_value};
pub use room::{block_size, has_room};
pub use slot::Slot;
pub use store::{store_leaf, store_plain, store_value};
pub use string::{plain_string, push_string};
