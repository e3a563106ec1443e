//! Memory as it is at first: the blocks of variables, and what variables hold.
//!
//! It stands on the names of `run_names`, the constants that `run_initial::initial` puts, and `ir_memory`. It promises, for a checked module run
//! alone, exactly the blocks and the contents that the definition of opening gives; it is refused for want of memory alone. Definitions:
//! `specs/Contents/Placed`, `specs/Contents/Held`; `Opening` and `Plan` of `run_rules`.
//!
//! ```
//! // of `@a = global i32 7`
//! let names = names_of(alloc, &checked)?;
//! let mut memory = Memory::new(alloc);
//! place_variables(&mut memory, &names)? // true: `@a` has a block of 4 bytes
//! put_contents(&names, &mut memory)?; // and 7 stands in it
//! ```
mod contents;
mod variables;

pub use contents::put_contents;
pub use variables::place_variables;
