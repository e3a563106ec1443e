//! Function types under numbers: those that a run of a module has met, each once.
//!
//! It stands on the types of `type_table`, the modules of `module_arena` and the pools of `run_decode::flat`. It promises that two function types
//! have one number exactly where they have one shape, and that each keeps its number. Definitions: `specs/Signatures/Met`; `specs/Signatures/Numbers`, the calls
//! of a body under their numbers; `Calls` of `run_rules`.
//!
//! ```
//! // of the function types `i32 (ptr)` and `i32 ()`
//! let mut signatures = Signatures::new(alloc, &checked);
//! signatures.number(word, &[pointer], false)? // 0
//! signatures.number(word, &[], false)? // 1
//! signatures.number(word, &[pointer], false)? // 0: it was met
//! signatures.is_same(0, 1) // false
//! ```
mod alike;
mod signatures;
mod written;

pub use signatures::Signatures;
