//! Laws of bitcode as records: what is written of a module is read back.
//!
//! It stands on the records of `record_table` and on the laws of `record_law::bodies` and `record_law::types`. It promises the laws that
//! its calls name. Definitions: `specs/FittingEntries` says what variables and aliases must be, `specs/FittingModules` what a module must
//! be, `specs/Laws` what the laws are.
//!
//! Its modules:
//!
//! - `content`: The law of content: how records are spelled does not count.
//! - `bodies`: A body that is written is read back.
//! - `labels`: The names that a body declares are known ahead of it: they are those that are read.
//! - `types`: The block of types that is written of a module is read back.
//! - `fits`: A well-formed and valid module is one whose records are read back.
//! - `alone`: The law of records: what is written of a module spells it and no other.
//! - `formed`: The law of what is read: a module that a tree of records stands for is well formed.
//!
//! ```
//! -- of a module m that fits (`ModuleFits`)
//! tree_of begun (written_module m) -- the blocks 13, 23 and 8: the producer, the string table and the module
//! StandFor (tree_of begun (written_module m)) n -- holds of m, and of no other n
//! ```
#![tactic(auto)]

pub mod alone;
pub mod bodies;
pub mod content;
pub mod fits;
pub mod formed;
pub mod labels;
mod laws;
pub mod types;

pub use laws::{
    modules_are_read_back, openings_are_read_back, records_are_those_put,
    trees_are_read_or_refused, trees_stand_for_one,
};
