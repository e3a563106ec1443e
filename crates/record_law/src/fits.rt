//! A well-formed and valid module is one whose records are read back.
//!
//! It stands on the laws of `record_law::types` and `record_law`. It promises that such a module fits, and so is what the tree that is written of it
//! stands for. Definitions: `ModuleFits` of `record_law`, and `specs/Fits/Laws` what the laws are.
//!
//! ```
//! -- of `define void @f() { ret void }`, as of each module that is well formed and valid
//! ModuleFits m -- holds
//! StandFor (tree_of begun (written_module m)) m -- and so this does
//! ```
mod laws;

pub use laws::{modules_fit, written_trees_stand};
