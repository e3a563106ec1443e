//! Judges the entries of a module: types, constants, variables, functions and aliases, without the bodies' paths.
//!
//! It stands on `module_arena`. `types` promises which types may be where, `constants` that a constant fits its type, `entries` the first
//! rule that an entry breaks. Definitions: `specs/Types`, `specs/Constants`, `specs/Entries`; `Valid` of `module_arena`.
//!
//! Its modules:
//!
//! - `types`: What is asked of the types of a module, and how a rule that does not hold is told.
//! - `constants`: What is asked of the constants of a module.
//! - `entries`: What is asked of variables, of aliases and of functions without their blocks, each
//!   rule by itself.
#![tactic(auto)]

pub mod constants;
pub mod entries;
pub mod types;
