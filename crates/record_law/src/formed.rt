//! The law of what is read: a module that a tree of records stands for is well formed.
//!
//! It stands on the definitions of `record_table` and on the law of labels, and names no code of the reader. Definitions: `Records` of
//! `record_table`, `WellFormed` of `module_arena`, and `specs/Formed/Laws`.
//!
//! ```
//! -- of a tree with the records of two variables, both of the name `a`
//! StandFor tree m -- holds of no m, since the second breaks rule 4: a name that is there already
//! -- so in a module that a tree stands for no two variables have one name
//! ```
mod laws;

pub use laws::trees_stand_for_well_formed;
