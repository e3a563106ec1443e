//! What is asked of variables, of aliases and of functions without their blocks, each rule by itself.
//!
//! It stands on `ir_base`, `ir_tables`, `type_table`, `module_arena`, `entry_verify::types` and `entry_verify::constants`. It promises that each test
//! is that of the definitions on the module that the arena stands for. The tests stand in `module_arena`, `specs/EntryRules`; how they
//! are read by ids, in `specs/Entries/Readings` and `Constructors`.
//!
//! ```
//! linkage_suits(false, Linkage::Internal) // false: a declaration is external or extern_weak
//! linkage_suits(true, Linkage::Internal) // true
//! alignment_suits(Some(24)) // false: no power of two
//! alignment_suits(Some(65_536)) // true
//! is_lasting(Linkage::Weak) // false: no alias is weak, nor of what is weak
//! ```
mod initialisers;
mod linkages;
mod llvm_lists;
mod targets;
mod types;

pub use initialisers::{
    appending_suits, common_suits, initialiser_fits, initialiser_takes_no_intrinsic,
    variable_types_suit,
};
pub use linkages::{alignment_suits, is_appending, is_common, is_lasting, linkage_suits};
pub use llvm_lists::variable_name_suits;
pub use targets::{alias_names_suit, alias_suits, function_name_suits};
pub use types::{alias_types_suit, are_passable, function_types_suit, return_suits};
