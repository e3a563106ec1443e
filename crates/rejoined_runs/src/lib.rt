//! Linking in two goes: the module that is made of some parts, linked with others, against all
//! parts linked at once; and the two halves of a module that is cut.
//!
//! It stands on the symbols that `link_rules` carries over, on the laws of `linked_runs`, on the
//! extraction of `extract_rules`, and on the runs of `run_rules`. It promises that a conflict is
//! reported in two goes exactly where one is reported at once, of the same kind and name; that each
//! symbol keeps its place, its definition and its meaning; and that the parts print the same and
//! end the same way, linked in two goes or at once. What is extracted of a module and what is left
//! have no conflict.
//! Definitions: `specs/Regrouped`, `Conflicts`, `Regroups`, `Runs`; of halves `Halves`.
//!
//! ```
//! -- of `@v = internal global i32 1`, `@v = internal global i32 2` and `@v = global i32 3`, where
//! -- the first two were linked before
//! regrouped a b -- `@v = internal global i32 1 @v.1 = internal global i32 2`, `@v = global i32 3`
//! symbol_after a (Local 1 (codes "v")) -- Local 0 (codes "v.1")
//! part_after 2 2 -- 1: the third part is now the second
//! ```
#![tactic(auto)]

mod law;

pub use law::{split_modules_link_again, two_goes_link_as_one};
