//! The main theorem of linking: a linked module runs as its parts do, never merged.
//!
//! It stands on the symbols that `link_rules` carries over, and on the runs of `run_rules` with the laws of `run_rules::laws`. It promises
//! that the module that is made of well-formed, valid parts without a conflict is looked up as they are, and so prints what they print
//! and ends as they do.
//! Definitions: `specs/Headline`.
//!
//! Its modules:
//!
//! - `wrong`: What a linker may not make: for each of some mistakes, parts whose module with that
//!   mistake runs otherwise than they do.
//!
//! ```
//! -- of `@v = internal global i32 1` and `@v = internal global i32 2 define i32 @main() { %1 = load i32, ptr @v ret i32 %1 }`
//! Side parts [] [] 100 -- record { output = []; end = Exit 2 }: each name is looked up in its part
//! Side (link_result parts ∷ []) [] [] 100 -- the same: the load is of `@v.1` there
//! ```
#![tactic(auto)]

mod law;
pub mod wrong;

pub use law::linking_is_right;
