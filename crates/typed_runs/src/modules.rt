//! That a valid module is typed.
//!
//! It stands on the callees of `typed_runs::look`, the bodies of `typed_runs::body` and the plan of `typed_runs::plan`. It promises that each action and each callee
//! of a well-formed, valid module is typed, and its plan too. So each state of its runs is typed: what a machine hands to `ir_eval` and
//! `ir_memory` is what they ask for. What is promised is in `specs/Modules/Laws`.
//!
//! ```
//! -- of `define i32 @main() { ret i32 3 }`
//! look (m ∷ []) 0 0 0 -- Return (Known (Int 3) ∷ [])
//! (typing_of (m ∷ [])).gives 0 -- leaf.Int 32 ∷ [], and 3 < 2 ^ 32
//! ```
mod law;

pub use law::{a_valid_module_is_typed, runs_of_a_valid_module_are_typed};
