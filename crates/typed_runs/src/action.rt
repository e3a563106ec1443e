//! That an instruction which passes the tests of validity comes to a typed action, class by class.
//!
//! It stands on the look-up of `run_rules`, the typed runs of `typed_runs` and the types of `typed_runs::types`. It promises that where the values of
//! an instruction have the leaves of their types, and its types and tests are in order, its action is typed.
//! Definitions: `specs/Action/Asked`; what is promised is in `specs/Action/Laws`.
//!
//! ```
//! -- of `%c = add i32 %a, %b`, the one instruction of a function with the parameters `i32 %a` and `i32 %b`
//! instruction_in sc i -- Compute 2 Add 0 32 (Held 0) (Held 1)
//! -- which is typed, since the frame has leaf.Int 32 at the places 0, 1 and 2
//! ```
mod law;

pub use law::instructions_are_typed;
