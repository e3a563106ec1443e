//! That opening a valid module needs what typed runs begin with.
//!
//! It stands on the plan of `run_rules`, the typed runs of `typed_runs`, the places of `run_rules::places` and the constants of `typed_runs::look`. It promises
//! that of a well-formed, valid module each variable has an alignment, what is stored at first is of the kind of its slot, and main has
//! the type that it is called with. What is promised is in `specs/Plan/Laws`.
//!
//! ```
//! -- of `@a = global i32 7 define i32 @main() { ret i32 0 }`
//! (plan (m ∷ [])).variables -- one, of 4 bytes and with the alignment 4
//! (plan (m ∷ [])).main -- Some, with takes_arguments = false: there is a function of the type `i32 ()`
//! ```
mod law;

pub use law::plans_are_typed;
