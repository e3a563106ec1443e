//! The function that a run of one module begins with.
//!
//! It stands on `run_names`, `module_arena` and the definitions of `run_rules`. It promises, for a checked module alone, exactly the main
//! that `main_in` of `run_rules` defines: the function that the name `main` is bound to, if a run can enter it. Definitions:
//! `specs/Entry/Mains`; `Plan` of `run_rules`.
//!
//! ```
//! main_of(alloc, &checked)? // of `define i32 @main() { ret i32 0 }` Some(main), of a module without `@main` None
//! ```
mod main_function;

pub use main_function::{MainFunction, main_of};
