//! What is asked of a function of a module before it is run holds in a checked module: laws alone.
//!
//! It stands on the validity of `module_arena`, the constants of `run_initial::constants`, the scopes of `run_decode::scopes` and what `run_decode::operands` asks of a
//! body. It promises that in a well-formed, valid module each function's parameters and results are values, that the entries of its phis
//! are its own, and that its instructions and ends are what decoding asks for.
//! Definitions: `specs/Suits/Laws`; `Places` and `Ways` of `run_decode::scopes`, `Suits` of `run_decode::operands`.
//!
//! ```
//! -- of `define i32 @f(i32 %a) { ret i32 %a }` in a well-formed, valid module
//! HasValues lists function -- `%a` is a value of one leaf, and so can be placed in a frame
//! AllSuit s -- `%a` of its end is a value of the function, so the end can be decoded
//! ```
mod law;

pub use law::{functions_of_a_checked_module_have_values, functions_of_a_checked_module_suit};
