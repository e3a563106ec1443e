//! That the bodies of a valid module give what typed actions need.
//!
//! It stands on the validity of `module_arena`, the constants and locals of `typed_runs::look`, and what `typed_runs::action` and `typed_runs::edge` ask. It
//! promises that in a function of a well-formed, valid module each value has the leaves of its type, each result has its place, and each
//! instruction and end passes what is asked of it. What is promised is in `specs/Body/Laws`.
//!
//! ```
//! -- of `define i32 @f(i32 %a) { ret i32 %a }`
//! operand_in sc value -- of `i32 %a`: Held 0 ∷ [], and the kinds of the function's frame are leaf.Int 32 ∷ []
//! ending_suits f ending -- true: the type of the value is that of the function
//! ```
mod law;

pub use law::bodies_are_asked;
