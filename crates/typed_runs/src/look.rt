//! Look-up in a valid module gives what typed runs ask for: the callees.
//!
//! It stands on the typed runs of `typed_runs`, and on the validity of `module_arena`. It promises that each address of a
//! well-formed, valid module has a typed callee. Its `proofs` have constants, locals and operands, on which `typed_runs::body`
//! stands.
//! Definitions: `specs/Look/Typings`; what is promised is in `specs/Look/Laws`.
//!
//! ```
//! -- of `define i32 @f(ptr %p) { %1 = load i32, ptr %p ret i32 %1 }`, the one function symbol
//! (typing_of (m ∷ [])).kinds 0 -- leaf.Ptr ∷ leaf.Int 32 ∷ []: the leaves of its frame, the parameter's and the result's
//! (typing_of (m ∷ [])).gives 0 -- leaf.Int 32 ∷ []
//! ```
mod law;

pub use law::what_an_address_has_is_typed;
