//! What the names in a function stand for in a run of its module alone: where its parameters and results stand in a frame, and where the
//! leaves of its operands are had from.
//!
//! It stands on the names of `run_names`, the constants of `run_initial::constants` and the types of `run_names::types`. It promises that each parameter
//! and each result has the places in a frame that the definition of scopes gives, and that the leaves of each operand are had from exactly
//! where that definition says. Definitions: `specs/Scopes/Scopes`, what the ids of a function are; `specs/Scopes/Places`; `FunctionScope` of `run_rules`.
//!
//! ```
//! // of `define i32 @f(ptr %p, i32 %a) { ret i32 %a }`
//! let scope = FunctionScope::new(alloc, &names, id)?;
//! scope.leaves() // 2
//! scope.bounds(second) // (1, 2): the leaf of `%a` stands at place 1
//! operand_leaf(&scope, operand) // of `i32 %a` Origin::Held(1), of `i32 7` Origin::Known(Scalar::Int(7))
//! ```
mod leaves;
mod parts;
mod places;
mod scope;
mod ways;

pub use leaves::{callee_leaf, operand_leaf, push_operands, push_value};
pub use parts::{push_extracted, push_inserted};
pub use places::{leaves_given, leaves_of};
pub use scope::FunctionScope;
pub use ways::push_way;
