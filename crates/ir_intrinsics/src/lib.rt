//! The intrinsics over integers: what each gives at each width.
//!
//! It stands on the leaves and the widths of `ir_eval` and the names of `ir_tables`. Its promise: `apply` gives what
//! the definition says on whole numbers without bound, at every width from 1 to 128, poison where an operand is
//! poison, and results of their widths; nothing takes memory. Definition: `specs/Results`.
//!
//! ```
//! let zero = Scalar::Int(0); // in the place of an operand that is not there
//! apply(Intrinsic::Ctpop, 8, Scalar::Int(11), zero, zero).first // Scalar::Int(3)
//! apply(Intrinsic::Umax, 8, Scalar::Int(3), Scalar::Int(200), zero).first // Scalar::Int(200)
//! let sum = apply(Intrinsic::UaddWithOverflow, 8, Scalar::Int(250), Scalar::Int(7), zero);
//! // sum.first is Scalar::Int(1), and sum.second is Some(Scalar::Int(1))
//! ```
#![tactic(auto)]

mod absolute;
mod asked;
mod count;
mod funnel;
mod outcome;
mod overflow;
mod reverse;
mod saturate;
mod table;

pub use outcome::Outcome;
pub use table::apply;
