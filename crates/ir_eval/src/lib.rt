//! The scalar instructions over integers and pointers, with poison and undefined behaviour by name.
//!
//! It stands on the opcodes, predicates, flags and kinds of `ir_tables`. Its promise: each call gives
//! what the definition says on whole numbers without bound, at every width from 1 to 128, and refuses
//! exactly where the result is undefined; nothing takes memory. Definitions: `specs/Value`, `specs/Operators`
//! and a file for each group of instructions.
//!
//! ```
//! let none = Flags::empty();
//! binary(Opcode::Add, none, 8, Scalar::Int(250), Scalar::Int(7)) // Ok(Scalar::Int(1))
//! binary(Opcode::Add, none.with(Flag::Nuw), 8, Scalar::Int(250), Scalar::Int(7)) // Ok(Scalar::Poison)
//! binary(Opcode::UDiv, none, 8, Scalar::Int(1), Scalar::Int(0)) // Err(UndefinedKind::DivisionByZero)
//! compare(Predicate::Slt, false, 8, Scalar::Int(255), Scalar::Int(1)) // Scalar::Int(1): -1 is below 1
//! ```
#![tactic(auto)]

mod arithmetic;
mod bitwise;
mod choice;
mod comparison;
mod conversion;
mod division;
mod fitting;
mod operator;
mod shift;
mod short;
mod value;
pub mod width;

pub use choice::{freeze, select};
pub use comparison::compare;
pub use conversion::cast;
pub use operator::binary;
pub use value::{Pointer, Scalar};
