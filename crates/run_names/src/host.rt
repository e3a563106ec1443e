//! What host functions do, a function each: bytes, lines and strings, the heap, copies and fills, and the intrinsics over integers.
//!
//! It stands on `ir_memory`, `ir_intrinsics`, `run_names::values` and the definitions of `run_rules`. It promises that each call answers as
//! the definition of its host function says, memory and the bytes that are written included. Definitions: `specs/Host/Answers`; `Host` of
//! `run_rules`.
//!
//! ```
//! evaluate(Intrinsic::Ctpop, 32, &[Scalar::Int(7)]) // HostAnswer::Gives(Some(outcome)): outcome.first is Scalar::Int(3)
//! ```
mod answer;
mod block;
mod counted;
mod integer;
mod range;
mod written;

pub use answer::{HostAnswer, one_leaf, refused};
pub use block::{allocate, free};
pub use counted::string_length;
pub use integer::{evaluate, operand_at};
pub use range::{copy, fill};
pub use written::{put_byte, put_line};
