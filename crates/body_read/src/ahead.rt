//! What is known ahead of a body: how many values and blocks it has, and what its parameters are called.
//!
//! It stands on `record_read` and `body_read::names`, and is read before the lines are, since these name what stands behind them. It
//! promises the counts of what `Bodies` of `record_table` gathers, and the names of a first record that breaks no rule.
//! Definitions: `Bodies` of `record_table`, and `specs/Ahead/Ahead`.
//!
//! ```
//! opcode_of(11) // Some(Opcode::Add): its code and 10
//! opcode_of(2) // None: BLOCK is no line
//!
//! // of the body of `define i32 @f(i32 %a) { %b = add i32 %a, 1 ret i32 %b }`
//! let ahead = gather_body(&mut reader, alloc, &texts, 1, &voids)?; // two values, one block, and the name `a`
//! ```
mod ahead;
mod giving;
mod parameters;

pub use ahead::{BodyAhead, gather_body};
pub use giving::opcode_of;
