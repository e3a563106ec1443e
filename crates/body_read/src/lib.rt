//! The body of a function, from its block.
//!
//! It stands on `body_read::blocks`, and reads with what `body_read::ahead` counted. It promises that a body of the arena is the one that
//! its records stand for, or that the first record that breaks a rule is told with the least that it breaks. Definitions:
//! `Bodies` of `record_table`, and `specs/Whole`.
//!
//! Its modules:
//!
//! - `constants`: Constants as records have them, read into an arena in the making.
//! - `operands`: What instructions work on, out of the operands of records: types, values behind
//!   their types, and lists of both.
//! - `endings`: The ends of blocks out of the records of a body, read into an arena in the making.
//! - `lines`: Instructions that are no calls, out of the records of a body, read into an arena in
//!   the making.
//! - `calls`: Calls, and any instruction by its opcode, out of the records of a body, read into an
//!   arena in the making.
//! - `names`: What parameters, blocks and results of a body are called, as its records say.
//! - `ahead`: What is known ahead of a body: how many values and blocks it has, and what its
//!   parameters are called.
//! - `blocks`: The records of a body, one by one, read into an arena in the making.
//!
//! ```
//! // where the reader stands in the block of the body of `define i32 @f(i32 %a) { ret i32 %a }`
//! let body = read_body(&mut m, &texts, 1)?; // one block, which ends in `ret i32 %a`
//! ```
#![tactic(auto)]

pub mod ahead;
pub mod blocks;
mod body;
pub mod calls;
pub mod constants;
pub mod endings;
pub mod lines;
pub mod names;
pub mod operands;
mod records;

pub use body::read_body;
