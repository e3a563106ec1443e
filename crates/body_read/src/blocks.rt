//! The records of a body, one by one, read into an arena in the making.
//!
//! It stands on `body_read::calls`, `body_read::endings` and `body_read::names`. It promises that each record is read as its layout says, that what
//! is read stays what it is while constants are added, and that a record that breaks a rule is refused by the least that it
//! breaks. Definitions: `Bodies` of `record_table`, and `specs/Blocks/Begun`.
//!
//! ```
//! // of the body of `define i32 @f(i32 %a) { ret i32 %a }`, record by record
//! let mut body = Begun::new(alloc);
//! read_parameters(&mut m, &texts, &mut body, 1)?; // PARAMS: `a`
//! read_block(&mut m, &texts, &mut body)?; // BLOCK: a number for a name
//! read_end(&mut m, &mut body, Opcode::Ret)?; // `ret i32 %a`
//! let body = body.finish(); // one block
//! ```
mod begun;
mod records;

pub use begun::{Begun, BodyDue};
pub use records::{read_block, read_end, read_line, read_parameters};
