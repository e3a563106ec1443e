//! What passes between a run and those who call it: the bytes of a step on their way out and in, and the end or fault that is kept.
//!
//! It stands on the bytes that wait in `run_rules::traffic`, the frames of `run_actions::stack`, and on `run_actions::ends`, which tells the ends that a run can
//! have. It promises that output is written before input is read, that a failed read or write is told as what it is, and that what was
//! answered once can be answered again, word for word. Definitions: `specs/Passing/Traffic`, `specs/Passing/Told`.
//!
//! ```
//! put(&mut held, b"a", &mut sink)?; // the sink may not have it yet
//! finish(End::Exit(3), &mut held, &mut sink)? // End::Exit(3), and now it has
//!
//! let told = ToldEnd::of_run(&Ok(End::Exit(3)));
//! told.answer() // Ok(End::Exit(3)), as often as it is asked
//! ```
mod told;
mod traffic;

pub use told::ToldEnd;
pub use traffic::{finish, flush, get, put};
