//! The whole program, over whatever it reads and writes.
//!
//! It stands on every layer below. Its promise is the contract of `run_tool`, the call that `main` makes over the
//! process's own streams: what is answered, what is read and what is written, for any source and sink.
//! Definitions: `specs/Headline` for what linking promises, `specs/Ends` for all else that a run does, over what `specs/World` names: `specs/Told` for the
//! meaning of an answer, `specs/Made` and `specs/Output` for what is written, `specs/Running` for programs that are run; `specs/Laws` for inputs and ends,
//! `specs/Ended` of `tool_output::ends` for the line and the status.
//!
//! ```
//! // of the words `llvm-as`, `a.ll`, where the file `a.ll` has `define i32 @main() { ret i32 3 }`
//! let report = run_tool(alloc, &words, &mut files, &mut input, &mut output, &mut errors);
//! report.status // 0, and the file `a.bc` has the bitcode of that module
//! // of the words `lli` and `a.ll` it would be 3, what the program ends with
//! ```
#![tactic(auto)]

mod analysis;
mod assembling;
mod bitcode;
mod delivery;
mod disassembling;
mod entity;
mod extraction;
mod inputs;
mod laws;
mod linking;
mod parts;
mod running;
mod tool_run;
mod work;

pub use command_line::{Command, WordsFault, read_words};
pub use laws::{accepted_is_not_refused, inputs_are_readable, one_end};
pub use tool_output::ends::{Ended, Report};
pub use tool_run::{end_without_words, run_tool};
