//! The words of the command line, as the users of LLVM's tools write them.
//!
//! It stands on `ir_base` alone. Its promise: `read_words` answers a command exactly where the words
//! are read as that one, and a fault exactly where it is the first from the left, of one word the first
//! in the order of `UsageKind`; want of memory is the one free answer. Definitions: `specs/Tools` (each
//! tool's options), `Options` and `Roles` (what each word is), `Faults` (what is wrong), `Commands`.
//!
//! ```
//! read_words(alloc, words)
//! // of `llvm-as a.ll`: Ok(Command::Assemble { input, output }): `a.ll`, and OutputName::File(name), which is `a.bc`
//! // of `llvm-link`: Err(WordsFault::Usage { kind: UsageKind::NoFile, word: 1 })
//! // of `llvm-as -x`: Err(WordsFault::Usage { kind: UsageKind::UnknownOption, word: 1 })
//! ```
#![tactic(auto)]

mod command;
mod given;
mod number;
mod options;
mod output;
mod tool;
mod words;

pub use command::{Command, OutputName, SelectionWords, UsageKind, WordsFault};
pub use number::LARGEST_NUMBER;
pub use options::is_dash;
pub use tool::{Tool, line_name, tool_of};
pub use words::read_words;
