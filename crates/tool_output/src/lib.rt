//! What the tools put out: a module, as text or as bitcode, where it goes.
//!
//! It stands on `ir_printer` and `bitcode_write`, and on the names of outputs of `command_line`. It promises that the result is put whole where it goes; that, where a write failed, a front of it is there at most, and the output is told; that else
//! nothing changes, and nowhere anything beside; and that where memory ran out nothing was written.
//! Definitions: `specs/Written` (the bytes of a module), `specs/Outputs` (what outputs
//! have), `specs/Writing` (what is answered).
//!
//! Its modules:
//!
//! - `ends`: What a run of a tool ended with: its status, and the one line that tells it on
//!   standard error.
//!
//! ```
//! write_module(alloc, OutputFormat::CanonicalText, &OutputName::Standard, &checked, &mut files, &mut sink)?;
//! // the sink has the canonical text of the module now
//! ```
#![tactic(auto)]

pub mod ends;
mod fault;
mod format;
mod writing;

pub use fault::OutputFault;
pub use format::OutputFormat;
pub use writing::write_module;
