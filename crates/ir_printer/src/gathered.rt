//! Bytes on their way to a sink: a fixed room before it, so that no token costs a call of it.
//!
//! It stands on the sinks of `ir_base`. Its promise: what is put is written in order, in pieces of some thousands of bytes
//! and without memory; after a write that failed nothing more is written, and the sink has taken a front of all that was
//! put. Definitions: `specs/Gathered/Told`.
//!
//! ```
//! let mut out = Gathered::new();
//! out.put(&mut sink, b"ret ");
//! out.put(&mut sink, b"void");
//! out.finish(&mut sink)?; // the sink has `ret void` now
//! ```
mod output;

pub use output::Gathered;
