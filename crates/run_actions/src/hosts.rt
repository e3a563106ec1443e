//! The calls of host functions: by a row of the host table, its arguments and memory.
//!
//! It stands on `run_names::host`, which has the host functions one by one, on `ir_printf`, and on the definitions of `run_rules`. It promises
//! that a call by one of the row's types answers as `host` says: the result, memory, the bytes that are written, the byte that is
//! asked for, and how the run ends. Definitions: `specs/Hosts/Made`, `Taken`, `Pieces`, `Printing`; `Host`, `Printing` of `run_rules`.
//!
//! ```
//! let kinds = ArgumentKinds::new(types, shapes); // of the one type `i32`
//! call(alloc, HostRow::Putchar, &kinds, &[Scalar::Int(353)], &mut memory, &mut written)?
//! // HostAnswer::Gives(Some(outcome)): outcome.first is Scalar::Int(97), and `a` was added to `written`
//! ```
mod argument;
mod conversion;
mod kinds;
mod pattern;
mod print;
mod row;

pub use kinds::ArgumentKinds;
pub use row::call;
