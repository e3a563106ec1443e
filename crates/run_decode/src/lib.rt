//! The bodies of functions, decoded once: each instruction as a flat action, with its names looked up and its types laid out.
//!
//! It stands on the operands, ways, terms, arms and ends that `run_decode::operands` put into the pools of a body, and
//! on the laws of `run_decode::suits`. It promises that the action at each place of a function is exactly what look-up finds there in a run of the
//! module alone, and that each call has the number of its function type. Definitions: `specs/Operations`, `specs/Calls`, `specs/Rows`;
//! `Look`, `Resolve` of `run_rules`.
//!
//! Its modules:
//!
//! - `scopes`: What the names in a function stand for in a run of its module alone: where its
//!   parameters and results stand in a frame, and where the leaves of its operands are had from.
//! - `flat`: The flat form of a function's body: what each instruction comes to once each name,
//!   type and layout in it is known, with its lists in pools into which it points.
//! - `signatures`: Function types under numbers: those that a run of a module has met, each once.
//! - `body`: The body of a function, decoded: each instruction as a flat action at its place, with
//!   the pools into which actions point.
//! - `operands`: What the actions of a function's body point to: leaves that are known, where
//!   leaves are had from, slots, ways into blocks, the terms of `getelementptr`, what `select` and
//!   `freeze` choose from, and the ends of blocks.
//! - `suits`: What is asked of a function of a module before it is run holds in a checked module:
//!   laws alone.
//!
//! ```
//! // of `define void @f() { ret void }`
//! let names = names_of(alloc, &checked)?;
//! let mut signatures = Signatures::new(alloc, &checked);
//! let body = decode(alloc, &names, &mut signatures, id)?;
//! body.action(0, 0) // Action::Return { value }, with an empty span
//! ```
#![tactic(auto)]

mod bodies;
pub mod body;
mod calls;
pub mod flat;
mod instructions;
mod memory;
pub mod operands;
mod operations;
pub mod scopes;
pub mod signatures;
pub mod suits;

pub use bodies::decode;
