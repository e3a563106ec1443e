//! The flat form of a function's body: what each instruction comes to once each name, type and layout in it is known, with its lists in
//! pools into which it points.
//!
//! It stands on the origins and moves of `run_actions::stack`, the slots of `run_names::values`, and the ways, arms and parts of `run_actions`. It promises
//! that pools only grow, so that what stands in them stands there still, and that an action takes at most 40 bytes. Definitions: `specs/Flat/Flat`,
//! what a flat action is; `specs/Flat/Grown`, what stands where; `specs/Flat/Spans`.
//!
//! ```
//! let mut pool = Pool::new(alloc);
//! pool.push(Scalar::Int(7))? // 0
//! let span = pool.append(&[Scalar::Int(8), Scalar::Poison])?; // Span { first: 1, count: 2 }
//! pool.in_span(span) // Scalar::Int(8) and Scalar::Poison
//! ```
mod action;
mod leaf;
mod pool;
mod pools;

pub use action::{Action, CallParts, TERMS, Term};
pub use leaf::{LeafAt, NOTHING, Span};
pub use pool::{Pool, numbered};
pub use pools::Pools;
