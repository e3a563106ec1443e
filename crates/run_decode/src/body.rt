//! The body of a function, decoded: each instruction as a flat action at its place, with the pools into which actions point.
//!
//! It stands on the pools of `run_decode::flat`. It promises that the action at each place of a block is the one that was put there, that all it
//! points to is there, and that no edge sets more leaves than is told. Definitions: `specs/Body/Bodies`; `Flat` of `run_decode::flat`.
//!
//! ```
//! // of `define void @f() { ret void }`
//! let body = ActionBody::new(program, pools, actions, rows);
//! body.action(0, 0) // Action::Return { value }, with an empty span
//! body.widest() // 0: there is no edge
//! ```
mod body;
mod widest;

pub use body::ActionBody;
