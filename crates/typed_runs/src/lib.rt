//! Typed runs: what is asked of actions so that they can be carried out, and that it holds at each step.
//!
//! It stands on the runs of `run_rules` and the places of `run_rules::places`. It promises that a run of a typed program stays typed, from
//! its opening on; so what a machine hands to `ir_eval` and `ir_memory` is what they ask for.
//! Definitions: `specs/Kinds`, `specs/Actions`, `specs/States`, `specs/Plans`; what is promised is in `specs/Laws`.
//!
//! Its modules:
//!
//! - `look`: Look-up in a valid module gives what typed runs ask for: the callees.
//! - `types`: What the types of a well-formed module give a run: leaves of widths that there are,
//!   alignments, and fields that lie within reach.
//! - `action`: That an instruction which passes the tests of validity comes to a typed action,
//!   class by class.
//! - `edge`: That the ends of blocks come to typed actions, and edges give phis leaves of their
//!   kinds.
//! - `body`: That the bodies of a valid module give what typed actions need.
//! - `plan`: That opening a valid module needs what typed runs begin with.
//! - `modules`: That a valid module is typed.
//!
//! ```
//! kinds_of shape -- of `{ i8, ptr }`: leaf.Int 8 ∷ leaf.Ptr ∷ []
//! IsNumberOf 255 (leaf.Int 8) -- holds, since 255 < 2 ^ 8
//! IsNumberOf 256 (leaf.Int 8) -- does not hold
//! ```
#![tactic(auto)]

pub mod action;
pub mod body;
pub mod edge;
mod law;
pub mod look;
pub mod modules;
pub mod plan;
pub mod types;

pub use law::{opening_is_typed, steps_stay_typed};
