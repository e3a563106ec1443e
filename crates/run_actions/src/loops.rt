//! The run of whatever makes steps: one after another, to an end or a fault, or until no step is left.
//!
//! It stands on the clauses of `run_rules` and on the laws of `run_rules::laws`. It promises that steps, each as the clause of `step` says,
//! and a halt behind the last make a run as the clause of `run` says: its end, its output, and output before input.
//! Definitions: `specs/Loops/Halts`, `specs/Loops/Stretches`, and `Clauses` and `RunClauses` of `run_rules`.
//!
//! ```
//! // of a machine that has made no step, and whose tenth step is a call of `exit(3)`
//! run(&mut machine, 100, &mut input, &mut output)? // End::Exit(3), which that step gives
//! // with the bound 5 it would be End::StepsUsed, which `halt` gives
//! ```
mod stepping;

pub use stepping::{STEP_LIMIT, Stepping, run};
