//! Laws of runs: how a run is made of steps.
//!
//! It stands on the runs and machines of `run_rules`. It promises that steps which are as the clause of a machine's `step` says
//! make up a run as the clause of its `run` says, output before input.
//! Definitions: `specs/Laws/Laws`.
//!
//! ```
//! -- a run whose third step ends it, under a bound of 3 or more, by the fields of `StepsMakeUpARun`:
//! none -- before the first step: IsWithin bound 0 ..
//! more -- after one that goes on (Stepped): IsWithin bound 1 .., and after the second IsWithin bound 2 ..
//! ends -- the third (Ended): RunEnds bound end .., as the clause of `run` says it
//! ```
mod law;

pub use law::{a_run_writes_before_it_reads, steps_make_up_a_run};
