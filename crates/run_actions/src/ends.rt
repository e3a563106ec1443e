//! The ends that a run can have once it has begun.
//!
//! It stands on the definitions of `run_rules`. It promises that no step of a run ends it for a name that is missing or for want of main:
//! these are ends of opening alone. Definitions: `specs/Ends/Ends`, `specs/Ends/Laws`.
//!
//! ```
//! IsOfRuns (Exit 3) -- holds, as it does of Undefined, StepsUsed, StackLimit and MemoryLimit
//! IsOfRuns NoMain -- does not hold, and nor does it of Unresolved: with these a run ends on opening alone
//! ```
mod law;

pub use law::runs_end_so;
