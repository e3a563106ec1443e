//! Where a run of a valid module can come to: to places at which an instruction stands.
//!
//! It stands on the runs of `run_rules`, and on the validity of `module_arena`. It promises that a well-formed, valid module never
//! gets stuck.
//! Definitions: `specs/Places/Places`; what is promised is `NeverStuck` of `run_rules`.
//!
//! ```
//! -- of `define void @f() { ret void }`
//! look (m ∷ []) 0 0 0 -- Return [], the instruction at the front of its block
//! look (m ∷ []) 0 0 1 -- Stuck: a place to which no run comes
//! ```
mod law;

pub use law::a_valid_module_never_gets_stuck;
