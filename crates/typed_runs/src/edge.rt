//! That the ends of blocks come to typed actions, and edges give phis leaves of their kinds.
//!
//! It stands on the look-up of `run_rules`, the typed runs of `typed_runs` and the instructions of `typed_runs::action`. It promises that where the
//! values of an end have the leaves of their types, the phis of all blocks are in order, and each way leads to an instruction, the action of the
//! end is typed. Definitions: `specs/Edge/Asked`; what is promised is in `specs/Edge/Laws`.
//!
//! ```
//! -- of `define i32 @f(i32 %a) { ret i32 %a }`
//! ending_in sc label ending -- Return (Held 0 ∷ [])
//! -- which is typed, since the frame has leaf.Int 32 at place 0, and that is what the function gives
//! ```
mod law;

pub use law::ends_are_typed;
