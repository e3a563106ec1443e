//! What a run of modules is: its states, its instructions, its opening and its end, of parts that are run side by side.
//!
//! It stands on the symbols of `linkage_rules`, on the values of `ir_eval`, on the blocks of `ir_memory`, for host functions on
//! `ir_intrinsics` and `ir_printf`, and for how many bytes are read or gathered at once on `run_rules::traffic`. It promises that a run depends
//! on nothing but what look-up, table and opening find.
//! Definitions: `specs/State`, `Action`, `Act`, `Look`, `Opening`, `Step`, `Side`; of a machine `Machine`, `Clauses`, `RunClauses`.
//!
//! Its modules:
//!
//! - `traffic`: The bytes of a run on their way out and in: what was put out and is not written,
//!   what was read and is not used.
//! - `laws`: Laws of runs: how a run is made of steps.
//! - `played`: Whole runs of one module: what a machine's answer says of what the program prints,
//!   how it ends and what it has of its input.
//! - `places`: Where a run of a valid module can come to: to places at which an instruction stands.
//!
//! ```
//! -- of `define i32 @main() { ret i32 300 }`, without arguments and without input
//! Side parts [] [] 1 -- record { output = []; end = Exit 44 }: the status is modulo 256
//! Side parts [] [] 0 -- record { output = []; end = StepsUsed }
//! ```
#![tactic(auto)]

mod end;
mod fault;
mod host;
mod law;
pub mod laws;
pub mod places;
pub mod played;
pub mod traffic;
mod weight;

pub use end::{ABORTED, End};
pub use fault::RunFault;
pub use host::{END_OF_INPUT, HEAP_ALIGNMENT};
pub use law::equal_look_ups_give_equal_runs;
pub use weight::WEIGHT_LIMIT;
