//! Rules of validity for instructions (V5 to V7, V12 to V16) and for the ends of blocks (V5, V6, V17, V18).
//!
//! It stands on `ir_base`, `ir_tables`, `type_table`, `module_arena`, `entry_verify::types`, `entry_verify::constants`, `entry_verify::entries` and `indexmap`.
//! It promises that an answer on an instruction or an end names the first of what it is asked that does not hold: before the rules on
//! phis and paths, and of the types that it works on. What is asked stands in `module_arena`, `specs/Valid`; its parts, in `specs/Parts`.
//!
//! Its modules:
//!
//! - `last`: What instructions and the ends of blocks are asked behind the rules on phis and paths.
//! - `uses`: The rules of validity on paths: each use of a value has a definition before it, on
//!   every path, phis agree with the edges to them, and no block leads to the first.
//!
//! ```
//! let judge = Judge::new(alloc, &arena)?;
//! part_at(judge.types(), pair, &[1]) // Some, of the `i32` of `{ i8, i32 }`
//! part_at(judge.types(), pair, &[2]) // None
//! judge_instruction_types(alloc, &judge, &name, 0, &inst) // of `zext i32 %x to i8`: rule 13 does not hold
//! ```
#![tactic(auto)]

mod callees;
mod elements;
mod endings;
mod first;
pub mod last;
mod operands;
mod passing;
mod rules;
mod types;
pub mod uses;
mod written_types;

pub use endings::judge_ending_types;
pub use first::{judge_ending_first, judge_instruction_first};
pub use passing::{ending_passes, instruction_passes};
pub use types::judge_instruction_types;
pub use written_types::part_at;
