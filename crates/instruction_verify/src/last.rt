//! What instructions and the ends of blocks are asked behind the rules on phis and paths.
//!
//! It stands on `ir_base`, `ir_tables`, `type_table`, `module_arena`, `path_rows`, `entry_verify::types`, `entry_verify::constants`, `entry_verify::entries`,
//! `instruction_verify` and `indexmap`. It promises that an answer names the first of the rules 11 to 18
//! that does not hold. What is asked stands in `module_arena`, `specs/Valid`; its parts, in `specs/Last/Last` and in `instruction_verify`,
//! `specs/Parts`.
//!
//! ```
//! // `function` is `define i32 @f(i32 %a) { %x = icmp eq i32 %a, 1 ret i32 %x }`.
//! let mut types = Vec::new(alloc);
//! local_types(&mut types, &judge, function)?; // of `%a` the `i32`, of `%x` LocalType::Truth
//! let mut operands = Vec::new(alloc);
//! gather_ending(&mut operands, &ending)?;
//! judge_ending_last(alloc, &judge, &types, function, 1, &ending, &operands) // rule 11 does not hold: `%x` is no `i32`
//! ```
mod callees;
mod calls;
mod last;
mod list;
mod local_type;
mod passing;
mod results;
mod values;
mod written;

pub use last::{judge_ending_last, judge_last};
pub use list::local_types;
pub use local_type::LocalType;
pub use passing::{ending_types_pass, operation_passes, types_pass};
pub use written::has_type;
