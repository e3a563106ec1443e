//! The rules of validity on paths: each use of a value has a definition before it, on every path, phis agree with the edges to
//! them, and no block leads to the first.
//!
//! It stands on `ir_base`, `ir_tables`, `type_table`, `module_arena`, `path_rows`, `entry_verify::types`, `entry_verify::constants` and `indexmap`.
//! It promises that an answer on an instruction, an end or a first block names the rule on it that does not hold. What is asked
//! stands in `module_arena`, `specs/Valid`; what it is by ids, in `specs/Uses/Uses`, `specs/Uses/Asked`, `specs/Uses/Edges` and `specs/Uses/Agreeing`;
//! which constants are the same, in `specs/Uses/Classes`.
//!
//! ```
//! judge_entry_block(alloc, function) // of `define void @f() { a: br label %a }`: rule 8 does not hold of `%a`
//!
//! // `function` is `define void @f() { %x = add i32 %x, 1 ret void }`.
//! let site = Site { number: 0, block: BlockId::new(0), before: 0 };
//! judge_uses(alloc, &rows, function, site, &inst, &operands) // rule 10 does not hold at instruction 0
//! ```
mod agreeing;
mod classes;
mod counts;
mod first_block;
mod given;
mod keys;
mod phis;
mod site;
mod sources;
mod uses;

pub use classes::constant_classes;
pub use first_block::judge_entry_block;
pub use given::{callee_given, ending_uses_given, is_value_given};
pub use phis::{PhiJudge, is_phi};
pub use site::Site;
pub use uses::{ending_uses_pass, judge_ending_uses, judge_uses, uses_pass};
