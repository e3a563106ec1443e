//! What is asked of the types of a module, and how a rule that does not hold is told.
//!
//! It stands on `ir_base`, `ir_tables`, `type_table`, `module_arena` and `indexmap`. It promises that each test of a type is that of
//! the definitions, by a look-up, and that an answer names the first rule that does not hold of the entity that it speaks of.
//! Definitions: `specs/Types/Judged`; the tests stand in `module_arena`, `specs/TypeTests`.
//!
//! ```
//! let judge = TypeJudge::new(alloc, arena.types())?;
//! judge.is_integer_of(ty, 32) // true of `i32`
//! judge.lies_in_memory(ty) // true of `i32`, false of `void`
//! ```
mod classes;
mod fault;
mod judged;
mod types;

pub use fault::VerifyFault;
pub use judged::{Check, asked, judge_global, judge_instruction, judge_module};
pub use types::{OpenedType, TypeJudge};
