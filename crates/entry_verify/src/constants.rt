//! What is asked of the constants of a module.
//!
//! It stands on `ir_base`, `ir_tables`, `type_table`, `module_arena` and `entry_verify::types`. It promises that what is told of a constant is
//! what the definitions say of it on the module that the arena stands for, though each constant is looked at once.
//! Definitions: `specs/Constants/ConstantParts`; the tests stand in `module_arena`, `specs/Constants` and `EntryRules`.
//!
//! ```
//! let judge = Judge::new(alloc, &arena)?;
//! judge.fits(byte, seven) // true, of `i8` and `7`
//! judge.fits(pointer, seven) // false, of `ptr` and `7`
//! is_cast_between(judge.types(), Opcode::Trunc, word, byte) // true, from `i32` to `i8`
//! is_llvm_name(b"llvm.used") // true
//! ```
mod constants;
mod fits;
mod judge;

pub use constants::{is_llvm_name, is_only_called};
pub use fits::{is_cast_between, written_number};
pub use judge::Judge;
