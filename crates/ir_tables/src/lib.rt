//! The word lists of the language as tables: each word, its row and its code.
//!
//! It stands on nothing. Its promise: a word, its row and its code determine each other, a set of flags
//! and its code determine each other, and nothing takes memory. Definitions: `specs/Table`, and a file
//! for each enum.
//!
//! ```
//! Opcode::of_word(b"add") // Some(Opcode::Add)
//! Opcode::Add.word() // "add"
//! Flags::empty().with(Flag::Nsw).has(Flag::Nuw) // false
//! Intrinsic::of_name(b"llvm.ctpop.i32") // Some((Intrinsic::Ctpop, 32))
//! ```
#![tactic(auto)]

mod flag;
mod intrinsic;
mod intrinsic_name;
mod linkage;
mod opcode;
mod predicate;
mod table;
mod undefined_kind;
mod width;

pub use flag::{Flag, Flags};
pub use intrinsic::Intrinsic;
pub use linkage::Linkage;
pub use opcode::Opcode;
pub use predicate::Predicate;
pub use table::{Table, WordRow};
pub use undefined_kind::UndefinedKind;
pub use width::WIDEST;
