//! The phrases of a text between its tokens and its items: constants, and instructions.
//!
//! It stands on the tokens and terminals of `ir_lexer` and `ir_terminals`. `constants` promises the types and typed values that a text has
//! at a place, or its first bad place; `instructions` the same of instructions and blocks. Definitions: `specs/Constants`,
//! `specs/Instructions`.
//!
//! Its modules:
//!
//! - `constants`: Types, constants and values: reads them from the tokens of a text (LangRef, "Type
//!   System" and "Constants").
//! - `instructions`: Instructions and blocks: reads them from the tokens of a text (LangRef,
//!   "Instruction Reference").
#![tactic(auto)]

pub mod constants;
pub mod instructions;
