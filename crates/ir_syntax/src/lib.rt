//! The items of a text: reads them all, or tells the first place with which no list of items can go on.
//!
//! It stands on the blocks of `ir_phrases::instructions`. Its promise: `read_items` gives the items of the text's tokens, and
//! no others, or the first bad place with the one right kind. Names and numbers are not joined here. Definitions:
//! `specs/Items` and the files of rows beside it, `specs/Answers`, `specs/Refusal`.
//!
//! ```
//! let items = read_items(alloc, b"@a = global i32 7\ndeclare void @f(ptr)")?;
//! items.len() // 2
//! items.at(0) // an Item::Variable
//! items.at(1) // an Item::Declaration
//! ```
#![tactic(auto)]

mod aliases;
mod footprint;
mod functions;
mod heads;
mod item;
mod items;
mod read;
mod variables;

pub use ir_lexer::LARGEST;
pub use item::{
    Declaration, Definition, FormalParameters, FunctionHead, Item, Items, WrittenAlias,
    WrittenAliasType, WrittenBody, WrittenParameter, WrittenVariable,
};
pub use read::{SyntaxFault, read_items};
