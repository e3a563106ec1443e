//! When the items of a text are a module, which module, and how they are refused: the rules of names and numbers.
//!
//! It stands on the items of `ir_syntax` and on the module of `module_arena`. It promises that a text reads to at most one
//! module, and spells the names and numbers that refusals tell. Definitions: `specs/Reads`, of which `specs/ModuleOf` says
//! which module it is, and `specs/Breaks` what the items ask for, in the order of the text.
//!
//! Its modules:
//!
//! - `reading`: The module that a text reads to is well formed.
//! - `places`: The first break of the items of a text is told at the least place.
//!
//! ```
//! spell_global(alloc, b"main")? // `@main`
//! spell_global(alloc, b"a b")? // `@"a b"`
//! spell_struct(alloc, b"pair")? // `%pair`
//! ```
#![tactic(auto)]

mod fault;
mod laws;
pub mod places;
pub mod reading;
mod spelled;

pub use fault::ResolveFault;
pub use laws::{numbers_are_told_as_written, one_module};
pub use spelled::{
    hexadecimal, is_identifier, is_plain, spell_global, spell_local, spell_number, spell_struct,
};
