//! The record table: which blocks and records stand for a module, and the one spelling of a module.
//!
//! It stands on the module of `module_arena`, the codes of `ir_tables` and the trees of `bit_tree`. It promises the codes of blocks,
//! records, forms of constants and kinds of types, and the laws that its calls name: what fits is read of what it spells.
//! Definitions: `specs/Layout`, `Fields`, `StringTable`, `Constants` and `Lines` what stands in a record, `specs/TypeRecords`, `Bodies` and
//! `Records` what is read and what is refused, `specs/Mentions` and `Spelling` what is written, `specs/Laws` and `LineLaws` the laws.
//!
//! ```
//! TypeKind::of_code(TypeKind::Array.code()) // Some(TypeKind::Array)
//! ConstantForm::of_code(ConstantForm::Global.code()) // Some(ConstantForm::Global)
//! is_block_id(MODULE_BLOCK) // true
//! ```
#![tactic(auto)]

mod blocks;
mod form;
mod kind;
mod layout_laws;
mod line_laws;
mod records;

pub use blocks::{BODY_BLOCK, MODULE_BLOCK, PRODUCER_BLOCK, TABLE_BLOCK, TYPES_BLOCK, is_block_id};
pub use form::ConstantForm;
pub use kind::TypeKind;
pub use layout_laws::{
    labels_are_read_back, names_are_read_back, texts_are_held, texts_are_read_back,
};
pub use line_laws::{
    constants_are_read_back, endings_are_read_back, instructions_are_read_back,
    values_are_read_back,
};
pub use records::{
    ALIAS, BLOCK, DEFINE, FIRST_LINE, FUNCTION, LAYOUT, PARAMETERS, PRODUCER, SOURCE, TEXT, TRIPLE,
    VARIABLE, VERSION,
};
