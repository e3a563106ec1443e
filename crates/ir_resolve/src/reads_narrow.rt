//! What the tokens of a text give beyond its tree: integer types of 1 to 128 bits, and no result of a store.
//!
//! It stands on the phrases of `ir_syntax`, and on the widths that words stand for, of `name_rules::reading`. It promises the one law
//! that its call names, over the items of any text. Definitions: `HasItems` of `ir_syntax`, `AreItemsNarrow` of `item_build::buildable`.
//!
//! ```
//! HasItems "@a = global i128 0" items -- of one variable, and `IsNarrow` holds of its type
//! HasItems "@a = global i129 0" items -- of no items: `i129` is no type of the language
//! ```
mod laws;

pub use laws::what_is_read_is_narrow;
