//! The law of content: how records are spelled does not count.
//!
//! It stands on the definitions of `bit_tree` and `record_table`. It promises that two trees of one content, whatever widths and
//! abbreviations spell them, stand for the same modules, and that the same record of them is refused. Definitions: `content` of `bit_tree`,
//! `StandFor` and `record_fault` of `record_table`, and `specs/Content/Laws` what the law is.
//!
//! ```
//! -- of two trees of one module, one written with abbreviations and with blocks of width 4, and one without and of width 3
//! content one ≡ content other -- so StandFor one m and StandFor other m hold of the same modules
//! record_fault one -- and where a record is refused, record_fault other is the same
//! ```
mod laws;

pub use laws::content_is_enough;
