//! The order of what a module's records name by index: its texts in the string table, and the types that it writes.
//!
//! It stands on `type_table::names`, `entry_verify::types` (classes of types) and `module_arena`, and copies no name. It promises that the table holds the
//! texts of the module, each once, at which offset each of them stands, and the place of each type. Definitions: `StringTable`, `Mentions` and
//! `Spelling` of `record_table`, and `specs/Order/Table`, `specs/Order/Order`.
//!
//! ```
//! let mut table = TextTable::new(alloc);
//! table.add(b"main")?;
//! table.add(b"printf")?;
//! table.add(b"main")?; // it is there already
//! table.offset(b"printf") // 4
//! ```
mod constants;
mod entries;
mod gathered;
mod instructions;
mod order;
mod table;

pub use entries::type_order;
pub use gathered::text_table;
pub use order::TypeOrder;
pub use table::TextTable;
