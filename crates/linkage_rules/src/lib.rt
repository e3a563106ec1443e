//! Linkage: which symbols several parts have together, where each is defined, and which entries are in conflict.
//!
//! It stands on `ir_base`, `ir_tables`, `type_table`, `module_arena` and `indexmap`. It promises that parts are refused
//! exactly with their first conflict, and else have exactly the symbols, entries and homes that are defined. Definitions:
//! `specs/Entries`, `Linkages`, `Winner`, `Symbols`, `Conflicts`, and of the answer `Resolved`; for runs `Bind` and
//! `Addresses`.
//!
//! Its modules:
//!
//! - `contents`: What variables of several parts hold at first: definitions alone.
//! - `resolving`: What names mean, and where symbols stand, when several parts are linked, or run
//!   together.
//!
//! ```
//! // of the parts `declare void @f()` and `define void @f() { ret void }`
//! let bindings = resolve_symbols(alloc, parts)?;
//! let symbol = bindings.symbols().at(0); // Symbol::Shared(name): `f`
//! bindings.home(symbol) // Some(EntryId { part: 1, kind: SymbolKind::Function, number: 0 })
//! bindings.bind(alloc, parts, 0, &name)? // of `f` Some(Bound::Definition(1, GlobalId::Function(id)))
//! ```
#![tactic(auto)]

mod address;
mod bindings;
mod clash;
mod conflict;
pub mod contents;
mod entry;
mod gather;
mod groups;
mod homes;
mod linkage;
mod order;
pub mod resolving;
mod symbol;

pub use address::{FIRST_ADDRESS, FIRST_FUNCTION, FUNCTION_STEP, GAP};
pub use bindings::{Bindings, resolve_symbols};
pub use clash::element_of;
pub use conflict::{ConflictKind, SymbolFault};
pub use entry::{EntryHead, EntryId, EntryList, arena_of, head_of, is_definition, name};
pub use gather::{all_ids, push_part};
pub use symbol::{Symbol, SymbolKind, SymbolList};
