//! Parts of a module as a module (the tool `llvm-extract`): which definitions are chosen and kept.
//!
//! It stands on `ir_base`, `ir_tables`, `type_table`, `module_arena` and `indexmap`. It promises that the first selected
//! name that is not there is told, and else exactly which entries are kept. Definitions: `specs/Selected`, what is chosen
//! and kept, `specs/Extracted`, the extracted module, and `specs/Flags`, what is told of each entry.
//!
//! Its modules:
//!
//! - `kept_names`: The names in kept definitions: which entries are declared where others are
//!   extracted.
//! - `valid`: What is extracted of a module that is well formed and valid is well formed and valid
//!   again.
//!
//! ```
//! let selection = Selection {
//!     functions, // `main`
//!     variables: NameList::new(alloc),
//!     aliases: NameList::new(alloc),
//!     delete: false,
//!     recursive: true,
//! };
//! let kept = choose(alloc, &checked, &selection)?; // kept.functions tells of each function whether it is kept
//! ```
#![tactic(auto)]

mod chosen;
mod flags;
mod kept;
pub mod kept_names;
mod laws;
mod missing;
mod names;
mod selection;
pub mod valid;

pub use flags::{EntryFlags, FlagList};
pub use kept::choose;
pub use laws::choosing_ends;
pub use missing::no_such_symbol;
pub use names::{NameSet, add_name};
pub use selection::{ExtractFault, Selection};
