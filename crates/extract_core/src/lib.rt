//! The part of a module that a selection keeps, as a module (the tool `llvm-extract`).
//!
//! It stands on `extract_rules` and `extract_rules::kept_names`, which tell what is kept and named, on `extract_core::fates` and `extract_core::entries`, which
//! declare it, on `entry_copy`, and on the law of `extract_rules::valid`. It promises that exactly the extracted module is made, or
//! the first name told that is missing. Definitions: `Extracted` and `Faults` of `extract_rules`.
//!
//! Its modules:
//!
//! - `fates`: What becomes of the entries of a module where a part of it is extracted (the tool
//!   `llvm-extract`).
//! - `declaring`: The variables of a module, declared in a new one as what they become where a part
//!   is extracted (the tool `llvm-extract`).
//! - `part`: The functions and aliases of a module, declared in a new one as what they become where
//!   a part is extracted (the tool `llvm-extract`).
//! - `entries`: The new arena of a part before anything is defined in it: texts, types, and all
//!   entries as declarations (the tool `llvm-extract`).
//! - `defining`: Declared variables and functions, initialised and defined as what is kept of a
//!   module (the tool `llvm-extract`).
//!
//! ```
//! let selection = Selection {
//!     functions, // `main`
//!     variables: NameList::new(alloc),
//!     aliases: NameList::new(alloc),
//!     delete: false,
//!     recursive: true,
//! };
//! let part = extract(alloc, &checked, &selection)?; // `main` and all that it calls, and declarations of what they name
//! ```
#![tactic(auto)]

pub mod declaring;
pub mod defining;
pub mod entries;
mod extracting;
pub mod fates;
mod filling;
pub mod part;
mod targeting;

pub use extracting::extract;
