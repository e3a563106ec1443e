//! What becomes of the entries of a module where a part of it is extracted (the tool `llvm-extract`).
//!
//! It stands on `extract_rules`. It promises which entries stay definitions, which become declarations and which are left
//! out, and that what they become so is the extracted module. Definitions: `specs/Fates/Fates`.
//!
//! ```
//! kept_linkage(Linkage::Internal) // Linkage::External: other modules can name what is kept
//! kept_linkage(Linkage::Weak) // Linkage::Weak
//! ```
mod fates;
mod laws;
mod linkages;

pub use fates::{Fate, FateList, Fates, all_fates};
pub use laws::fates_give_the_part;
pub use linkages::{function_linkage, is_emptied, kept_linkage, variable_linkage};
