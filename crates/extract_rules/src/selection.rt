//! What is asked for, and why it may be refused.
use ir_base::{Name, NameList};
use std::alloc::AllocError;
use thiserror::Error;

/// Which definitions of a module are to be kept: those of these names with their aliases, with `recursive` also the
/// functions that chosen functions call, and with `delete` all others in their place.
///
/// ```
/// Selection {
///     functions, // `main`
///     variables: NameList::new(alloc),
///     aliases: NameList::new(alloc),
///     delete: false,
///     recursive: true,
/// } // `main`, the functions that it calls, those that these call, and so on
/// ```
#[derive(Drop)]
pub struct Selection {
    pub functions: NameList,
    pub variables: NameList,
    pub aliases: NameList,
    pub delete: bool,
    pub recursive: bool,
}

/// Why nothing is extracted.
#[derive(Debug, Drop, Error)]
pub enum ExtractFault {
    /// The first selected name that no definition of its kind has: functions first, then variables, then aliases.
    #[error("no such symbol: {0:?}")]
    NoSuchSymbol(Name),
    /// Memory ran out.
    #[error("out of memory")]
    Memory,
}

impl From<AllocError> for ExtractFault {
    ghost use Rattle.std.specs.Prelude.{◌≡◌};
    ghost use Rattle.extract_rules.specs.declared.selection.ExtractFault.{ExtractFault};

    ghost from_gives = { λ _ fault. fault ≡ ExtractFault.Memory };

    fn from(_failed: AllocError) -> ExtractFault {
        ExtractFault::Memory
    }
}
