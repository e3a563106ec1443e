//! Names that are taken out of a list.
ghost use Rattle.std.specs.Prelude.{◌≡◌, ◌≤◌, drop, length, IfOk};

use ir_base::ItemList;
use module_arena::{LocalName, LocalNameList};
use std::alloc::AllocError;

/// The names from that one on, which are taken out.
pub(crate) fn names_from(
    names: &mut Vec<LocalName>,
    first: usize,
) -> Result<LocalNameList, AllocError>
    requires { first ≤ length names.old.items }
    ensures { IfOk result (λ list. list ≡ drop first names.old.items) }
{
    let behind = names.split_off(first)?;
    Ok(ItemList::from_vec(behind))
}
