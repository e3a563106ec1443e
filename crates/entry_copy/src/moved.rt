//! What is copied by giving its parts their new ids.
ghost use Rattle.std.specs.Prelude.{◌≡◌, map, IfOk};

use crate::Copier;
use ir_base::ItemList;
use module_arena::{LocalName, copied_name};
use std::alloc::{AllocError, Global};

/// What has ids in it that may be new.
pub(crate) trait Moved: Drop {
    ghost use Rattle.entry_copy.specs.Tables.{Tables};

    ghost moved_by: { Tables → Self → Self };

    /// The same with new ids.
    fn moved(&self, alloc: Global, copier: &Copier) -> Result<Self, AllocError>
    where
        Self: Sized,
        ensures { IfOk result (λ copy. copy ≡ moved_by copier.now self.now) };
}

/// The same items with new ids.
fn moved_items<T: Moved>(alloc: Global, copier: &Copier, items: &[T]) -> Result<Vec<T>, AllocError>
    ensures { IfOk result (λ copy. copy.items ≡ map (T.moved_by copier.now) items.now) }
{
    let mut copy = Vec::with_capacity(alloc, items.len())?;
    for item in items {
        let next = item.moved(alloc, copier)?;
        copy.push(next)?;
    }
    Ok(copy)
}

/// The same list with new ids.
pub(crate) fn moved_list<T: Moved>(
    alloc: Global,
    copier: &Copier,
    list: &ItemList<T>,
) -> Result<ItemList<T>, AllocError>
    ensures { IfOk result (λ copy. copy ≡ map (T.moved_by copier.now) list.now) }
{
    Ok(ItemList::from_vec(moved_items(alloc, copier, list.as_slice())?))
}

/// The same names.
pub(crate) fn same_names(
    alloc: Global,
    names: &ItemList<LocalName>,
) -> Result<ItemList<LocalName>, AllocError>
    ensures { IfOk result (λ copy. copy ≡ names.now) }
{
    let mut copy = Vec::with_capacity(alloc, names.len())?;
    for name in names.as_slice() {
        let next = copied_name(alloc, name)?;
        copy.push(next)?;
    }
    Ok(ItemList::from_vec(copy))
}
