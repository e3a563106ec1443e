//! Lists of what is read.
ghost use Rattle.std.specs.Prelude.{◌≡◌, ◌++◌, None, Some, OnOk, option_to_list, if◌then◌else◌};
ghost use Rattle.record_read.specs.Reader.{is_broken};

use crate::RecordReader;
use ir_base::ItemList;
use std::alloc::AllocError;

/// One more item, where it is known.
pub fn push_known<T: Drop>(items: &mut Vec<T>, item: Option<T>) -> Result<(), AllocError>
    ensures { OnOk result (items.new.items ≡ items.old.items ++ option_to_list item) }
{
    if let Some(item) = item {
        items.push(item)?;
    }
    Ok(())
}

/// The items, where the record breaks no rule so far.
pub fn unbroken<T: Drop>(reader: &RecordReader<'_>, items: Vec<T>) -> Option<ItemList<T>>
    ensures { result ≡ (if is_broken reader.now.walk then None else Some items.items) }
{
    if reader.is_broken() {
        None
    } else {
        Some(ItemList::from_vec(items))
    }
}
