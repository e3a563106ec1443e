//! New ids, filed under the entries of symbols.
ghost use Rattle.std.specs.Prelude.{◌≡◌, [], ◌∷◌, length, map, All, IfOk};
ghost use Rattle.module_arena.specs.Known.{counts};
ghost use Rattle.module_linker.specs.Stages.Parts.{IsResolved};
ghost use Rattle.module_linker.specs.Ids.Filing.{AreFiled, HasPlace, IsFiledUnder, places};

use crate::ids::places::{PartIds, all_places};
use linkage_rules::{Bindings, EntryId};
use module_arena::{Checked, GlobalId};
use std::alloc::{AllocError, Global};

/// From now on an entry has that new id.
fn file_one(ids: &mut [PartIds], entry: EntryId, new: GlobalId)
    requires { HasPlace ids.old entry }
    ensures { IsFiledUnder ids.old (entry ∷ []) new ids.new }
{
    ids[entry.part as usize].set(entry.global(), new);
}

/// From now on these entries have that new id.
fn file(ids: &mut [PartIds], entries: &[EntryId], new: &GlobalId)
    requires { All (HasPlace ids.old) entries.now }
    ensures { IsFiledUnder ids.old entries.now new.now ids.new }
{
    'entries: for entry in entries {
        file_one(ids, *entry, *new);
    }
}

/// The new ids of all entries, part by part: those of their symbols.
pub(crate) fn filed(
    alloc: Global,
    parts: &[Checked],
    bindings: &Bindings,
    new: &[GlobalId],
) -> Result<Vec<PartIds>, AllocError>
    requires resolved { IsResolved parts.now bindings.now }
    requires one_each { length new.now ≡ length bindings.now.symbols }
    ensures places { IfOk result (λ ids. map places ids.items ≡ map counts parts.now) }
    ensures filed { IfOk result (λ ids. AreFiled parts.now bindings.now.symbols new.now ids.items) }
{
    let mut ids = all_places(alloc, parts)?;
    let symbols = bindings.symbols();
    'each: for index in 0..symbols.len() {
        file(&mut ids, bindings.entries(symbols.at(index)), &new[index]);
    }
    Ok(ids)
}
