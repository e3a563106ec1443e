//! What the entries of the parts are in the new arena.
ghost use Rattle.std.specs.Prelude.{◌≡◌, length, map, OnOk};
ghost use Rattle.linkage_rules.specs.Ids.{modules};
ghost use Rattle.module_arena.specs.Lists.{Lists};
ghost use Rattle.module_arena.specs.View.{module_of};
ghost use Rattle.module_linker.specs.Stages.Declared.{declared, ids_of};
ghost use Rattle.module_linker.specs.Stages.NewIds.{AllHaveNewIds};
ghost use Rattle.module_linker.specs.Stages.Parts.{CanLink, IsResolved};
ghost use Rattle.module_linker.specs.Ids.Others.{without_entries};

use crate::ids::filing::filed;
use entry_copy::Copier;
use linkage_rules::Bindings;
use module_arena::{Checked, GlobalId};
use std::alloc::{AllocError, Global};

/// Tells the copiers of some parts what the entries of each part are in the module that is made of them, where `new` are the
/// ids of its entries, one for each symbol, in order: the entry of their symbol (LangRef, "Linkage Types"). Nothing else of a
/// copier changes. Only memory may be wanting.
pub fn set_new_ids(
    copiers: &mut [Copier],
    alloc: Global,
    parts: &[Checked],
    bindings: &Bindings,
    new: &[GlobalId],
) -> Result<(), AllocError>
    requires can { CanLink (modules parts.now) }
    requires resolved { IsResolved parts.now bindings.now }
    requires new { new.now ≡ ids_of (modules parts.now) }
    requires one_each { length copiers.old ≡ length parts.now }
    ensures ids { (b : Lists) → module_of b ≡ declared (modules parts.now) → OnOk result (AllHaveNewIds parts.now b copiers.new) }
    ensures others { OnOk result (map without_entries copiers.new ≡ map without_entries copiers.old) }
{
    let mut ids = filed(alloc, parts, bindings, new)?;
    // From the last part to the first.
    'parts: while let Some(of_part) = ids.pop() {
        of_part.give(&mut copiers[ids.len()]);
    }
    Ok(())
}
