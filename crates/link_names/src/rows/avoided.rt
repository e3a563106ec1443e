//! The names that no struct with a new name is to have.
ghost use Rattle.std.specs.Prelude.{◌≡◌, OnOk};
ghost use Rattle.type_table.specs.Types.{names};
ghost use Rattle.linkage_rules.specs.Ids.{modules};
ghost use Rattle.link_names.specs.Naming.{HasMore};
ghost use Rattle.link_names.specs.Rows.Numbers.{all_struct_names};

use crate::Naming;
use linkage_rules::arena_of;
use module_arena::Checked;
use std::alloc::{AllocError, Global};
use type_table::{StructId, TypeTable};

/// Avoids the names of these structs.
fn avoid_structs(alloc: Global, from: &TypeTable, naming: &mut Naming) -> Result<(), AllocError>
    ensures avoided { OnOk result (HasMore naming.old.avoided (names from.now) naming.new.avoided) }
    ensures given { naming.new.given ≡ naming.old.given }
{
    'structs: for number in 0..from.struct_count() {
        naming.avoid(alloc, from.struct_name(StructId::new(number)))?;
    }
    Ok(())
}

/// Avoids the names of all structs.
pub(crate) fn avoid_all(
    alloc: Global,
    parts: &[Checked],
    naming: &mut Naming,
) -> Result<(), AllocError>
    ensures avoided { OnOk result (HasMore naming.old.avoided (all_struct_names (modules parts.now)) naming.new.avoided) }
    ensures given { naming.new.given ≡ naming.old.given }
{
    'parts: for part in 0..parts.len() {
        let arena = arena_of(parts, part as u64);
        avoid_structs(alloc, arena.types(), naming)?;
    }
    Ok(())
}
