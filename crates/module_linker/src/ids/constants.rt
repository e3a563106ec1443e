//! The constants of all parts.
ghost use Rattle.std.specs.Prelude.{◌≡◌, ◌+◌, ◌<◌, [], length, All, OnOk};
ghost use Rattle.item_build.specs.Types.Stands.{Grows};
ghost use Rattle.module_linker.specs.Stages.Copied.{AreCopied};
ghost use Rattle.module_linker.specs.Stages.Ground.{HaveTypes};
ghost use Rattle.module_linker.specs.Stages.NewIds.{AllHaveNewIds};
ghost use Rattle.module_linker.specs.Ids.Constants.{AreCopiedTo};

use entry_copy::Copier;
use item_build::types::Builder;
use linkage_rules::arena_of;
use module_arena::Checked;
use std::alloc::{AllocError, Global};

/// Copies the constants of the next part.
fn copy_of_part(
    copiers: &mut [Copier],
    alloc: Global,
    parts: &[Checked],
    into: &mut Builder,
    part: u64,
) -> Result<(), AllocError>
    requires known { part < length parts.now }
    requires copied { AreCopiedTo parts.now part into.old.arena copiers.old }
    ensures grows { OnOk result (Grows into.old.arena into.new.arena) }
    ensures copied { OnOk result (AreCopiedTo parts.now (part + 1) into.new.arena copiers.new) }
{
    copiers[part as usize].copy_constants(alloc, arena_of(parts, part), into)
}

/// Copies all constants of all parts, once all types are copied and each entry that a constant may name has its new id. Only
/// memory may be wanting.
pub fn copy_constants(
    copiers: &mut [Copier],
    alloc: Global,
    parts: &[Checked],
    into: &mut Builder,
) -> Result<(), AllocError>
    requires types { HaveTypes parts.now into.old.arena copiers.old }
    requires ids { AllHaveNewIds parts.now into.old.arena copiers.old }
    requires none { All (λ t. t.constants ≡ []) copiers.old }
    ensures grows { OnOk result (Grows into.old.arena into.new.arena) }
    ensures copied { OnOk result (AreCopied parts.now into.new.arena copiers.new) }
    ensures ids { OnOk result (AllHaveNewIds parts.now into.new.arena copiers.new) }
{
    'parts: for part in 0..parts.len() {
        copy_of_part(copiers, alloc, parts, into, part as u64)?;
    }
    Ok(())
}
