//! What is kept, defined among what is declared.
ghost use Rattle.std.specs.Prelude.{◌≡◌, OnOk};
ghost use Rattle.module_arena.specs.View.{module_of};
ghost use Rattle.item_build.specs.Types.Declarations.{AreUntargeted};
ghost use Rattle.entry_copy.specs.Copies.{Copies};
ghost use Rattle.extract_core.specs.Fates.Fates.{AreSized, part_by};
ghost use Rattle.extract_core.specs.Declaring.Stages.{same_name};
ghost use Rattle.extract_core.specs.Entries.NewIds.{HaveNewIds};
ghost use Rattle.extract_core.specs.Entries.Stages.{declared_by};
ghost use Rattle.extract_core.specs.Naming.{NamesAreThere};

use crate::defining::{define_functions, initialise_variables};
use crate::fates::Fates;
use crate::targeting::target_aliases;
use entry_copy::Copier;
use item_build::types::Builder;
use module_arena::Arena;
use std::alloc::{AllocError, Global};

/// Defines what is kept among declared entries, once all constants are copied.
pub(crate) fn define_entries(
    copier: &Copier,
    alloc: Global,
    from: &Arena,
    into: &mut Builder,
    fates: &Fates,
) -> Result<(), AllocError>
    requires sizes { AreSized from.now fates.now }
    requires declared { module_of into.old.arena ≡ declared_by (module_of from.now) fates.now }
    requires untargeted { AreUntargeted 0 into.old.arena }
    requires copies { Copies same_name same_name from.now into.old.arena copier.now }
    requires ids { HaveNewIds from.now fates.now into.old.arena copier.now }
    requires names { NamesAreThere from.now fates.now copier.now }
    ensures { OnOk result (module_of into.new.arena ≡ part_by (module_of from.now) fates.now) }
{
    initialise_variables(copier, alloc, from, into, &fates.variables)?;
    define_functions(copier, alloc, from, into, &fates.functions)?;
    target_aliases(copier, from, into, &fates.aliases);
    Ok(())
}
