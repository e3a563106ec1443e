//! The new arena before anything is defined in it: texts, types, and all entries as declarations.
ghost use Rattle.std.specs.Prelude.{◌≡◌, [], IfOk, OnOk};
ghost use Rattle.std.specs.Option.{option_copied};
ghost use Rattle.type_table.specs.Types.{no_types};
ghost use Rattle.module_arena.specs.Lists.{no_lists};
ghost use Rattle.module_arena.specs.View.{module_of};
ghost use Rattle.module_arena.specs.WellFormed.{IsWellFormed};
ghost use Rattle.item_build.specs.Types.Declarations.{AreUntargeted};
ghost use Rattle.item_build.specs.Types.Holding.{entries};
ghost use Rattle.entry_copy.specs.Copies.{CopiesConstants};
ghost use Rattle.entry_copy.specs.Tables.{tables_of, with_types};
ghost use Rattle.extract_core.specs.Fates.Fates.{AreSized};
ghost use Rattle.extract_core.specs.Declaring.Stages.{HasTypes, same_name};
ghost use Rattle.extract_core.specs.Entries.NewIds.{HaveNewIds};
ghost use Rattle.extract_core.specs.Entries.Stages.{declared_by, texts_of, without_entries};

use crate::declaring::declare_variables;
use crate::fates::Fates;
use crate::part::{declare_aliases, declare_functions};
use entry_copy::Copier;
use entry_copy::structs::copy_structs;
use ir_base::Text;
use item_build::types::Builder;
use module_arena::Arena;
use std::alloc::{AllocError, Global};

/// An equal text, where there is one.
fn copied_text(alloc: Global, text: Option<&Text>) -> Result<Option<Text>, AllocError>
    ensures { IfOk result (λ copy. copy ≡ option_copied text.entry) }
{
    match text {
        Some(text) => Ok(Some(text.copy(alloc)?)),
        None => Ok(None),
    }
}

/// Copies the three texts of a module into an arena in which nothing is.
fn copy_texts(alloc: Global, from: &Arena, into: &mut Builder) -> Result<(), AllocError>
    requires { into.old.arena ≡ no_lists }
    ensures table { OnOk result (into.new.arena.table ≡ no_types) }
    ensures entries { OnOk result (entries into.new.arena ≡ no_lists) }
    ensures module { OnOk result (module_of into.new.arena ≡ texts_of (module_of from.now)) }
{
    let source = copied_text(alloc, from.source())?;
    let layout = copied_text(alloc, from.data_layout())?;
    let triple = copied_text(alloc, from.triple())?;
    into.arena.set_texts(source, layout, triple);
    Ok(())
}

/// Copies what stands before the entries into an arena in which nothing is: the texts, the structs and all types. Only memory may be
/// wanting.
pub fn copy_ground(
    copier: &mut Copier,
    alloc: Global,
    from: &Arena,
    into: &mut Builder,
) -> Result<(), AllocError>
    requires empty { into.old.arena ≡ no_lists }
    requires new { copier.old ≡ tables_of [] }
    ensures module { OnOk result (module_of into.new.arena ≡ without_entries (module_of from.now)) }
    ensures types { OnOk result (HasTypes from.now into.new.arena copier.new) }
    ensures entries { OnOk result (entries into.new.arena ≡ no_lists) }
    ensures others { OnOk result (copier.new ≡ with_types copier.old copier.new.types) }
{
    copy_texts(alloc, from, into)?;
    copy_structs(copier, alloc, from, into)?;
    let count = from.types().type_count();
    copier.copy_types(alloc, from, into, count)?;
    Ok(())
}

/// Declares what all entries become, and tells the copier their new ids. Nothing is defined yet, since initialisers and
/// bodies may name entries that stand behind them. Only memory may be wanting.
pub fn declare_entries(
    copier: &mut Copier,
    alloc: Global,
    from: &Arena,
    into: &mut Builder,
    fates: &Fates,
) -> Result<(), AllocError>
    requires sizes { AreSized from.now fates.now }
    requires well_formed { IsWellFormed (module_of from.now) }
    requires types { HasTypes from.now into.old.arena copier.old }
    requires empty { entries into.old.arena ≡ no_lists }
    requires ground { module_of into.old.arena ≡ without_entries (module_of from.now) }
    requires no_constants { copier.old.constants ≡ [] }
    ensures module { OnOk result (module_of into.new.arena ≡ declared_by (module_of from.now) fates.now) }
    ensures types { OnOk result (HasTypes from.now into.new.arena copier.new) }
    ensures constants { OnOk result (CopiesConstants same_name same_name from.now into.new.arena copier.new) }
    ensures ids { OnOk result (HaveNewIds from.now fates.now into.new.arena copier.new) }
    ensures untargeted { OnOk result (AreUntargeted 0 into.new.arena) }
{
    let variables = declare_variables(copier, alloc, from, into, &fates.variables)?;
    let functions = declare_functions(copier, alloc, from, into, &fates.functions)?;
    let aliases = declare_aliases(copier, alloc, from, into, &fates.aliases)?;
    copier.set_entries(variables, functions, aliases);
    Ok(())
}
