//! A part of a module as a module.
ghost use Rattle.std.specs.Prelude.{◌≡◌, [], None, IfOk, IfErr, OnOk};
ghost use Rattle.extract_rules.specs.Extracted.{Extracted};
ghost use Rattle.extract_rules.specs.Faults.{HasFault};
ghost use Rattle.extract_rules.specs.Flags.{AreKept};
ghost use Rattle.extract_rules.specs.Selected.{no_such_symbol};
ghost use Rattle.extract_rules.specs.declared.selection.Selection as the_selection;
ghost use Rattle.module_arena.specs.Valid.{IsValid};
ghost use Rattle.module_arena.specs.View.{module_of};
ghost use Rattle.module_arena.specs.WellFormed.{IsWellFormed};
ghost use Rattle.extract_core.specs.Fates.Fates.{AreFates};
ghost use Rattle.entry_copy.specs.Tables.{tables_of};
ghost use Rattle.module_arena.specs.Lists.{no_lists};

use crate::entries::{copy_ground, declare_entries};
use crate::fates::{Fates, all_fates, fates_give_the_part};
use crate::filling::define_entries;
use entry_copy::Copier;
use extract_rules::kept_names::named_by_kept;
use extract_rules::valid::extraction_keeps_modules;
use extract_rules::{EntryFlags, ExtractFault, Selection, choose};
use item_build::types::Builder;
use module_arena::{Arena, Checked};
use std::alloc::{AllocError, Global};

/// Makes what these fates leave of a module in an arena in which nothing is.
fn fill_part(
    copier: &mut Copier,
    alloc: Global,
    from: &Arena,
    into: &mut Builder,
    fates: &Fates,
) -> Result<(), AllocError>
    requires fates { (s : the_selection.Selection) × AreFates (module_of from.now) s fates.now }
    requires well_formed { IsWellFormed (module_of from.now) }
    requires valid { IsValid (module_of from.now) }
    requires empty { into.old.arena ≡ no_lists }
    requires new { copier.old ≡ tables_of [] }
    ensures { (s : the_selection.Selection) → AreFates (module_of from.now) s fates.now → OnOk result (module_of into.new.arena ≡ Extracted (module_of from.now) s) }
{
    // What the entries of an arena name is in the arena, and no two of them have one name.
    let _good = from.variable_count();
    copy_ground(copier, alloc, from, into)?;
    declare_entries(copier, alloc, from, into, fates)?;
    copier.copy_constants(alloc, from, into)?;
    define_entries(copier, alloc, from, into, fates)?;
    // What the entries become by their fates is what is extracted.
    fates_give_the_part();
    Ok(())
}

/// The part of a module that these fates leave of it, in an arena of its own.
fn part_by(alloc: Global, from: &Arena, fates: &Fates) -> Result<Arena, AllocError>
    requires fates { (s : the_selection.Selection) × AreFates (module_of from.now) s fates.now }
    requires well_formed { IsWellFormed (module_of from.now) }
    requires valid { IsValid (module_of from.now) }
    ensures { (s : the_selection.Selection) → AreFates (module_of from.now) s fates.now → IfOk result (λ part. module_of part ≡ Extracted (module_of from.now) s) }
{
    let structs = Vec::new(alloc);
    let mut copier = Copier::new(alloc, structs);
    let mut into = Builder::new(alloc);
    fill_part(&mut copier, alloc, from, &mut into, fates)?;
    Ok(into.arena)
}

/// The part of a module in which these entries are kept, those that a selection keeps.
fn kept_part(
    alloc: Global,
    from: &Arena,
    selection: &Selection,
    kept: &EntryFlags,
) -> Result<Arena, AllocError>
    requires kept { AreKept (module_of from.now) selection.now kept.now }
    requires well_formed { IsWellFormed (module_of from.now) }
    requires valid { IsValid (module_of from.now) }
    ensures { IfOk result (λ part. module_of part ≡ Extracted (module_of from.now) selection.now) }
{
    let named = named_by_kept(alloc, from, kept)?;
    let fates = all_fates(alloc, kept, &named)?;
    part_by(alloc, from, &fates)
}

/// The part of a module that a selection keeps (the tool `llvm-extract`): the chosen definitions, or with `delete` all
/// others, seen from outside; declarations of what they name; the texts and the structs. It is well formed and valid, as
/// each `Checked` is. It is refused with the first selected name that no definition of its kind has, and else for want of
/// memory alone. The time is linear in the module.
pub fn extract(
    alloc: Global,
    checked: &Checked,
    selection: &Selection,
) -> Result<Checked, ExtractFault>
    ensures there { OnOk result (no_such_symbol (module_of checked.now) selection.now ≡ None) }
    ensures part { IfOk result (λ part. module_of part ≡ Extracted (module_of checked.now) selection.now) }
    ensures fault { IfErr result (HasFault (module_of checked.now) selection.now) }
{
    let kept = choose(alloc, checked, selection)?;
    let part = kept_part(alloc, checked.arena(), selection, &kept)?;
    // What is extracted of a valid module is a valid module.
    extraction_keeps_modules();
    Ok(Checked::seal(part))
}
