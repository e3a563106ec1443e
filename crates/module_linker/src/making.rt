//! The linked module, made in an arena of its own.
ghost use Rattle.std.specs.Prelude.{◌≡◌, [], All, IfOk, OnOk};
ghost use Rattle.linkage_rules.specs.Ids.{modules};
ghost use Rattle.module_arena.specs.Lists.{no_lists};
ghost use Rattle.module_arena.specs.View.{module_of};
ghost use Rattle.link_rules.specs.Linked.{link_result};
ghost use Rattle.item_build.specs.Types.Declarations.{AreUntargeted};
ghost use Rattle.link_names.specs.Rows.Numbers.{AreNewStructs, new_struct_names};
ghost use Rattle.module_linker.specs.Stages.Copied.{AreCopied};
ghost use Rattle.module_linker.specs.Stages.Declared.{declared, ids_of};
ghost use Rattle.module_linker.specs.Stages.Ground.{HaveTypes, ground};
ghost use Rattle.module_linker.specs.Stages.NewIds.{AllHaveNewIds};
ghost use Rattle.module_linker.specs.Stages.Parts.{CanLink, IsResolved};

use crate::entries::declare_symbols;
use crate::filling::define_symbols;
use crate::ground::copy_ground;
use crate::ids::{copy_constants, set_new_ids};
use entry_copy::Copier;
use item_build::types::Builder;
use link_names::new_names;
use link_names::rows::StructRows;
use linkage_rules::Bindings;
use module_arena::{Arena, Checked, GlobalId};
use std::alloc::{AllocError, Global};

/// The entries of a linked module that are declared, and what their definitions are copied by.
#[derive(Drop)]
struct DeclaredEntries {
    copiers: Vec<Copier>,
    /// The ids of the entries, in their order.
    ids: Vec<GlobalId>,
}

/// A linked module before anything is defined in it.
#[derive(Drop)]
struct DeclaredModule {
    arena: Arena,
    entries: DeclaredEntries,
}

/// Ends building, and frees what knows where equal types and constants are.
fn take_arena(into: Builder) -> Arena
    ensures { result ≡ into.arena }
{
    into.arena
}

/// Goes on building in an arena. Where its equal types and constants are is not known.
fn resume_building(alloc: Global, arena: Arena) -> Builder
    ensures { result.arena ≡ arena }
{
    let mut into = Builder::new(alloc);
    into.arena = arena;
    into
}

/// Declares the entries of the module that is made of some parts under their new names, and gives their ids. The names are let
/// go before anything is defined. Only memory may be wanting.
fn declare_entries(
    copiers: &[Copier],
    alloc: Global,
    parts: &[Checked],
    bindings: &Bindings,
    into: &mut Builder,
) -> Result<Vec<GlobalId>, AllocError>
    requires can { CanLink (modules parts.now) }
    requires resolved { IsResolved parts.now bindings.now }
    requires ground { module_of into.old.arena ≡ ground (modules parts.now) }
    requires types { HaveTypes parts.now into.old.arena copiers.now }
    ensures module { OnOk result (module_of into.new.arena ≡ declared (modules parts.now)) }
    ensures types { OnOk result (HaveTypes parts.now into.new.arena copiers.now) }
    ensures untargeted { OnOk result (AreUntargeted 0 into.new.arena) }
    ensures ids { IfOk result (λ ids. ids.items ≡ ids_of (modules parts.now)) }
{
    let names = new_names(alloc, parts, bindings.symbols().as_slice())?;
    declare_symbols(copiers, alloc, parts, bindings, into, &names)
}

/// Copies the constants of some parts to their module, whose entries are declared under these ids. Only memory may be wanting.
fn copy_entries(
    copiers: &mut [Copier],
    alloc: Global,
    parts: &[Checked],
    bindings: &Bindings,
    into: &mut Builder,
    ids: &[GlobalId],
) -> Result<(), AllocError>
    requires can { CanLink (modules parts.now) }
    requires resolved { IsResolved parts.now bindings.now }
    requires ids { ids.now ≡ ids_of (modules parts.now) }
    requires declared { module_of into.old.arena ≡ declared (modules parts.now) }
    requires untargeted { AreUntargeted 0 into.old.arena }
    requires types { HaveTypes parts.now into.old.arena copiers.old }
    requires none { All (λ t. t.constants ≡ []) copiers.old }
    ensures module { OnOk result (module_of into.new.arena ≡ declared (modules parts.now)) }
    ensures untargeted { OnOk result (AreUntargeted 0 into.new.arena) }
    ensures copied { OnOk result (AreCopied parts.now into.new.arena copiers.new) }
    ensures new { OnOk result (AllHaveNewIds parts.now into.new.arena copiers.new) }
{
    set_new_ids(copiers, alloc, parts, bindings, ids)?;
    copy_constants(copiers, alloc, parts, into)?;
    Ok(())
}

/// Declares the entries of the module of some parts, whose symbols and structs are these, in an
/// empty arena. Only memory may be wanting.
fn declare_in(
    alloc: Global,
    parts: &[Checked],
    bindings: &Bindings,
    rows: &StructRows,
    into: &mut Builder,
) -> Result<DeclaredEntries, AllocError>
    requires empty { into.old.arena ≡ no_lists }
    requires can { CanLink (modules parts.now) }
    requires resolved { IsResolved parts.now bindings.now }
    requires names { rows.now.names ≡ new_struct_names (modules parts.now) }
    requires numbers { AreNewStructs (modules parts.now) rows.now.numbers }
    ensures module { OnOk result (module_of into.new.arena ≡ declared (modules parts.now)) }
    ensures untargeted { OnOk result (AreUntargeted 0 into.new.arena) }
    ensures copied { IfOk result (λ made. AreCopied parts.now into.new.arena made.copiers.items) }
    ensures new { IfOk result (λ made. AllHaveNewIds parts.now into.new.arena made.copiers.items) }
    ensures ids { IfOk result (λ made. made.ids.items ≡ ids_of (modules parts.now)) }
{
    let mut copiers = copy_ground(alloc, parts, rows, into)?;
    let ids = declare_entries(&copiers, alloc, parts, bindings, into)?;
    copy_entries(&mut copiers, alloc, parts, bindings, into, &ids)?;
    Ok(DeclaredEntries { copiers, ids })
}

/// The module that is made of some parts, whose symbols and structs are these, before anything is defined in it. Where equal
/// types and constants are is not known any more. Only memory may be wanting.
fn declare_module(
    alloc: Global,
    parts: &[Checked],
    bindings: &Bindings,
    rows: &StructRows,
) -> Result<DeclaredModule, AllocError>
    requires can { CanLink (modules parts.now) }
    requires resolved { IsResolved parts.now bindings.now }
    requires names { rows.now.names ≡ new_struct_names (modules parts.now) }
    requires numbers { AreNewStructs (modules parts.now) rows.now.numbers }
    ensures module { IfOk result (λ made. module_of made.arena ≡ declared (modules parts.now)) }
    ensures untargeted { IfOk result (λ made. AreUntargeted 0 made.arena) }
    ensures copied { IfOk result (λ m. AreCopied parts.now m.arena m.entries.copiers.items) }
    ensures new { IfOk result (λ m. AllHaveNewIds parts.now m.arena m.entries.copiers.items) }
    ensures ids { IfOk result (λ made. made.entries.ids.items ≡ ids_of (modules parts.now)) }
{
    let mut into = Builder::new(alloc);
    let declared = declare_in(alloc, parts, bindings, rows, &mut into);
    // Taken before `?`, so that the builder, which has many parts, is freed on one path alone.
    let arena = take_arena(into);
    let entries = declared?;
    Ok(DeclaredModule { arena, entries })
}

/// Defines the entries of the module of some parts. Each part is freed as soon as it is not needed
/// any more. Only memory may be wanting.
fn define_module(
    alloc: Global,
    parts: Vec<Checked>,
    bindings: Bindings,
    made: DeclaredModule,
) -> Result<Arena, AllocError>
    requires resolved { IsResolved parts.items bindings }
    requires declared { module_of made.arena ≡ declared (modules parts.items) }
    requires untargeted { AreUntargeted 0 made.arena }
    requires copied { AreCopied parts.items made.arena made.entries.copiers.items }
    requires new { AllHaveNewIds parts.items made.arena made.entries.copiers.items }
    requires ids { made.entries.ids.items ≡ ids_of (modules parts.items) }
    ensures { IfOk result (λ whole. module_of whole ≡ link_result (modules parts.items)) }
{
    let DeclaredModule { arena, entries } = made;
    let DeclaredEntries { copiers, ids } = entries;
    let mut into = resume_building(alloc, arena);
    let defined = define_symbols(&copiers, alloc, parts, bindings, &mut into, &ids);
    // Taken before `?`, as in `declare_module`.
    let whole = take_arena(into);
    defined?;
    Ok(whole)
}

/// The module that is made of some parts, whose symbols and structs are these. Each part is let go as soon as it is not needed
/// any more. Only memory may be wanting.
pub(crate) fn linked(
    alloc: Global,
    parts: Vec<Checked>,
    bindings: Bindings,
    rows: &StructRows,
) -> Result<Arena, AllocError>
    requires can { CanLink (modules parts.items) }
    requires resolved { IsResolved parts.items bindings }
    requires names { rows.now.names ≡ new_struct_names (modules parts.items) }
    requires numbers { AreNewStructs (modules parts.items) rows.now.numbers }
    ensures { IfOk result (λ whole. module_of whole ≡ link_result (modules parts.items)) }
{
    let all = parts.as_slice();
    let made = declare_module(alloc, all, &bindings, rows)?;
    define_module(alloc, parts, bindings, made)
}
