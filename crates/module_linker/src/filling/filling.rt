//! All symbols, defined one after another.
ghost use Rattle.std.specs.Prelude.{◌≡◌, ℕ, ◌+◌, ◌<◌, ◌≤◌, List, length, slice_get, Some, OnOk};
ghost use Rattle.linkage_rules.specs.Ids.{modules};
ghost use Rattle.module_arena.specs.Lists.{Lists};
ghost use Rattle.module_arena.specs.View.{module_of};
ghost use Rattle.module_arena.specs.WellFormed.{IsWellFormed};
ghost use Rattle.link_rules.specs.Linked.{link_result};
ghost use Rattle.item_build.specs.Types.Declarations.{AreUntargeted};
ghost use Rattle.entry_copy.specs.Tables.{Tables};
ghost use Rattle.module_linker.specs.Stages.Copied.{AreCopied};
ghost use Rattle.module_linker.specs.Stages.Declared.{declared, ids_of};
ghost use Rattle.module_linker.specs.Stages.NewIds.{AllHaveNewIds};
ghost use Rattle.module_linker.specs.Stages.Parts.{IsResolved};
ghost use Rattle.module_linker.specs.Filling.Filling.{IsFilling};
ghost use Rattle.module_linker.specs.Filling.Origins.{AreOrigins, IsOrigin};
ghost use Rattle.module_linker.specs.Filling.Standing.{is_variable, ArePlainFrom, IsNext, IsPlainId};

use crate::filling::bodies::define;
use crate::filling::initialisers::initialise;
use crate::filling::origins::{SymbolOrigin, origin_at, origins_of};
use crate::filling::standing::StandingParts;
use crate::filling::targets::target;
use entry_copy::{Copier, copier_of};
use item_build::types::Builder;
use linkage_rules::{Bindings, EntryId, arena_of};
use module_arena::{Arena, Checked, GlobalId};
use std::alloc::{AllocError, Global};

/// Defines the next symbol, which is no variable: it is declared under that id, and defined there in the part of this arena.
fn define_in(
    copier: &Copier,
    alloc: Global,
    arena: &Arena,
    into: &mut Builder,
    home: EntryId,
    id: GlobalId,
) -> Result<(), AllocError>
    requires plain { IsPlainId id }
    requires well_formed { IsWellFormed (module_of arena.now) }
    requires next { (parts : List Lists) × (tables : List Tables) × (number : ℕ) × IsNext parts tables number home id arena.now into.old.arena copier.now }
    ensures { (parts : List Lists) (tables : List Tables) (number : ℕ) → IsNext parts tables number home id arena.now into.old.arena copier.now
        → OnOk result (IsFilling parts (number + 1) into.new.arena tables) }
{
    // What is declared is of the kind of its home.
    match id {
        GlobalId::Variable(_) => unreachable!(),
        GlobalId::Function(id) => define(copier, alloc, arena, into, home, id),
        GlobalId::Alias(id) => {
            target(copier, arena, into, home, id);
            Ok(())
        }
    }
}

/// Defines the symbol with that number, the next, which is declared under that id, where some part defines it.
fn define_symbol(
    copiers: &[Copier],
    alloc: Global,
    parts: &[Checked],
    origin: &SymbolOrigin,
    into: &mut Builder,
    number: usize,
    id: GlobalId,
) -> Result<(), AllocError>
    requires origin { IsOrigin parts.now number origin.now }
    requires id { slice_get (ids_of (modules parts.now)) number ≡ Some id }
    requires filling { IsFilling parts.now number into.old.arena copiers.now }
    ensures { OnOk result (IsFilling parts.now (number + 1) into.new.arena copiers.now) }
{
    let home = match origin.home {
        Some(home) => home,
        None => return Ok(()),
    };
    match id {
        GlobalId::Variable(id) => {
            let ids = origin.entries.as_slice();
            initialise(copiers, alloc, parts, into, home, ids, id)
        }
        plain => {
            let arena = arena_of(parts, home.part);
            let copier = copier_of(copiers, home.part);
            define_in(copier, alloc, arena, into, home, plain)
        }
    }
}

/// The id of the symbol with that number.
fn id_at(new: &[GlobalId], number: usize) -> GlobalId
    requires { number < length new.now }
    ensures { slice_get new.now number ≡ Some result }
{
    new[number]
}

/// Defines the first symbols, so many, while all parts stand.
fn define_first(
    copiers: &[Copier],
    alloc: Global,
    parts: &[Checked],
    origins: &[SymbolOrigin],
    into: &mut Builder,
    new: &[GlobalId],
    count: usize,
) -> Result<(), AllocError>
    requires origins { AreOrigins parts.now origins.now }
    requires many { length origins.now ≡ length new.now }
    requires ids { new.now ≡ ids_of (modules parts.now) }
    requires upto { count ≤ length new.now }
    requires filling { IsFilling parts.now 0 into.old.arena copiers.now }
    ensures { OnOk result (IsFilling parts.now count into.new.arena copiers.now) }
{
    'numbers: for number in 0..count {
        let origin = origin_at(origins, number);
        let id = id_at(new, number);
        define_symbol(copiers, alloc, parts, origin, into, number, id)?;
    }
    Ok(())
}

/// Whether the id is that of a variable.
fn is_variable(id: GlobalId) -> bool
    ensures { result ≡ is_variable id }
{
    match id {
        GlobalId::Variable(_) => true,
        GlobalId::Function(_) => false,
        GlobalId::Alias(_) => false,
    }
}

/// The number of the symbol behind the last variable.
fn behind_variables(new: &[GlobalId]) -> usize
    ensures upto { result ≤ length new.now }
    ensures plain { ArePlainFrom result new.now }
{
    let mut first = new.len();
    'ids: while first > 0 {
        if is_variable(id_at(new, first - 1)) {
            return first;
        }
        first -= 1;
    }
    first
}

/// Defines the symbols from that number on, of which none is a variable. Each part is let go behind the last of them that is
/// defined in it, so that it does not stand beside the copies of all bodies.
fn define_rest(
    copiers: &[Copier],
    alloc: Global,
    parts: Vec<Checked>,
    origins: &[SymbolOrigin],
    into: &mut Builder,
    new: &[GlobalId],
    first: usize,
) -> Result<(), AllocError>
    requires origins { AreOrigins parts.items origins.now }
    requires many { length origins.now ≡ length new.now }
    requires ids { new.now ≡ ids_of (modules parts.items) }
    requires upto { first ≤ length new.now }
    requires plain { ArePlainFrom first new.now }
    requires filling { IsFilling parts.items first into.old.arena copiers.now }
    ensures { OnOk result (IsFilling parts.items (length new.now) into.new.arena copiers.now) }
{
    let mut standing = StandingParts::new(alloc, parts, origins)?;
    'numbers: for number in first..new.len() {
        let id = id_at(new, number);
        let origin = origin_at(origins, number);
        match origin.home {
            Some(home) => {
                let arena = standing.arena(home.part);
                let copier = copier_of(copiers, home.part);
                define_in(copier, alloc, arena, into, home, id)?;
                standing.let_go_behind(number, home.part);
            }
            None => {}
        }
    }
    Ok(())
}

/// Defines the symbols of some parts, which are declared under these ids in their order, each as where it is defined; an
/// appended array has the elements of all parts (LangRef, "Linkage Types"). The table of symbols is let go before bodies
/// take memory, and each part as soon as all is copied that is defined in it. Only memory may be wanting.
pub fn define_symbols(
    copiers: &[Copier],
    alloc: Global,
    parts: Vec<Checked>,
    bindings: Bindings,
    into: &mut Builder,
    new: &[GlobalId],
) -> Result<(), AllocError>
    requires resolved { IsResolved parts.items bindings }
    requires declared { module_of into.old.arena ≡ declared (modules parts.items) }
    requires untargeted { AreUntargeted 0 into.old.arena }
    requires copied { AreCopied parts.items into.old.arena copiers.now }
    requires new { AllHaveNewIds parts.items into.old.arena copiers.now }
    requires ids { new.now ≡ ids_of (modules parts.items) }
    ensures { OnOk result (module_of into.new.arena ≡ link_result (modules parts.items)) }
{
    let origins = origins_of(alloc, bindings)?;
    let kept = origins.as_slice();
    let first = behind_variables(new);
    let all = parts.as_slice();
    define_first(copiers, alloc, all, kept, into, new, first)?;
    define_rest(copiers, alloc, parts, kept, into, new, first)?;
    Ok(())
}
