//! Appended arrays: the elements of all parts behind each other.
ghost use Rattle.std.specs.Prelude.{◌≡◌, ◌++◌, ◌∷◌, ◌<◌, [], List, length, map, slice_get, Some, All, flat_map, IfOk, OnOk};
ghost use Rattle.linkage_rules.specs.Ids.{IsEntryId, modules, seen};
ghost use Rattle.linkage_rules.specs.Contents.Contents.{elements_in};
ghost use Rattle.module_arena.specs.Lists.{Lists};
ghost use Rattle.module_arena.specs.Module as m;
ghost use Rattle.module_arena.specs.declared.constant.Const.{Const};
ghost use Rattle.link_rules.specs.Linked.{linked_pieces};
ghost use Rattle.item_build.specs.Types.Stands.{AreTyped, Grows, IsConstant};
ghost use Rattle.type_table.specs.Tree.{Tree};
ghost use Rattle.entry_copy.specs.Moved.{moved_typed};
ghost use Rattle.module_linker.specs.Stages.Copied.{AreCopied};
ghost use Rattle.module_linker.specs.Stages.NewIds.{AllHaveNewIds};
ghost use Rattle.module_linker.specs.Stages.Definitions.{entries_defined};
ghost use Rattle.module_linker.specs.Filling.Elements.{elements_of_all, elements_told};

use entry_copy::{Copier, copier_of};
use item_build::types::Builder;
use linkage_rules::{EntryId, SymbolKind, arena_of, is_definition};
use module_arena::{
    Arena, Brackets, Checked, Const, ConstId, TypedConst, TypedConstList, VariableId,
};
use std::alloc::{AllocError, Global};

/// The elements of a constant that is a list; any other has none.
fn elements_of(arena: &Arena, id: ConstId) -> &[TypedConst]
    requires { id < length arena.now.constants }
    ensures { (constant : Const) → slice_get arena.now.constants id ≡ Some constant → result.now ≡ elements_told constant }
{
    match arena.constant(id) {
        Const::Aggregate(_, elements) => elements.as_slice(),
        _ => &[],
    }
}

/// Adds these elements, by their new ids.
fn push_moved(
    copier: &Copier,
    elements: &[TypedConst],
    into: &mut Vec<TypedConst>,
) -> Result<(), AllocError>
    ensures { OnOk result (into.new.items ≡ into.old.items ++ map (moved_typed copier.now) elements.now) }
{
    'elements: for element in elements {
        into.push(TypedConst {
            ty: copier.new_type(element.ty),
            value: copier.new_constant(element.value),
        })?;
    }
    Ok(())
}

/// Adds the elements of the array of a variable, where it has one.
fn push_elements(
    copiers: &[Copier],
    parts: &[Checked],
    id: EntryId,
    elements: &mut Vec<TypedConst>,
) -> Result<(), AllocError>
    requires one_each { length copiers.now ≡ length parts.now }
    requires entry { IsEntryId parts.now id }
    requires variable { id.kind ≡ SymbolKind.Variable }
    ensures { (b : Lists) (before : List (Tree × m.Constant)) → AreCopied parts.now b copiers.now → AllHaveNewIds parts.now b copiers.now → AreTyped b elements.old.items before
        → OnOk result (AreTyped b elements.new.items (before ++ elements_of_all (modules parts.now) (seen (modules parts.now) id ∷ []))) }
{
    let arena = arena_of(parts, id.part);
    let _good = arena.variable_count();
    match arena.variable(VariableId::new(id.number)).initialiser {
        Some(initialiser) => push_moved(
            copier_of(copiers, id.part),
            elements_of(arena, initialiser),
            elements,
        ),
        None => Ok(()),
    }
}

/// Adds the elements of the array of an entry, if it is a definition of a variable.
fn push_defined(
    copiers: &[Copier],
    parts: &[Checked],
    id: EntryId,
    elements: &mut Vec<TypedConst>,
) -> Result<(), AllocError>
    requires one_each { length copiers.now ≡ length parts.now }
    requires entry { IsEntryId parts.now id }
    ensures { (b : Lists) (before : List (Tree × m.Constant)) → AreCopied parts.now b copiers.now → AllHaveNewIds parts.now b copiers.now → AreTyped b elements.old.items before
        → OnOk result (AreTyped b elements.new.items (before ++ elements_of_all (modules parts.now) (entries_defined parts.now (id ∷ [])))) }
{
    if !is_definition(parts, id) {
        return Ok(());
    }
    match id.kind {
        SymbolKind::Variable => push_elements(copiers, parts, id, elements),
        SymbolKind::Function | SymbolKind::Alias => Ok(()),
    }
}

/// The initialiser of an appended symbol with these entries: the list of the elements of all definitions, part by part.
pub(crate) fn joined_initialiser(
    copiers: &[Copier],
    alloc: Global,
    parts: &[Checked],
    into: &mut Builder,
    ids: &[EntryId],
) -> Result<ConstId, AllocError>
    requires copied { AreCopied parts.now into.old.arena copiers.now }
    requires new_ids { AllHaveNewIds parts.now into.old.arena copiers.now }
    requires known { All (IsEntryId parts.now) ids.now }
    ensures grows { OnOk result (Grows into.old.arena into.new.arena) }
    ensures is { IfOk result (λ id. IsConstant into.new.arena id
        (m.Aggregate m.Square (linked_pieces (modules parts.now) (flat_map elements_in (entries_defined parts.now ids.now))))) }
{
    let mut elements = Vec::new(alloc);
    'entries: for id in ids {
        push_defined(copiers, parts, *id, &mut elements)?;
    }
    let elements = TypedConstList::from_vec(elements);
    let joined = into.keep_constant(alloc, Const::Aggregate(Brackets::Square, elements))?;
    Ok(joined)
}
