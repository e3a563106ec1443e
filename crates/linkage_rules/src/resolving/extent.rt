//! The types of definitions in numbers.
ghost use Rattle.std.specs.Prelude.{◌≡◌, true};
ghost use Rattle.linkage_rules.specs.Ids.{IsEntryId, modules, seen};
ghost use Rattle.linkage_rules.specs.Winner as winner;
ghost use Rattle.linkage_rules.specs.Resolving.Extents.{extent_in, array_length};

use crate::{EntryId, SymbolKind, arena_of, element_of};
use module_arena::{Checked, VariableId};
use type_table::IrType;

/// The type of a definition in numbers.
#[derive(Clone, Copy)]
pub(crate) struct Extent {
    /// Its bytes.
    pub(crate) size: u64,
    /// The alignment of the type.
    pub(crate) alignment: u32,
    /// The bytes of an element, of an array; of any other type its own.
    pub(crate) element: u64,
    /// The elements of an array; of any other type none.
    pub(crate) length: u64,
    /// The alignment that is stated.
    pub(crate) stated: Option<u32>,
}

/// That of what is no variable.
const NO_EXTENT: Extent = Extent {
    size: 0,
    alignment: 1,
    element: 0,
    length: 0,
    stated: None,
};

/// The elements of an array type; of any other type none.
fn array_length(ty: &IrType) -> u64
    ensures { result ≡ array_length ty.now }
{
    match ty {
        IrType::Array(length, _) => *length,
        IrType::Int(_) | IrType::Ptr | IrType::Void | IrType::Struct(_, _) | IrType::Named(_) => 0,
    }
}

/// The extent of a variable that is defined.
fn variable_extent(parts: &[Checked], id: EntryId) -> Extent
    requires entry { IsEntryId parts.now id }
    requires variable { id.kind ≡ SymbolKind.Variable }
    requires definition { winner.is_definition (seen (modules parts.now) id) ≡ true }
    ensures { result ≡ extent_in (modules parts.now) (seen (modules parts.now) id) }
{
    let arena = arena_of(parts, id.part);
    // The types of the variables of an arena are types of the arena, and so are the parts of these.
    let _count = arena.variable_count();
    let types = arena.types();
    let _type_count = types.type_count();
    let variable = arena.variable(VariableId::new(id.number));
    let Some(whole) = types.layout(variable.ty) else {
        return NO_EXTENT;
    };
    let Some(element) = types.layout(element_of(arena, id.number)) else {
        return NO_EXTENT;
    };
    Extent {
        size: whole.size,
        alignment: whole.align,
        element: element.size,
        length: array_length(types.get(variable.ty)),
        stated: variable.alignment,
    }
}

/// The extent of a definition.
pub(crate) fn extent_of(parts: &[Checked], id: EntryId) -> Extent
    requires entry { IsEntryId parts.now id }
    requires definition { winner.is_definition (seen (modules parts.now) id) ≡ true }
    ensures { result ≡ extent_in (modules parts.now) (seen (modules parts.now) id) }
{
    match id.kind {
        SymbolKind::Variable => variable_extent(parts, id),
        SymbolKind::Function | SymbolKind::Alias => NO_EXTENT,
    }
}
