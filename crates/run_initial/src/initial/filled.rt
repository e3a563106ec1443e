//! Values of which each leaf is filled alike: zeros and poison (LangRef, "Simple Constants", "Undefined Values", "Poison Values").
ghost use Rattle.std.specs.Prelude.{◌≡◌, ◌+◌, ◌*◌, ◌≤◌, ◌<◌, ◌∷◌, [], All, length, true};
ghost use Rattle.ir_memory.specs.Answer.{Keeps};
ghost use Rattle.ir_memory.specs.Given.{IsKnown, IsLeaf};
ghost use Rattle.module_arena.specs.TypeTests.{lies_in_memory};
ghost use Rattle.run_initial.specs.Initial.Fresh.{filled, needed_of, put};
ghost use Rattle.run_rules.specs.Leaves.{field_slots, repeated, slots_at};
ghost use Rattle.run_names.specs.Shapes.Shapes.{shape_in, shapes_in};
ghost use Rattle.type_table.specs.Layout.{end_after, have_layouts, size};
ghost use Rattle.type_table.specs.Types.{structs, tree};
ghost use Rattle.type_table.specs.declared.measure.TheConstants.{SIZE_LIMIT};
ghost use Rattle.run_names.specs.Values.Answer.{Stores};

use crate::constants::{Fill, leaf_in};
use crate::initial::leaf::{Target, further, put_leaf};
use crate::initial::pointers::has_pointer;
use ir_memory::{Leaf, Memory, MemoryFault};
use run_actions::slots::start_of;
use run_names::shapes::{TypeForm, form_of, layout_of, parts};
use type_table::{TypeId, TypeTable};

/// Whether something is to be stored of a value that is filled so.
fn is_needed(types: &TypeTable, fill: Fill, ty: TypeId) -> bool
    requires known { ty < length types.now.types }
    requires laid { lies_in_memory (structs types.now) (tree types.now ty) ≡ true }
    ensures { result ≡ needed_of fill (shape_in types.now ty) }
{
    match fill {
        Fill::Zero => has_pointer(types, ty),
        Fill::Poison => layout_of(types, ty).leaves != 0,
    }
}

/// Stores a value that is filled so: of zeros only the pointers.
#[cycle(filled)]
pub(crate) fn put_filled(
    types: &TypeTable,
    memory: &mut Memory,
    target: Target,
    fill: Fill,
    ty: TypeId,
) -> Result<(), MemoryFault>
    requires known { ty < length types.now.types }
    requires laid { lies_in_memory (structs types.now) (tree types.now ty) ≡ true }
    requires ends { target.offset + size (shape_in types.now ty) ≤ SIZE_LIMIT }
    requires block { IsKnown memory.old.list target.block }
    ensures put { Stores (put target.block (filled fill (slots_at (shape_in types.now ty) target.offset)) memory.old) memory.new result }
    ensures kept { Keeps memory.old memory.new }
{
    // What holds of each table of types.
    let _count = types.type_count();
    if !is_needed(types, fill, ty) {
        return Ok(());
    }
    let parts = parts(types, ty);
    match form_of(types, ty) {
        TypeForm::Int(width) => put_filled_leaf(memory, target, fill, Leaf::Int(width)),
        TypeForm::Pointer => put_filled_leaf(memory, target, fill, Leaf::Ptr),
        TypeForm::Array(count) => put_filled_elements(types, memory, target, fill, parts[0], count),
        TypeForm::Struct(packed) => put_filled_fields(types, memory, target, fill, packed, parts),
        TypeForm::Nothing => Ok(()),
        TypeForm::Opaque => Ok(()),
    }
}

/// Stores a leaf that is filled so.
fn put_filled_leaf(
    memory: &mut Memory,
    target: Target,
    fill: Fill,
    kind: Leaf,
) -> Result<(), MemoryFault>
    requires block { IsKnown memory.old.list target.block }
    requires kind { IsLeaf kind }
    ensures put { Stores (put target.block (filled fill (record { offset = target.offset; leaf = kind } ∷ [])) memory.old) memory.new result }
    ensures kept { Keeps memory.old memory.new }
{
    put_leaf(memory, target, kind, leaf_in(fill, kind))
}

/// Stores so many elements that are filled so, one behind the other.
#[cycle(filled)]
fn put_filled_elements(
    types: &TypeTable,
    memory: &mut Memory,
    target: Target,
    fill: Fill,
    element: TypeId,
    count: u64,
) -> Result<(), MemoryFault>
    requires known { element < length types.now.types }
    requires laid { lies_in_memory (structs types.now) (tree types.now element) ≡ true }
    requires ends { target.offset + count * size (shape_in types.now element) ≤ SIZE_LIMIT }
    requires block { IsKnown memory.old.list target.block }
    ensures put { Stores (put target.block (filled fill (repeated count (slots_at (shape_in types.now element)) target.offset (size (shape_in types.now element)))) memory.old) memory.new result }
    ensures kept { Keeps memory.old memory.new }
{
    let size = layout_of(types, element).size;
    'elements: for place in 0..count {
        put_filled(types, memory, further(target, place * size), fill, element)?;
    }
    Ok(())
}

/// Stores the fields of a struct that are filled so.
#[cycle(filled)]
fn put_filled_fields(
    types: &TypeTable,
    memory: &mut Memory,
    target: Target,
    fill: Fill,
    packed: bool,
    fields: &[TypeId],
) -> Result<(), MemoryFault>
    requires known { All (λ ty. ty < length types.now.types) fields.now }
    requires laid { have_layouts (shapes_in types.now fields.now) ≡ true }
    requires ends { target.offset + end_after packed 0 (shapes_in types.now fields.now) ≤ SIZE_LIMIT }
    requires block { IsKnown memory.old.list target.block }
    ensures put { Stores (put target.block (filled fill (field_slots (shapes_in types.now fields.now) packed target.offset 0)) memory.old) memory.new result }
    ensures kept { Keeps memory.old memory.new }
{
    // What holds of each table of types.
    let _count = types.type_count();
    let mut end = 0;
    'fields: for field in fields {
        let layout = layout_of(types, *field);
        let start = start_of(packed, end, layout.align);
        put_filled(types, memory, further(target, start), fill, *field)?;
        end = start + layout.size;
    }
    Ok(())
}
