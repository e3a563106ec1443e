//! The part of a value to which indices lead.
ghost use Rattle.std.specs.Prelude.{◌≡◌, ◌+◌, ◌*◌, ◌^◌, ◌<◌, ◌≤◌, All, Some, length, slice_get, take, true};
ghost use Rattle.module_arena.specs.TypeTests.{lies_in_memory};
ghost use Rattle.run_rules.specs.Leaves as leaves;
ghost use Rattle.type_table.specs.Layout as layouts;
ghost use Rattle.type_table.specs.Types.{structs, tree};
ghost use Rattle.run_names.specs.Shapes.Shapes.{HasElement, HasPath, shape_in, shapes_in};

use crate::shapes::{TypeForm, element, form_of, layout_of, parts};
use type_table::{TypeId, TypeTable};

/// A part of a value: its type, and how many leaves of the value stand before it.
#[derive(Clone, Copy)]
pub struct ValuePart {
    pub ty: TypeId,
    pub before: u64,
}

/// The leaves of some types together.
fn leaves_of(types: &TypeTable, fields: &[TypeId]) -> u64
    requires known { All (λ ty. ty < length types.now.types) fields.now }
    requires laid { layouts.have_layouts (shapes_in types.now fields.now) ≡ true }
    requires few { layouts.all_leaves (shapes_in types.now fields.now) < 2 ^ 64 }
    ensures { result ≡ layouts.all_leaves (shapes_in types.now fields.now) }
{
    // What holds of each table of types.
    let _count = types.type_count();
    let mut count = 0;
    'fields: for field in fields {
        count += layout_of(types, *field).leaves;
    }
    count
}

/// The leaves of so many elements of that type together.
fn leaves_of_elements(types: &TypeTable, element: TypeId, count: u32) -> u64
    requires known { element < length types.now.types }
    requires laid { lies_in_memory (structs types.now) (tree types.now element) ≡ true }
    requires few { count * layouts.leaves (shape_in types.now element) < 2 ^ 64 }
    ensures { result ≡ count * layouts.leaves (shape_in types.now element) }
{
    u64::from(count) * layout_of(types, element).leaves
}

/// The only part.
fn only_part(parts: &[TypeId]) -> TypeId
    requires { length parts.now ≡ 1 }
    ensures { slice_get parts.now 0 ≡ Some result }
{
    parts[0]
}

/// The first so many parts.
fn front(parts: &[TypeId], count: u32) -> &[TypeId]
    requires { count ≤ length parts.now }
    ensures { result.now ≡ take count parts.now }
{
    &parts[..count as usize]
}

/// How many leaves of a value stand before the element or field with that index, which is there.
fn leaves_before(types: &TypeTable, ty: TypeId, index: u32) -> u64
    requires known { ty < length types.now.types }
    requires laid { lies_in_memory (structs types.now) (tree types.now ty) ≡ true }
    requires there { HasElement (shape_in types.now ty) index }
    requires few { layouts.leaves (shape_in types.now ty) < 2 ^ 64 }
    ensures value { result ≡ leaves.leaves_before (shape_in types.now ty) index }
    ensures within { result + layouts.leaves (leaves.element (shape_in types.now ty) index) ≤ layouts.leaves (shape_in types.now ty) }
{
    // What holds of each table of types.
    let _count = types.type_count();
    let parts = parts(types, ty);
    match form_of(types, ty) {
        TypeForm::Array(_length) => leaves_of_elements(types, only_part(parts), index),
        TypeForm::Struct(_packed) => leaves_of(types, front(parts, index)),
        TypeForm::Int(_) => 0,
        TypeForm::Pointer => 0,
        TypeForm::Nothing => 0,
        TypeForm::Opaque => 0,
    }
}

/// The part of a part to which an index leads.
fn part_in(types: &TypeTable, part: ValuePart, index: u32) -> ValuePart
    requires known { part.ty < length types.now.types }
    requires laid { lies_in_memory (structs types.now) (tree types.now part.ty) ≡ true }
    requires there { HasElement (shape_in types.now part.ty) index }
    requires few { part.before + layouts.leaves (shape_in types.now part.ty) < 2 ^ 64 }
    ensures known { result.ty < length types.now.types }
    ensures laid { lies_in_memory (structs types.now) (tree types.now result.ty) ≡ true }
    ensures shape { shape_in types.now result.ty ≡ leaves.element (shape_in types.now part.ty) index }
    ensures before { result.before ≡ part.before + leaves.leaves_before (shape_in types.now part.ty) index }
    ensures within { result.before + layouts.leaves (shape_in types.now result.ty) ≤ part.before + layouts.leaves (shape_in types.now part.ty) }
{
    let before = part.before + leaves_before(types, part.ty, index);
    match element(types, part.ty, u128::from(index)) {
        Some(ty) => ValuePart { ty, before },
        None => unreachable!(),
    }
}

/// The part of a value to which indices lead, each within the part before (LangRef, "extractvalue Instruction").
pub fn part_of(types: &TypeTable, whole: TypeId, indices: &[u32]) -> ValuePart
    requires known { whole < length types.now.types }
    requires laid { lies_in_memory (structs types.now) (tree types.now whole) ≡ true }
    requires there { HasPath (shape_in types.now whole) indices.now }
    requires few { layouts.leaves (shape_in types.now whole) < 2 ^ 64 }
    ensures known { result.ty < length types.now.types }
    ensures laid { lies_in_memory (structs types.now) (tree types.now result.ty) ≡ true }
    ensures shape { shape_in types.now result.ty ≡ leaves.part (shape_in types.now whole) indices.now }
    ensures before { result.before ≡ leaves.leaves_before_part (shape_in types.now whole) indices.now }
    ensures within { result.before + layouts.leaves (shape_in types.now result.ty) ≤ layouts.leaves (shape_in types.now whole) }
{
    let mut part = ValuePart {
        ty: whole,
        before: 0,
    };
    'indices: for index in indices {
        part = part_in(types, part, *index);
    }
    part
}
