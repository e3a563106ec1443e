//! The slots of a type.
ghost use Rattle.std.specs.Prelude.{◌≡◌, ◌+◌, ◌*◌, ◌^◌, ◌<◌, ◌≤◌, ◌++◌, ◌∷◌, [], All, OnOk, length, true};
ghost use Rattle.module_arena.specs.TypeTests.{lies_in_memory};
ghost use Rattle.run_rules.specs.Leaves as leaves;
ghost use Rattle.type_table.specs.Layout as layouts;
ghost use Rattle.type_table.specs.Types.{structs, tree};
ghost use Rattle.type_table.specs.declared.measure.TheConstants.{SIZE_LIMIT};
ghost use Rattle.run_names.specs.Shapes.Shapes.{shape_in, shapes_in};

use ir_memory::Leaf;
use run_names::shapes::{TypeForm, form_of, layout_of, parts};
use run_names::values::Slot;
use std::alloc::AllocError;
use type_table::{TypeId, TypeTable};

/// Appends a slot.
fn push_slot(slots: &mut Vec<Slot>, slot: Slot) -> Result<(), AllocError>
    ensures { OnOk result (slots.new.items ≡ slots.old.items ++ slot ∷ []) }
{
    slots.push(slot)?;
    Ok(())
}

/// Appends the leaves of a value of that type that begins at that offset, in order, padding passed over; each with its offset in bytes
/// (LangRef, "Aggregate Types"). It is refused for want of memory alone.
#[cycle(slots)]
pub fn push_slots(
    types: &TypeTable,
    ty: TypeId,
    at: u64,
    slots: &mut Vec<Slot>,
) -> Result<(), AllocError>
    requires known { ty < length types.now.types }
    requires laid { lies_in_memory (structs types.now) (tree types.now ty) ≡ true }
    requires ends { at + layouts.size (shape_in types.now ty) ≤ SIZE_LIMIT }
    ensures { OnOk result (slots.new.items ≡ slots.old.items ++ leaves.slots_at (shape_in types.now ty) at) }
{
    // What holds of each table of types.
    let _count = types.type_count();
    // A type may have many elements and no leaf.
    if layout_of(types, ty).leaves == 0 {
        return Ok(());
    }
    let parts = parts(types, ty);
    match form_of(types, ty) {
        TypeForm::Int(width) => push_slot(slots, Slot::new(at, Leaf::Int(width))),
        TypeForm::Pointer => push_slot(slots, Slot::new(at, Leaf::Ptr)),
        TypeForm::Array(count) => push_elements(types, parts[0], count, at, slots),
        TypeForm::Struct(packed) => push_fields(types, packed, parts, at, slots),
        TypeForm::Nothing => Ok(()),
        TypeForm::Opaque => Ok(()),
    }
}

/// Appends the leaves of so many elements one behind the other.
#[cycle(slots)]
fn push_elements(
    types: &TypeTable,
    element: TypeId,
    count: u64,
    at: u64,
    slots: &mut Vec<Slot>,
) -> Result<(), AllocError>
    requires known { element < length types.now.types }
    requires laid { lies_in_memory (structs types.now) (tree types.now element) ≡ true }
    requires ends { at + count * layouts.size (shape_in types.now element) ≤ SIZE_LIMIT }
    ensures { OnOk result (slots.new.items ≡ slots.old.items ++ leaves.repeated count (leaves.slots_at (shape_in types.now element)) at (layouts.size (shape_in types.now element))) }
{
    let size = layout_of(types, element).size;
    'elements: for place in 0..count {
        push_slots(types, element, at + place * size, slots)?;
    }
    Ok(())
}

/// Appends the leaves of the fields of a struct that begins at that offset.
#[cycle(slots)]
fn push_fields(
    types: &TypeTable,
    packed: bool,
    fields: &[TypeId],
    at: u64,
    slots: &mut Vec<Slot>,
) -> Result<(), AllocError>
    requires known { All (λ ty. ty < length types.now.types) fields.now }
    requires laid { layouts.have_layouts (shapes_in types.now fields.now) ≡ true }
    requires ends { at + layouts.end_after packed 0 (shapes_in types.now fields.now) ≤ SIZE_LIMIT }
    ensures { OnOk result (slots.new.items ≡ slots.old.items ++ leaves.field_slots (shapes_in types.now fields.now) packed at 0) }
{
    // What holds of each table of types.
    let _count = types.type_count();
    let mut end = 0;
    'fields: for field in fields {
        let layout = layout_of(types, *field);
        let start = start_of(packed, end, layout.align);
        push_slots(types, *field, at + start, slots)?;
        end = start + layout.size;
    }
    Ok(())
}

/// Where a part of that alignment begins behind parts that end there, in bytes: where they are packed there are no gaps (LangRef,
/// "Structure Type").
pub fn start_of(packed: bool, end: u64, align: u32) -> u64
    requires some { 1 ≤ align }
    requires room { layouts.field_start packed end align < 2 ^ 64 }
    ensures { result ≡ layouts.field_start packed end align }
{
    if packed {
        return end;
    }
    end.next_multiple_of(u64::from(align))
}
