//! Constants that are put leaf by leaf.
ghost use Rattle.std.specs.Prelude.{◌≡◌, ◌+◌, ◌<◌, ◌≤◌, ◌∷◌, [], All, length, true};
ghost use Rattle.ir_eval.specs.declared.value.Scalar.TheVariants as scalar;
ghost use Rattle.ir_memory.specs.declared.leaf.Leaf.TheVariants as leaf;
ghost use Rattle.ir_memory.specs.Answer.{Keeps};
ghost use Rattle.ir_memory.specs.Given.{IsKnown};
ghost use Rattle.linkage_rules.specs.Addresses.{rooms};
ghost use Rattle.module_arena.specs.TypeTests.{lies_in_memory};
ghost use Rattle.module_arena.specs.View.{module_of};
ghost use Rattle.run_initial.specs.Constants.Sound.{IsPart, constant_of, constants_with_types, is_single, names_of};
ghost use Rattle.run_initial.specs.Initial.Constants.{bytes_at, parts_at, shapes_with, value_at};
ghost use Rattle.run_initial.specs.Initial.Fresh.{put};
ghost use Rattle.run_names.specs.Told.{alone};
ghost use Rattle.run_names.specs.Shapes.Shapes.{shape_in};
ghost use Rattle.run_names.specs.Values.Answer.{Stores};
ghost use Rattle.type_table.specs.Layout.{end_after, have_layouts, size};
ghost use Rattle.type_table.specs.Types.{structs, tree};
ghost use Rattle.type_table.specs.declared.measure.TheConstants.{SIZE_LIMIT};

use crate::constants::{Fill, constant_at, kind_of, leaf_of, types_of};
use crate::initial::filled::put_filled;
use crate::initial::leaf::{Target, further, put_leaf};
use crate::initial::packed::is_packed;
use ir_eval::Scalar;
use ir_memory::{Leaf, Memory, MemoryFault};
use module_arena::{Const, TypedConst};
use run_actions::slots::start_of;
use run_names::Names;
use run_names::shapes::layout_of;

/// Stores a byte.
fn put_byte(memory: &mut Memory, target: Target, byte: u8) -> Result<(), MemoryFault>
    requires { IsKnown memory.old.list target.block }
    ensures put { Stores (put target.block ((record { offset = target.offset; leaf = leaf.Int 8 }, scalar.Int byte) ∷ []) memory.old) memory.new result }
    ensures kept { Keeps memory.old memory.new }
{
    put_leaf(memory, target, Leaf::Int(8), Scalar::Int(u128::from(byte)))
}

/// Stores bytes one behind the other, in memory that is fresh: a byte that is 0 is there already. It is refused exactly where a store is
/// undefined, or for want of memory; then a part may be there.
pub fn put_bytes(memory: &mut Memory, target: Target, bytes: &[u8]) -> Result<(), MemoryFault>
    requires ends { target.offset + length bytes.now ≤ SIZE_LIMIT }
    requires block { IsKnown memory.old.list target.block }
    ensures put { Stores (put target.block (bytes_at target.offset bytes.now) memory.old) memory.new result }
    ensures kept { Keeps memory.old memory.new }
{
    'bytes: for place in 0..bytes.len() {
        put_byte(memory, further(target, place as u64), bytes[place])?;
    }
    Ok(())
}

/// Stores the leaf of a constant that is of one leaf whatever its type.
fn put_single(
    names: &Names<'_>,
    memory: &mut Memory,
    target: Target,
    constant: TypedConst,
) -> Result<(), MemoryFault>
    requires part { IsPart names.now constant }
    requires single { is_single (constant_of names.now constant.value) ≡ true }
    requires block { IsKnown memory.old.list target.block }
    requires variables { length (rooms (alone (module_of names.now))) ≤ length memory.old.list }
    ensures put { Stores (put target.block (value_at (names_of names.now) (tree names.now.table constant.ty) (constant_of names.now constant.value) target.offset) memory.old) memory.new result }
    ensures kept { Keeps memory.old memory.new }
{
    let value = leaf_of(names, constant.ty, constant.value);
    let kind = kind_of(names, constant.ty);
    put_leaf(memory, target, kind, value)
}

/// Stores a constant of that type, in memory that is fresh: what this reads as already is not stored. It is refused exactly where a
/// store is undefined, or for want of memory; then a part may be there.
#[cycle(constants)]
pub fn put_constant(
    names: &Names<'_>,
    memory: &mut Memory,
    target: Target,
    constant: TypedConst,
) -> Result<(), MemoryFault>
    requires part { IsPart names.now constant }
    requires laid { lies_in_memory (structs names.now.table) (tree names.now.table constant.ty) ≡ true }
    requires ends { target.offset + size (shape_in names.now.table constant.ty) ≤ SIZE_LIMIT }
    requires block { IsKnown memory.old.list target.block }
    requires variables { length (rooms (alone (module_of names.now))) ≤ length memory.old.list }
    ensures put { Stores (put target.block (value_at (names_of names.now) (tree names.now.table constant.ty) (constant_of names.now constant.value) target.offset) memory.old) memory.new result }
    ensures kept { Keeps memory.old memory.new }
{
    let ty = constant.ty;
    let types = types_of(names);
    let known = constant_at(names, constant.value);
    match known {
        Const::Undef => put_filled(types, memory, target, Fill::Zero, ty),
        Const::ZeroInitializer => put_filled(types, memory, target, Fill::Zero, ty),
        Const::Poison => put_filled(types, memory, target, Fill::Poison, ty),
        Const::ByteString(bytes) => put_bytes(memory, target, bytes.bytes()),
        Const::Aggregate(_, parts) => {
            put_constants(
                names,
                memory,
                target,
                is_packed(types, ty),
                parts.as_slice(),
            )
        }
        Const::Integer(_)
        | Const::Truth(_)
        | Const::Null
        | Const::Address(_)
        | Const::ElementAddress(_, _)
        | Const::Cast(_, _, _)
        | Const::Binary(_, _, _) => put_single(names, memory, target, constant),
    }
}

/// Stores constants one behind the other, each at its alignment, or packed.
#[cycle(constants)]
fn put_constants(
    names: &Names<'_>,
    memory: &mut Memory,
    target: Target,
    packed: bool,
    parts: &[TypedConst],
) -> Result<(), MemoryFault>
    requires parts { All (IsPart names.now) parts.now }
    requires laid { have_layouts (shapes_with (names_of names.now) (constants_with_types names.now parts.now)) ≡ true }
    requires ends { target.offset + end_after packed 0 (shapes_with (names_of names.now) (constants_with_types names.now parts.now)) ≤ SIZE_LIMIT }
    requires block { IsKnown memory.old.list target.block }
    requires variables { length (rooms (alone (module_of names.now))) ≤ length memory.old.list }
    ensures put { Stores (put target.block (parts_at (names_of names.now) packed target.offset 0 (constants_with_types names.now parts.now)) memory.old) memory.new result }
    ensures kept { Keeps memory.old memory.new }
{
    let types = types_of(names);
    // What holds of each table of types.
    let _count = types.type_count();
    let mut end = 0;
    'parts: for part in parts {
        let layout = layout_of(types, part.ty);
        let start = start_of(packed, end, layout.align);
        put_constant(names, memory, further(target, start), *part)?;
        end = start + layout.size;
    }
    Ok(())
}
