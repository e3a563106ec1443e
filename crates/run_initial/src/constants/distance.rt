//! How far indices lead into a value (LangRef, "getelementptr Instruction").
ghost use Rattle.std.specs.Prelude.{◌≡◌, ◌*◌, ◌^◌, ◌<◌, ◌≤◌, IfSome, Some, length, pos};
ghost use Rattle.ir_eval.specs.Value.{IsInteger, IsWidth};
ghost use Rattle.run_actions.specs.Accesses.Near.{IsNear};
ghost use Rattle.run_rules.specs.Displace as rules;
ghost use Rattle.run_rules.specs.Leaves as leaves;
ghost use Rattle.type_table.specs.Layout.{size};
ghost use Rattle.type_table.specs.Shape.{nesting};
ghost use Rattle.type_table.specs.declared.measure.TheConstants.{NESTING_LIMIT, SIZE_LIMIT};
ghost use Rattle.run_names.specs.Shapes.Shapes.{shape_in};
ghost use Rattle.run_initial.specs.Constants.Places.{IsPlace, index_at, offset_at, shape_at, term_reach};
ghost use Rattle.run_initial.specs.Constants.Sound.{names_of};

use ir_eval::{Pointer, Scalar};
use run_actions::accesses::{displaced_by, reach, sum};
use run_names::Names;
use run_names::shapes::{element, element_offset, elements, layout_of};
use type_table::{TypeId, TypeTable};

/// Where indices have led to so far.
#[derive(Clone, Copy)]
pub(crate) enum PathPlace {
    /// To values of that type, which the next index counts.
    Whole(TypeId),
    /// To a part of that type.
    Inside(TypeId),
    /// To no part.
    Nowhere,
}

/// How far indices have led so far.
#[derive(Clone, Copy)]
pub(crate) struct Reached {
    place: PathPlace,
    /// In bytes; None where an index is poison.
    pub distance: Option<i128>,
}

/// Before the first index, which counts values of that type.
pub(crate) fn before_all(types: &TypeTable, ty: TypeId) -> Reached
    requires known { ty < length types.now.types }
    ensures start { result ≡ record { place = PathPlace.Whole ty; distance = Some (pos 0) } }
    ensures few { nesting (shape_in types.now ty) ≤ NESTING_LIMIT }
{
    // No type of a table nests deeper than its limits.
    let _count = types.type_count();
    Reached {
        place: PathPlace::Whole(ty),
        distance: Some(0),
    }
}

/// The number of a leaf that is an integer, and 0 of another.
pub fn number_of(leaf: Scalar) -> u128
    ensures { result ≡ rules.number_of leaf }
{
    match leaf {
        Scalar::Int(number) => number,
        Scalar::Ptr(_) | Scalar::Poison => 0,
    }
}

/// How far so many values of that type reach, in bytes. The index is an integer of that width.
fn reach_over(types: &TypeTable, ty: TypeId, index: Scalar, width: u8) -> Option<i128>
    requires place { IsPlace types.now (PathPlace.Whole ty) }
    requires width { IsWidth width }
    requires index { IsInteger width index }
    ensures value { result ≡ rules.reach index width (size (shape_in types.now ty)) }
    ensures near { IfSome result (IsNear (2 ^ 63 * SIZE_LIMIT)) }
{
    // No type that lies in memory is larger than the limits of a table.
    let _count = types.type_count();
    reach(index, width, layout_of(types, ty).size)
}

/// How far it is to the field with that index, in bytes; 0 in a type that is no struct.
fn reach_to_field(types: &TypeTable, ty: TypeId, index: Scalar) -> Option<i128>
    requires place { IsPlace types.now (PathPlace.Inside ty) }
    ensures value { result ≡ rules.reach (Scalar.Int (offset_at (shape_in types.now ty) (rules.number_of index))) 64 1 }
    ensures near { IfSome result (IsNear (2 ^ 63 * SIZE_LIMIT)) }
{
    let offset = element_offset(types, ty, number_of(index));
    reach(Scalar::Int(offset as u128), 64, 1)
}

/// How far an index leads from where indices have led to so far, in bytes; None where it is poison.
fn reach_in(types: &TypeTable, place: PathPlace, index: Scalar, width: u8) -> Option<i128>
    requires place { IsPlace types.now place }
    requires width { IsWidth width }
    requires index { IsInteger width index }
    ensures value { result ≡ term_reach (rules.inner_term (shape_at types.now place) (index_at index width)) }
    ensures near { IfSome result (IsNear (2 ^ 63 * SIZE_LIMIT)) }
{
    match place {
        PathPlace::Whole(ty) => reach_over(types, ty, index, width),
        PathPlace::Inside(ty) => match elements(types, ty) {
            Some(element) => reach_over(types, element, index, width),
            None => reach_to_field(types, ty, index),
        },
        PathPlace::Nowhere => Some(0),
    }
}

/// Where that index leads to.
fn place_in(types: &TypeTable, place: PathPlace, index: Scalar) -> PathPlace
    requires place { IsPlace types.now place }
    ensures place { IsPlace types.now result }
    ensures shape { shape_at types.now result ≡ leaves.element (shape_at types.now place) (rules.number_of index) }
{
    match place {
        PathPlace::Whole(ty) => PathPlace::Inside(ty),
        PathPlace::Inside(ty) => match element(types, ty, number_of(index)) {
            Some(part) => PathPlace::Inside(part),
            None => PathPlace::Nowhere,
        },
        PathPlace::Nowhere => PathPlace::Nowhere,
    }
}

/// Behind that index, an integer of that width.
pub(crate) fn reached_by(types: &TypeTable, reached: Reached, index: Scalar, width: u8) -> Reached
    requires place { IsPlace types.now reached.place }
    requires near { IfSome reached.distance (IsNear (2 ^ 125)) }
    requires width { IsWidth width }
    requires index { IsInteger width index }
    ensures place { IsPlace types.now result.place }
    ensures shape { shape_at types.now result.place ≡ leaves.element (shape_at types.now reached.place) (rules.number_of index) }
    ensures distance { result.distance ≡ rules.sum_of reached.distance (term_reach (rules.inner_term (shape_at types.now reached.place) (index_at index width))) }
    ensures near { IfSome (term_reach (rules.inner_term (shape_at types.now reached.place) (index_at index width))) (IsNear (2 ^ 63 * SIZE_LIMIT)) }
{
    let further = reach_in(types, reached.place, index, width);
    let distance = sum(reached.distance, further);
    let place = place_in(types, reached.place, index);
    Reached { place, distance }
}

/// A pointer moved by a distance in bytes; `inbounds` asks for the bounds of its variable.
fn moved_pointer(names: &Names<'_>, inbounds: bool, pointer: Pointer, distance: i128) -> Scalar
    ensures { result ≡ rules.displaced (names_of names.now).bounds inbounds (Scalar.Ptr pointer) (Some distance) }
{
    let bounds = if inbounds {
        names.bounds(pointer)
    } else {
        None
    };
    displaced_by(pointer, distance, bounds)
}

/// A base moved by a distance in bytes, which is not known where an index is poison.
pub(crate) fn moved(
    names: &Names<'_>,
    inbounds: bool,
    base: Scalar,
    distance: Option<i128>,
) -> Scalar
    ensures { result ≡ rules.displaced (names_of names.now).bounds inbounds base distance }
{
    match base {
        Scalar::Ptr(pointer) => match distance {
            Some(distance) => moved_pointer(names, inbounds, pointer, distance),
            None => Scalar::Poison,
        },
        Scalar::Int(_) | Scalar::Poison => Scalar::Poison,
    }
}
