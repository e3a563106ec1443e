//! Judges the types that a text writes.
#![tactic(auto, using(crate::proofs::Parts::judged_front, crate::proofs::Parts::judged_rest, crate::proofs::Parts::judged_stop, crate::proofs::Parts::judged_next))]

ghost use Rattle.std.specs.Prelude.{◌≡◌, [], ◌∷◌, ◌||◌, not, map};
ghost use Rattle.ir_phrases.specs.Constants.Tree.{types};
ghost use Rattle.ir_phrases.specs.Constants.View.{type_view};
ghost use Rattle.name_rules.specs.Demand.{nests, is_small, is_large, is_deep};
ghost use Rattle.name_rules.specs.TypeDemands.{measured, is_long, is_past, has_past, have_past, is_struct, type_demands, types_demands, struct_measured};
ghost use Rattle.type_judge.specs.Gathered.{IsKnown, known_of};
ghost use Rattle.type_judge.specs.Judging.{IsJudged};

use crate::asking::ask;
use crate::integers::check_length;
use crate::known::Known;
use ir_base::Place;
use ir_phrases::constants::Type;
use ir_terminals::{Integer, PlacedName};
use name_rules::{ResolveFault, spell_struct};
use std::alloc::Global;
use type_table::{Measure, NESTING_LIMIT, PARTS_LIMIT, SIZE_LIMIT};

/// Whether the measure, where there is one, nests too deep.
fn is_deep(measure: Option<Measure>) -> bool
    ensures { result ≡ is_deep measure }
{
    match measure {
        None => false,
        Some(measure) => measure.nesting > NESTING_LIMIT,
    }
}

/// Whether the size or the parts of the measure, where there is one, are too many.
pub fn is_large(measure: Option<Measure>) -> bool
    ensures { result ≡ is_large measure }
{
    match measure {
        None => false,
        Some(measure) => {
            if measure.parts > PARTS_LIMIT {
                return true;
            }
            match measure.layout {
                None => false,
                Some(layout) => layout.size > SIZE_LIMIT,
            }
        }
    }
}

/// The type there does not nest too deep.
pub fn check_nesting(place: Place, measure: Option<Measure>) -> Result<(), ResolveFault>
    ensures { IsJudged (nests place measure ∷ []) result }
{
    ask(!is_deep(measure), ResolveFault::TooDeep(place))
}

/// Whether the length of an array is past the limit.
fn is_long(count: &Integer) -> bool
    ensures { result ≡ is_long count.now }
{
    if count.negative {
        return false;
    }
    match count.magnitude.to_u64() {
        Some(length) => length > SIZE_LIMIT,
        None => true,
    }
}

/// Whether a type is past a limit but that on nesting, by itself.
fn is_past(known: &Known, ty: &Type) -> bool
    requires { IsKnown known.now }
    ensures { result ≡ is_past (known_of known.now) (type_view ty.now) }
{
    match ty {
        Type::Array(_, array) => {
            if is_long(&array.count) {
                return true;
            }
            is_large(known.measure_of(ty))
        }
        _ => is_large(known.measure_of(ty)),
    }
}

/// Whether a type, or one that is written inside it, is past such a limit.
#[cycle(past)]
fn has_past(known: &Known, ty: &Type) -> bool
    requires { IsKnown known.now }
    ensures { result ≡ has_past (known_of known.now) (type_view ty.now) }
{
    match ty {
        Type::Integer(_, _) | Type::Ptr(_) | Type::Void(_) => false,
        Type::Array(_, array) => {
            if is_past(known, ty) {
                return true;
            }
            has_past(known, &array.element)
        }
        Type::Struct(_, _, fields) => {
            if is_past(known, ty) {
                return true;
            }
            have_past(known, fields)
        }
        Type::Named(_) => is_past(known, ty),
    }
}

/// Whether one of these types, or one that is written inside one, is past such a limit.
#[cycle(past)]
fn have_past(known: &Known, fields: &[Type]) -> bool
    requires { IsKnown known.now }
    ensures { result ≡ have_past (known_of known.now) (types (map type_view fields.now)) }
{
    'fields: for field in fields {
        if has_past(known, field) {
            return true;
        }
    }
    false
}

/// The array there is not past a limit, unless a type inside it is.
fn check_array_size(
    known: &Known,
    place: Place,
    ty: &Type,
    element: &Type,
) -> Result<(), ResolveFault>
    requires { IsKnown known.now }
    ensures { IsJudged (is_small place (is_past (known_of known.now) (type_view ty.now)) (has_past (known_of known.now) (type_view element.now)) ∷ []) result }
{
    if !is_past(known, ty) {
        return Ok(());
    }
    ask(has_past(known, element), ResolveFault::TooLarge(place))
}

/// What has these fields and is past a limit or not is so only where a type inside it is.
pub fn check_size(
    known: &Known,
    place: Place,
    past: bool,
    fields: &[Type],
) -> Result<(), ResolveFault>
    requires { IsKnown known.now }
    ensures { IsJudged (is_small place past (have_past (known_of known.now) (types (map type_view fields.now))) ∷ []) result }
{
    if !past {
        return Ok(());
    }
    ask(have_past(known, fields), ResolveFault::TooLarge(place))
}

/// The name is that of a struct.
fn check_struct_name(alloc: Global, known: &Known, name: &PlacedName) -> Result<(), ResolveFault>
    requires { IsKnown known.now }
    ensures { IsJudged (is_struct (known_of known.now) name.now ∷ []) result }
{
    if known.has_struct(name.name.bytes()) {
        return Ok(());
    }
    let spelled = spell_struct(alloc, name.name.bytes())?;
    Err(ResolveFault::UnknownName {
        place: name.place,
        spelled,
    })
}

/// A type of any form, and the types that are written inside it.
#[cycle(types)]
fn check_whole_type(alloc: Global, known: &Known, ty: &Type) -> Result<(), ResolveFault>
    requires { IsKnown known.now }
    ensures { IsJudged (type_demands (known_of known.now) (type_view ty.now)) result }
{
    match ty {
        Type::Integer(_, _) | Type::Ptr(_) | Type::Void(_) => Ok(()),
        Type::Array(place, array) => {
            check_nesting(*place, known.measure_of(ty))?;
            check_array_size(known, *place, ty, &array.element)?;
            check_length(&array.count)?;
            check_whole_type(alloc, known, &array.element)
        }
        Type::Struct(place, _, fields) => {
            check_nesting(*place, known.measure_of(ty))?;
            check_size(known, *place, is_past(known, ty), fields)?;
            check_types(alloc, known, fields)
        }
        Type::Named(name) => {
            check_struct_name(alloc, known, name)?;
            let measure = known.measure_of(ty);
            check_nesting(name.place, measure)?;
            ask(!is_large(measure), ResolveFault::TooLarge(name.place))
        }
    }
}

/// Types, each of them.
#[cycle(types)]
pub fn check_types(alloc: Global, known: &Known, fields: &[Type]) -> Result<(), ResolveFault>
    requires { IsKnown known.now }
    ensures { IsJudged (types_demands (known_of known.now) (types (map type_view fields.now))) result }
{
    'fields: for field in fields {
        check_whole_type(alloc, known, field)?;
    }
    Ok(())
}

/// A type, and the types that are written inside it.
#[inline(always)]
pub fn check_type(alloc: Global, known: &Known, ty: &Type) -> Result<(), ResolveFault>
    requires { IsKnown known.now }
    ensures { IsJudged (type_demands (known_of known.now) (type_view ty.now)) result }
{
    // Of the most types nothing is asked.
    match ty {
        Type::Integer(_, _) | Type::Ptr(_) | Type::Void(_) => Ok(()),
        Type::Array(_, _) | Type::Struct(_, _, _) | Type::Named(_) => {
            check_whole_type(alloc, known, ty)
        }
    }
}
