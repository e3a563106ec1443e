//! Judges constants, each at the type that its place writes.
#![tactic(auto, using(crate::proofs::Parts::judged_front, crate::proofs::Parts::judged_rest, crate::proofs::Parts::judged_stop, crate::proofs::Parts::judged_next))]

ghost use Rattle.std.specs.Prelude.{◌≡◌, map};
ghost use Rattle.ir_phrases.specs.Constants.Tree.{constants};
ghost use Rattle.ir_phrases.specs.Constants.View.{type_view, constant_view, typed_constant_view};
ghost use Rattle.name_rules.specs.TypeDemands.{constant_demands, constants_demands};
ghost use Rattle.name_rules.specs.Written.{type_in, bits_at};
ghost use Rattle.type_judge.specs.Gathered.{IsKnown, known_of};
ghost use Rattle.type_judge.specs.Judging.{IsJudged, typed_demands};

use crate::globals::check_global;
use crate::integers::check_integer;
use crate::known::Known;
use crate::types::check_type;
use ir_phrases::constants::{Constant, Type, TypedConstant};
use ir_tables::WIDEST;
use name_rules::ResolveFault;
use std::alloc::Global;

/// The bits of an integer at this type: 128 where the type is none of integers.
fn bits_at(ty: &Type) -> u8
    ensures { result ≡ bits_at (type_in (type_view ty.now)) }
{
    match ty {
        Type::Integer(_, width) => *width,
        _ => WIDEST,
    }
}

/// A constant, where it stands at that type.
#[cycle(constants)]
pub fn check_constant(
    alloc: Global,
    known: &Known,
    constant: &Constant,
    ty: &Type,
) -> Result<(), ResolveFault>
    requires { IsKnown known.now }
    ensures { IsJudged (constant_demands (known_of known.now) (type_in (type_view ty.now)) (constant_view constant.now)) result }
{
    match constant {
        Constant::Integer(negative, place, magnitude) => {
            check_integer(bits_at(ty), *negative, *place, magnitude)
        }
        Constant::Simple(_, _) | Constant::Bytes(_) => Ok(()),
        Constant::Global(name) => check_global(alloc, known, name),
        Constant::List(_, _, elements) => check_constants(alloc, known, elements),
        Constant::GetElementPtr(_, _, source, operands) => {
            check_type(alloc, known, source)?;
            check_constants(alloc, known, operands)
        }
        Constant::Cast(_, _, operand, to) => {
            check_typed_constant(alloc, known, operand)?;
            check_type(alloc, known, to)
        }
        Constant::Binary(_, _, _, left, right) => {
            check_typed_constant(alloc, known, left)?;
            check_typed_constant(alloc, known, right)
        }
    }
}

/// A type, and a constant that stands at it.
#[cycle(constants)]
pub(crate) fn check_typed_constant(
    alloc: Global,
    known: &Known,
    typed: &TypedConstant,
) -> Result<(), ResolveFault>
    requires { IsKnown known.now }
    ensures { IsJudged (typed_demands (known_of known.now) (typed_constant_view typed.now)) result }
{
    check_type(alloc, known, &typed.ty)?;
    check_constant(alloc, known, &typed.value, &typed.ty)
}

/// Constants, each at the type that is written before it.
#[cycle(constants)]
fn check_constants(
    alloc: Global,
    known: &Known,
    elements: &[TypedConstant],
) -> Result<(), ResolveFault>
    requires { IsKnown known.now }
    ensures { IsJudged (constants_demands (known_of known.now) (constants (map typed_constant_view elements.now))) result }
{
    'elements: for element in elements {
        check_typed_constant(alloc, known, element)?;
    }
    Ok(())
}
