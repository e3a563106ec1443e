//! Judges values and operands, where they are used.
#![tactic(auto, using(crate::proofs::OnLocals::Steps::judged_front, crate::proofs::OnLocals::Steps::judged_rest, crate::proofs::OnLocals::Steps::judged_stop, crate::proofs::OnLocals::Steps::judged_next))]

ghost use Rattle.std.specs.Prelude.{◌≡◌, [], ◌∷◌, map, flat_map, false};
ghost use Rattle.ir_phrases.specs.Constants.View.{type_view, constant_view, value_view, typed_value_view};
ghost use Rattle.type_table.specs.Tree.{ptr};
ghost use Rattle.name_rules.specs.Demand.{place_of_local, is_local};
ghost use Rattle.name_rules.specs.FunctionDemands.{value_demands, operand_demands};
ghost use Rattle.name_rules.specs.Locals.{is_there, local_in};
ghost use Rattle.name_rules.specs.TypeDemands.{constant_demands};
ghost use Rattle.name_rules.specs.Written.{type_in};
ghost use Rattle.type_judge.specs.Gathered.{IsKnown, known_of};
ghost use Rattle.type_judge.specs.Judging.{IsJudged};
ghost use Rattle.name_judge.specs.Locals.Names.{AreGathered, locals_of};

use crate::locals::gathered::FunctionLocals;
use crate::locals::literals::is_literal;
use ir_base::Place;
use ir_phrases::constants::{Constant, Type, TypedValue, WrittenValue};
use ir_terminals::Local;
use name_rules::{ResolveFault, spell_local};
use std::alloc::Global;
use type_judge::{Known, check_constant, check_type};

/// Where the local is written.
fn place_of(written: &Local) -> Place
    ensures { result ≡ place_of_local written.now }
{
    match written {
        Local::Named(name) => name.place,
        Local::Numbered(_, place) => *place,
    }
}

/// Tells what no block, or no value, of the function is called, as it is spelled. It stands apart from what is there, so that that
/// needs no room for it.
#[cold]
#[inline(never)]
fn missing_local(
    alloc: Global,
    locals: &FunctionLocals,
    block: bool,
    written: &Local,
) -> Result<(), ResolveFault>
    requires missing { is_there (locals_of locals.now) block (local_in written.now) ≡ false }
    ensures { IsJudged (is_local (locals_of locals.now) block written.now ∷ []) result }
{
    let spelled = spell_local(alloc, written)?;
    Err(ResolveFault::UnknownName {
        place: place_of(written),
        spelled,
    })
}

/// What `check_local` asks, of any name.
#[inline(never)]
fn check_name(
    alloc: Global,
    locals: &FunctionLocals,
    block: bool,
    written: &Local,
) -> Result<(), ResolveFault>
    requires locals { AreGathered locals.now }
    ensures { IsJudged (is_local (locals_of locals.now) block written.now ∷ []) result }
{
    if locals.has(alloc, block, written)? {
        return Ok(());
    }
    missing_local(alloc, locals, block, written)
}

/// A block, or a value, of the function is called so; else it is told as it is spelled. Most are numbers that came in turn.
#[inline(always)]
pub(crate) fn check_local(
    alloc: Global,
    locals: &FunctionLocals,
    block: bool,
    written: &Local,
) -> Result<(), ResolveFault>
    requires locals { AreGathered locals.now }
    ensures { IsJudged (is_local (locals_of locals.now) block written.now ∷ []) result }
{
    if locals.is_in_turn(block, written) {
        return Ok(());
    }
    check_name(alloc, locals, block, written)
}

/// A constant, where it stands at that type.
#[inline(always)]
fn check_literal(
    alloc: Global,
    known: &Known,
    constant: &Constant,
    ty: &Type,
) -> Result<(), ResolveFault>
    requires known { IsKnown known.now }
    ensures { IsJudged (constant_demands (known_of known.now) (type_in (type_view ty.now)) (constant_view constant.now)) result }
{
    if is_literal(constant, ty) {
        return Ok(());
    }
    check_constant(alloc, known, constant, ty)
}

/// A value, where it stands at that type.
pub(crate) fn check_value(
    alloc: Global,
    known: &Known,
    locals: &FunctionLocals,
    value: &WrittenValue,
    ty: &Type,
) -> Result<(), ResolveFault>
    requires known { IsKnown known.now }
    requires locals { AreGathered locals.now }
    ensures { IsJudged (value_demands (known_of known.now) (locals_of locals.now) (type_in (type_view ty.now)) (value_view value.now)) result }
{
    match value {
        WrittenValue::Local(written) => check_local(alloc, locals, false, written),
        WrittenValue::Constant(constant) => check_literal(alloc, known, constant, ty),
    }
}

/// What is called stands at the type of pointers, which no token writes.
pub(crate) fn check_callee(
    alloc: Global,
    known: &Known,
    locals: &FunctionLocals,
    callee: &WrittenValue,
) -> Result<(), ResolveFault>
    requires known { IsKnown known.now }
    requires locals { AreGathered locals.now }
    ensures { IsJudged (value_demands (known_of known.now) (locals_of locals.now) ptr (value_view callee.now)) result }
{
    let pointer = Type::Ptr(Place { line: 1, column: 1 });
    check_value(alloc, known, locals, callee, &pointer)
}

/// A type, and a value that stands at it.
pub(crate) fn check_operand(
    alloc: Global,
    known: &Known,
    locals: &FunctionLocals,
    operand: &TypedValue,
) -> Result<(), ResolveFault>
    requires known { IsKnown known.now }
    requires locals { AreGathered locals.now }
    ensures { IsJudged (operand_demands (known_of known.now) (locals_of locals.now) (typed_value_view operand.now)) result }
{
    check_type(alloc, known, &operand.ty)?;
    check_value(alloc, known, locals, &operand.value, &operand.ty)
}

/// Operands, each of them.
pub(crate) fn check_operands(
    alloc: Global,
    known: &Known,
    locals: &FunctionLocals,
    operands: &[TypedValue],
) -> Result<(), ResolveFault>
    requires known { IsKnown known.now }
    requires locals { AreGathered locals.now }
    ensures { IsJudged (flat_map (operand_demands (known_of known.now) (locals_of locals.now)) (map typed_value_view operands.now)) result }
{
    'operands: for operand in operands {
        check_operand(alloc, known, locals, operand)?;
    }
    Ok(())
}
