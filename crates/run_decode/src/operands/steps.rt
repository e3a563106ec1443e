//! How far the indices of a `getelementptr` lead (LangRef, "getelementptr Instruction").
ghost use Rattle.std.specs.Prelude.{◌≡◌, ℕ, ◌<◌, ◌≤◌, ◌++◌, All, None, OnOk, length, map, true};
ghost use Rattle.ir_eval.specs.declared.value.Scalar.TheVariants as the_scalar;
ghost use Rattle.module_arena.specs.TypeTests.{lies_in_memory};
ghost use Rattle.type_table.specs.Layout.{size};
ghost use Rattle.type_table.specs.Types.{structs, tree};
ghost use Rattle.type_table.specs.declared.measure.TheConstants.{SIZE_LIMIT};
ghost use Rattle.run_rules.specs.Action as actions;
ghost use Rattle.run_rules.specs.Displace.{inner_term, known, number_of, terms_of};
ghost use Rattle.run_rules.specs.Leaves.{element};
ghost use Rattle.run_rules.specs.Resolve.{index_in};
ghost use Rattle.run_rules.specs.Scope.{scalar_in};
ghost use Rattle.run_names.specs.Shapes.Shapes.{elements_of, shape_in};
ghost use Rattle.run_actions.specs.Stack.Origins.{origin_of};
ghost use Rattle.run_decode.specs.Scopes.Scopes.{HasScalar, operand_of, scope_in};
ghost use Rattle.run_decode.specs.Operands.Steps.{IsPlace, index_at, shape_at, term_of};

use crate::scopes::{FunctionScope, operand_leaf};
use ir_eval::Scalar;
use module_arena::Operand;
use run_actions::stack::Origin;
use run_names::shapes::{element, element_offset, elements, is_struct, layout_of, width};
use std::alloc::AllocError;
use type_table::{TypeId, TypeTable};

/// A term of an address: so many elements of a size, or so many bytes up to a field. The width is that of the index in bits, the size
/// is in bytes.
#[derive(Clone, Copy, Debug, PartialEq, Eq)]
pub(crate) struct Step {
    pub index: Origin,
    pub width: u8,
    pub size: u64,
}

/// Where indices have led to so far.
#[derive(Clone, Copy)]
enum StepPlace {
    /// To values of that type, which the next index counts.
    Whole(TypeId),
    /// To a part of that type.
    Inside(TypeId),
    /// To no part.
    Nowhere,
}

/// The number of an index that is known, and 0 of another.
fn number_of(index: Origin) -> u128
    ensures { result ≡ number_of (known (origin_of index)) }
{
    match index {
        Origin::Held(_) => 0,
        Origin::Known(leaf) => run_initial::constants::number_of(leaf),
    }
}

/// So many times so many bytes.
fn known_step(count: u64, bytes: u64) -> Step
    requires { bytes ≤ SIZE_LIMIT }
    ensures term { term_of result ≡ record { index = actions.Known (the_scalar.Int count); width = 64; size = bytes } }
    ensures small { result.size ≤ SIZE_LIMIT }
{
    Step {
        index: Origin::Known(Scalar::Int(u128::from(count))),
        width: 64,
        size: bytes,
    }
}

/// As many values of that type as the index says.
fn step_over(types: &TypeTable, ty: TypeId, index: Origin, width: u8) -> Step
    requires known { ty < length types.now.types }
    requires laid { lies_in_memory (structs types.now) (tree types.now ty) ≡ true }
    ensures term { term_of result ≡ record { index = origin_of index; width = width; size = size (shape_in types.now ty) } }
    ensures small { result.size ≤ SIZE_LIMIT }
{
    // No type that lies in memory is larger than the limits of a table.
    let _count = types.type_count();
    Step {
        index,
        width,
        size: layout_of(types, ty).size,
    }
}

/// To the field that the index names of a type without elements; nowhere in one that is no struct.
fn step_to_field(types: &TypeTable, ty: TypeId, index: Origin) -> Step
    requires known { ty < length types.now.types }
    requires laid { lies_in_memory (structs types.now) (tree types.now ty) ≡ true }
    requires none { None ≡ elements_of (shape_in types.now ty) }
    ensures term { (width : ℕ) → term_of result ≡ inner_term (shape_in types.now ty) (index_at index width) }
    ensures small { result.size ≤ SIZE_LIMIT }
{
    match is_struct(types, ty) {
        true => known_step(element_offset(types, ty, number_of(index)), 1),
        false => known_step(0, 0),
    }
}

/// To the part of that type which the index names.
fn step_into(types: &TypeTable, ty: TypeId, index: Origin, width: u8) -> Step
    requires known { ty < length types.now.types }
    requires laid { lies_in_memory (structs types.now) (tree types.now ty) ≡ true }
    ensures term { term_of result ≡ inner_term (shape_in types.now ty) (index_at index width) }
    ensures small { result.size ≤ SIZE_LIMIT }
{
    match elements(types, ty) {
        Some(part) => step_over(types, part, index, width),
        None => step_to_field(types, ty, index),
    }
}

/// What an index leads over from where indices have led to so far.
fn step_from(types: &TypeTable, place: &StepPlace, index: Origin, width: u8) -> Step
    requires { IsPlace types.now place.now }
    ensures term { term_of result ≡ inner_term (shape_at types.now place.now) (index_at index width) }
    ensures small { result.size ≤ SIZE_LIMIT }
{
    match place {
        StepPlace::Whole(ty) => step_over(types, *ty, index, width),
        StepPlace::Inside(ty) => step_into(types, *ty, index, width),
        StepPlace::Nowhere => known_step(0, 0),
    }
}

/// Where that index leads to.
fn place_in(types: &TypeTable, place: StepPlace, index: Origin) -> StepPlace
    requires { IsPlace types.now place }
    ensures place { IsPlace types.now result }
    ensures shape { shape_at types.now result ≡ element (shape_at types.now place) (number_of (known (origin_of index))) }
{
    match place {
        StepPlace::Whole(ty) => StepPlace::Inside(ty),
        StepPlace::Inside(ty) => match element(types, ty, number_of(index)) {
            Some(part) => StepPlace::Inside(part),
            None => StepPlace::Nowhere,
        },
        StepPlace::Nowhere => StepPlace::Nowhere,
    }
}

/// Where the index leads to that an operand is.
fn place_behind(
    types: &TypeTable,
    place: StepPlace,
    scope: &FunctionScope<'_, '_>,
    operand: Operand,
) -> StepPlace
    requires place { IsPlace types.now place }
    requires operand { HasScalar scope.now operand }
    ensures place { IsPlace types.now result }
    ensures shape { shape_at types.now result ≡ element (shape_at types.now place) (number_of (known (scalar_in (scope_in scope.now.lists scope.now.function) (operand_of scope.now.lists scope.now.function operand)))) }
{
    let index = operand_leaf(scope, operand);
    place_in(types, place, index)
}

/// Appends what the indices of a `getelementptr` lead over: the first counts whole values of the source type, and each other one goes into
/// the part that the one before it names. It is refused for want of memory alone, and may then have appended some.
pub(crate) fn push_steps(
    scope: &FunctionScope<'_, '_>,
    source: TypeId,
    indices: &[Operand],
    into: &mut Vec<Step>,
) -> Result<(), AllocError>
    requires known { source < length scope.now.lists.table.types }
    requires laid { lies_in_memory (structs scope.now.lists.table) (tree scope.now.lists.table source) ≡ true }
    requires indices { All (HasScalar scope.now) indices.now }
    requires small { All (λ s. s.size ≤ SIZE_LIMIT) into.old.items }
    ensures terms { OnOk result (map term_of into.new.items ≡ map term_of into.old.items ++ terms_of (shape_in scope.now.lists.table source) (map (λ o. index_in (scope_in scope.now.lists scope.now.function) (operand_of scope.now.lists scope.now.function o)) indices.now)) }
    ensures small { OnOk result (All (λ s. s.size ≤ SIZE_LIMIT) into.new.items) }
{
    let types = scope.types();
    let mut place = StepPlace::Whole(source);
    'indices: for operand in indices {
        let index = operand_leaf(scope, *operand);
        let bits = width(types, operand.ty);
        let step = step_from(types, &place, index, bits);
        into.push(step)?;
        place = place_behind(types, place, scope, *operand);
    }
    Ok(())
}
