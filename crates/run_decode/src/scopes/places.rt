//! Where the leaves of parameters and results stand in a frame.
ghost use Rattle.std.specs.Prelude.{◌≡◌, ◌<◌, ◌+◌, ◌++◌, ◌∷◌, [], All, IfOk, OnOk, flat_map, length, map};
ghost use Rattle.module_arena.specs.declared.entry.Block as the_block;
ghost use Rattle.module_arena.specs.declared.entry.Function as the_function;
ghost use Rattle.module_arena.specs.Lists.{function_blocks};
ghost use Rattle.run_rules.specs.Constant.{shape_of};
ghost use Rattle.run_rules.specs.Leaves.{part};
ghost use Rattle.run_rules.specs.Scope.{result_of, result_shape, results_of};
ghost use Rattle.type_table.specs.Layout.{leaves};
ghost use Rattle.type_table.specs.Types.{tree};
ghost use Rattle.run_initial.specs.Constants.Sound.{names_of};
ghost use Rattle.run_decode.specs.Scopes.Places.{AreAdded, GivesValue, HasPart, HasValues, Returns};
ghost use Rattle.run_decode.specs.Scopes.Scopes.{block_of, bounds_from, function_of, instruction_of, typed_of, typed_parameter};

use module_arena::{Arena, Block, Function, Inst, Parameter};
use run_names::shapes::layout_of;
use run_names::types::part_of;
use std::alloc::{AllocError, Global};
use type_table::TypeId;

/// How many leaves a value of this type has: 0 of `void`.
pub fn leaves_of(arena: &Arena, ty: TypeId) -> u64
    requires { Returns arena.now ty }
    ensures { result ≡ leaves (shape_of (names_of arena.now) (tree arena.now.table ty)) }
{
    match arena.types().layout(ty) {
        Some(layout) => layout.leaves,
        None => 0,
    }
}

/// The leaves of a part of a value of that type.
fn leaves_of_part(arena: &Arena, ty: TypeId, indices: &[u32]) -> u64
    requires { HasPart arena.now ty indices.now }
    ensures { result ≡ leaves (part (shape_of (names_of arena.now) (tree arena.now.table ty)) indices.now) }
{
    let types = arena.types();
    let part = part_of(types, ty, indices);
    layout_of(types, part.ty).leaves
}

/// How many leaves what an instruction gives has: 0 where it gives nothing.
pub fn leaves_given(arena: &Arena, instruction: &Inst) -> u64
    requires { GivesValue arena.now instruction.now }
    ensures { (f : the_function.Function) → result ≡ leaves (result_shape (names_of arena.now) (instruction_of arena.now f instruction.now).operation) }
{
    match instruction {
        Inst::Binary(_, _, _, operand, _) => leaves_of(arena, operand.ty),
        Inst::Freeze(_, operand) => leaves_of(arena, operand.ty),
        Inst::Convert(_, _, _, _, ty) => leaves_of(arena, *ty),
        Inst::Phi(_, ty, _) => leaves_of(arena, *ty),
        Inst::Load(_, _, ty, _, _) => leaves_of(arena, *ty),
        Inst::Compare(_, _, _, _, _) => 1,
        Inst::Alloca(_, _, _, _) => 1,
        Inst::GetElementPtr(_, _, _, _, _) => 1,
        Inst::Select(_, choice) => leaves_of(arena, choice.get().first.ty),
        Inst::Call(call) => leaves_of(arena, call.get().signature.returns),
        Inst::ExtractValue(_, aggregate, indices) => leaves_of_part(
            arena,
            aggregate.ty,
            indices.as_slice(),
        ),
        Inst::InsertValue(_, insertion) => leaves_of(arena, insertion.get().aggregate.ty),
        Inst::Store(_, _, _, _) => 0,
    }
}

/// Adds where the leaves of a value begin that has so many, and gives where they end. A frame that has no such place has no room for it.
fn place(places: &mut Vec<u32>, next: u32, count: u64) -> Result<u32, AllocError>
    ensures end { IfOk result (λ end. end ≡ next + count) }
    ensures places { OnOk result (places.new.items ≡ places.old.items ++ next ∷ []) }
{
    let Ok(count) = u32::try_from(count) else {
        return Err(AllocError);
    };
    let Some(end) = next.checked_add(count) else {
        return Err(AllocError);
    };
    places.push(next)?;
    Ok(end)
}

/// Adds where the leaves of parameters begin, and gives where they end.
fn place_parameters(
    arena: &Arena,
    parameters: &[Parameter],
    places: &mut Vec<u32>,
) -> Result<u32, AllocError>
    requires { All (λ p. Returns arena.now p.ty) parameters.now }
    ensures { IfOk result (AreAdded 0 (map (typed_parameter arena.now) parameters.now) places.old.items places.new.items) }
{
    let mut next = 0;
    'parameters: for parameter in parameters {
        next = place(places, next, leaves_of(arena, parameter.ty))?;
    }
    Ok(next)
}

/// Adds where the leaves of the result of an instruction begin, if it has one, and gives where they end.
fn place_result(
    arena: &Arena,
    instruction: &Inst,
    places: &mut Vec<u32>,
    next: u32,
) -> Result<u32, AllocError>
    requires { GivesValue arena.now instruction.now }
    ensures { IfOk result (λ end. (f : the_function.Function) → AreAdded next (result_of (names_of arena.now) (instruction_of arena.now f instruction.now)) places.old.items places.new.items end) }
{
    match instruction.result() {
        Some(_) => place(places, next, leaves_given(arena, instruction)),
        None => Ok(next),
    }
}

/// Adds where the leaves of the results of a block begin, and gives where they end.
fn place_results(
    arena: &Arena,
    block: &Block,
    places: &mut Vec<u32>,
    first: u32,
) -> Result<u32, AllocError>
    requires { All (GivesValue arena.now) block.now.instructions }
    ensures { IfOk result (λ end. (f : the_function.Function) → AreAdded first (results_of (names_of arena.now) (block_of arena.now f block.now)) places.old.items places.new.items end) }
{
    let mut next = first;
    'instructions: for instruction in block.instructions.as_slice() {
        next = place_result(arena, instruction, places, next)?;
    }
    Ok(next)
}

/// Adds where the leaves of the results of blocks begin, and gives where they end.
fn place_blocks(
    arena: &Arena,
    blocks: &[Block],
    places: &mut Vec<u32>,
    first: u32,
) -> Result<u32, AllocError>
    requires { All (λ b. All (GivesValue arena.now) b.instructions) blocks.now }
    ensures { IfOk result (λ end. (f : the_function.Function) → AreAdded first (flat_map (results_of (names_of arena.now)) (map (block_of arena.now f) blocks.now)) places.old.items places.new.items end) }
{
    let mut next = first;
    'placed: for block in blocks {
        next = place_results(arena, block, places, next)?;
    }
    Ok(next)
}

/// Adds where the leaves of the results of a function begin, which a declaration has none of, and gives where they end.
fn place_body(
    arena: &Arena,
    function: &Function,
    places: &mut Vec<u32>,
    first: u32,
) -> Result<u32, AllocError>
    requires { All (λ (b : the_block.Block). All (GivesValue arena.now) b.instructions) (function_blocks function.now) }
    ensures { IfOk result (AreAdded first (flat_map (results_of (names_of arena.now)) (map (block_of arena.now function.now) (function_blocks function.now))) places.old.items places.new.items) }
{
    match &function.body {
        Some(body) => place_blocks(arena, body.blocks.as_slice(), places, first),
        None => Ok(first),
    }
}

/// Where the leaves of each parameter and result of a function begin in a frame, in the order of their ids, and behind them
/// where the last ones end. It is refused for want of memory, or of places that 32 bits can count.
pub(crate) fn places_of(
    alloc: Global,
    arena: &Arena,
    function: &Function,
) -> Result<Vec<u32>, AllocError>
    requires { HasValues arena.now function.now }
    ensures { IfOk result (λ places. places.items ≡ bounds_from 0 (typed_of arena.now function.now)) }
{
    let mut places = Vec::new(alloc);
    let parameters_end = place_parameters(arena, function.parameters.as_slice(), &mut places)?;
    let end = place_body(arena, function, &mut places, parameters_end)?;
    places.push(end)?;
    Ok(places)
}
