//! How many leaves a frame has.
ghost use Rattle.std.specs.Prelude.{◌≡◌, ℕ, ◌+◌, ◌∷◌, All, IfOk, flat_map, map};
ghost use Rattle.module_arena.specs.declared.entry.Function as the_function;
ghost use Rattle.run_initial.specs.Constants.Sound.{names_of};
ghost use Rattle.run_rules.specs.Scope as scopes;
ghost use Rattle.run_rules.specs.Scope.{result_of, results_of};
ghost use Rattle.run_decode.specs.Scopes.Places.{GivesValue, HasValues, Returns, end_from};
ghost use Rattle.run_decode.specs.Scopes.Scopes.{block_of, function_of, instruction_of, typed_parameter};

use module_arena::{Arena, Block, Function, Inst, Parameter};
use run_decode::scopes::{leaves_given, leaves_of};
use std::alloc::AllocError;

/// So many leaves and so many more. What 64 bits cannot count there is no room for.
fn sum_of(leaves: u64, more: u64) -> Result<u64, AllocError>
    ensures { IfOk result (λ sum. sum ≡ leaves + more) }
{
    match leaves.checked_add(more) {
        Some(sum) => Ok(sum),
        None => Err(AllocError),
    }
}

/// The leaves of parameters together.
fn parameter_leaves(arena: &Arena, parameters: &[Parameter]) -> Result<u64, AllocError>
    requires { All (λ p. Returns arena.now p.ty) parameters.now }
    ensures { IfOk result (λ end. end ≡ end_from 0 (map (typed_parameter arena.now) parameters.now)) }
{
    let mut end = 0;
    'parameters: for parameter in parameters {
        end = sum_of(end, leaves_of(arena, parameter.ty))?;
    }
    Ok(end)
}

/// So many leaves and those of the result of an instruction, if it has one.
fn with_result(arena: &Arena, instruction: &Inst, before: u64) -> Result<u64, AllocError>
    requires { GivesValue arena.now instruction.now }
    ensures { IfOk result (λ end. (f : the_function.Function) → end ≡ end_from before (result_of (names_of arena.now) (instruction_of arena.now f instruction.now))) }
{
    match instruction.result() {
        Some(_) => sum_of(before, leaves_given(arena, instruction)),
        None => Ok(before),
    }
}

/// So many leaves and those of the results of a block.
fn with_block(arena: &Arena, block: &Block, before: u64) -> Result<u64, AllocError>
    requires { All (GivesValue arena.now) block.now.instructions }
    ensures { IfOk result (λ end. (f : the_function.Function) → end ≡ end_from before (results_of (names_of arena.now) (block_of arena.now f block.now))) }
{
    let mut end = before;
    'instructions: for instruction in block.instructions.as_slice() {
        end = with_result(arena, instruction, end)?;
    }
    Ok(end)
}

/// So many leaves and those of the results of blocks.
fn with_blocks(arena: &Arena, blocks: &[Block], before: u64) -> Result<u64, AllocError>
    requires { All (λ b. All (GivesValue arena.now) b.instructions) blocks.now }
    ensures { IfOk result (λ end. (f : the_function.Function) → end ≡ end_from before (flat_map (results_of (names_of arena.now)) (map (block_of arena.now f) blocks.now))) }
{
    let mut end = before;
    'counted: for block in blocks {
        end = with_block(arena, block, end)?;
    }
    Ok(end)
}

/// The leaves of the parameters and results of a function: so many has its frame.
pub(crate) fn leaf_count(arena: &Arena, function: &Function) -> Result<u64, AllocError>
    requires { HasValues arena.now function.now }
    ensures { IfOk result (λ count. count ≡ scopes.leaf_count (names_of arena.now) (function_of arena.now function.now)) }
{
    let parameters = parameter_leaves(arena, function.parameters.as_slice())?;
    match &function.body {
        Some(body) => with_blocks(arena, body.blocks.as_slice(), parameters),
        None => Ok(parameters),
    }
}
