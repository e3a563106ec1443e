//! The list of types, in the order of the values.
ghost use Rattle.std.specs.Prelude.{◌≡◌, ◌<◌, List, All, OnOk, flat_map, length, map, Some, true};
ghost use Rattle.type_table.specs.Types.{tree};
ghost use Rattle.module_arena.specs.Changes.{function_in};
ghost use Rattle.module_arena.specs.Known.{KnowsFunction};
ghost use Rattle.module_arena.specs.Lists.{function_blocks, value_names};
ghost use Rattle.module_arena.specs.Names.{has_good_names};
ghost use Rattle.path_rows.specs.Numbers.{names_of};
ghost use Rattle.instruction_verify.specs.Last.ValuesById.{AreLocalTypes, AreTypes};
ghost use Rattle.instruction_verify.specs.Last.Given.{Grows, HasBlock, HasTypes, given, given_in};

use crate::last::local_type::LocalType;
use crate::last::results::result_type;
use entry_verify::constants::Judge;
use entry_verify::types::TypeJudge;
use module_arena::{Block, Function, Inst, Parameter};
use std::alloc::AllocError;

/// Adds the types of parameters.
fn add_parameters(
    list: &mut Vec<LocalType>,
    types: &TypeJudge<'_>,
    parameters: &[Parameter],
) -> Result<(), AllocError>
    requires { All (λ p. p.ty < length types.now.types) parameters.now }
    ensures { OnOk result (Grows types.now list.old.items list.new.items (map (λ p. Some (tree types.now p.ty)) parameters.now)) }
{
    'parameters: for parameter in parameters {
        list.push(LocalType::Written(parameter.ty))?;
    }
    Ok(())
}

/// Adds the type of the result of an instruction, where it has a result.
fn add_result(
    list: &mut Vec<LocalType>,
    types: &TypeJudge<'_>,
    instruction: &Inst,
) -> Result<(), AllocError>
    requires { HasTypes types.now instruction.now }
    ensures { OnOk result (Grows types.now list.old.items list.new.items (given types.now instruction.now)) }
{
    match result_type(types, instruction) {
        Some(ty) => {
            list.push(ty)?;
            Ok(())
        }
        None => Ok(()),
    }
}

/// Adds the types of the results of some instructions.
fn add_results(
    list: &mut Vec<LocalType>,
    types: &TypeJudge<'_>,
    instructions: &[Inst],
) -> Result<(), AllocError>
    requires { All (HasTypes types.now) instructions.now }
    ensures { OnOk result (Grows types.now list.old.items list.new.items (flat_map (given types.now) instructions.now)) }
{
    'instructions: for instruction in instructions {
        add_result(list, types, instruction)?;
    }
    Ok(())
}

/// Adds the types of the results of some blocks.
fn add_blocks(
    list: &mut Vec<LocalType>,
    types: &TypeJudge<'_>,
    blocks: &[Block],
) -> Result<(), AllocError>
    requires { All (HasBlock types.now) blocks.now }
    ensures { OnOk result (Grows types.now list.old.items list.new.items (flat_map (given_in types.now) blocks.now)) }
{
    'parts: for block in blocks {
        add_results(list, types, block.instructions.as_slice())?;
    }
    Ok(())
}

/// Adds the types of the results of a function.
fn add_body(
    list: &mut Vec<LocalType>,
    types: &TypeJudge<'_>,
    function: &Function,
) -> Result<(), AllocError>
    requires { All (HasBlock types.now) (function_blocks function.now) }
    ensures { OnOk result (Grows types.now list.old.items list.new.items (flat_map (given_in types.now) (function_blocks function.now))) }
{
    match &function.body {
        Some(body) => add_blocks(list, types, body.blocks.as_slice()),
        None => Ok(()),
    }
}

/// Makes the list that of the types of the parameters and results of the function, each by its number: in a module that is
/// well-formed, that of the value's name. What the list has before does not matter. It is refused for want of memory alone.
pub fn local_types(
    list: &mut Vec<LocalType>,
    judge: &Judge<'_>,
    function: &Function,
) -> Result<(), AllocError>
    requires { KnowsFunction (length judge.now.table.types) (length judge.now.constants) function.now }
    ensures { OnOk result (AreTypes judge.now.table list.new.items × (length list.new.items ≡ length (value_names function.now)) × (has_good_names (function_in judge.now function.now) ≡ true → AreLocalTypes judge.now (function_in judge.now function.now) (names_of function.now) list.new.items)) }
{
    let types = judge.types();
    list.clear();
    add_parameters(list, types, function.parameters.as_slice())?;
    add_body(list, types, function)?;
    Ok(())
}
