//! Gathers what the values and the blocks of a function are called, at whichever place.
#![tactic(auto)]

ghost use Rattle.std.specs.Prelude.{◌≡◌, true, map, flat_map, IfOk, OnOk};
ghost use Rattle.ir_phrases.specs.Instructions.View.{instruction_view, block_view};
ghost use Rattle.ir_syntax.specs.View.{parameter_view};
ghost use Rattle.name_rules.specs.Locals.{announced, announced_parameter, announced_result, announced_block, local_in, locals_from, is_there};
ghost use Rattle.name_judge.specs.Locals.Names.{Announces, HoldsNames, AreGathered, locals_of};

use crate::locals::local_names::LocalNames;
use crate::locals::results::has_result;
use ir_phrases::instructions::{Instruction, WrittenBlock};
use ir_syntax::WrittenParameter;
use ir_terminals::Local;
use std::alloc::{AllocError, Global};

/// Adds the result of an instruction, where it has one.
fn add_result<'a>(
    names: &mut LocalNames<'a>,
    alloc: Global,
    instruction: &'a Instruction,
) -> Result<(), AllocError>
    ensures { OnOk result (Announces names.old names.new (announced_result (instruction_view instruction.now))) }
{
    if !has_result(instruction) {
        return Ok(());
    }
    names.put(alloc, false, &instruction.result)
}

/// Adds the results of instructions.
fn add_results<'a>(
    names: &mut LocalNames<'a>,
    alloc: Global,
    instructions: &'a [Instruction],
) -> Result<(), AllocError>
    ensures { OnOk result (Announces names.old names.new (flat_map announced_result (map instruction_view instructions.now))) }
{
    'instructions: for instruction in instructions {
        add_result(names, alloc, instruction)?;
    }
    Ok(())
}

/// Adds a block, and the results of its instructions.
fn add_block<'a>(
    names: &mut LocalNames<'a>,
    alloc: Global,
    block: &'a WrittenBlock,
) -> Result<(), AllocError>
    ensures { OnOk result (Announces names.old names.new (announced_block (block_view block.now))) }
{
    names.put(alloc, true, &block.label)?;
    add_results(names, alloc, &block.instructions)
}

/// Adds blocks, with their results.
fn add_blocks<'a>(
    names: &mut LocalNames<'a>,
    alloc: Global,
    blocks: &'a [WrittenBlock],
) -> Result<(), AllocError>
    ensures { OnOk result (Announces names.old names.new (flat_map announced_block (map block_view blocks.now))) }
{
    'all_blocks: for block in blocks {
        add_block(names, alloc, block)?;
    }
    Ok(())
}

/// Adds parameters.
fn add_parameters<'a>(
    names: &mut LocalNames<'a>,
    alloc: Global,
    parameters: &'a [WrittenParameter],
) -> Result<(), AllocError>
    ensures { OnOk result (Announces names.old names.new (map announced_parameter (map parameter_view parameters.now))) }
{
    'parameters: for parameter in parameters {
        names.put(alloc, false, &parameter.name)?;
    }
    Ok(())
}

/// What the values and the blocks of a function are called, whatever stood in the tables before.
fn gather_names<'a>(
    names: &mut LocalNames<'a>,
    alloc: Global,
    parameters: &'a [WrittenParameter],
    blocks: &'a [WrittenBlock],
) -> Result<(), AllocError>
    ensures { OnOk result (HoldsNames names.new (locals_from 0 (announced (map parameter_view parameters.now) (map block_view blocks.now)))) }
{
    names.clear();
    add_parameters(names, alloc, parameters)?;
    add_blocks(names, alloc, blocks)
}

/// What the values and the blocks of a function are called.
#[derive(Drop)]
pub(crate) struct FunctionLocals<'a> {
    /// The function, for the contracts to name.
    parameters: &'a [WrittenParameter],
    blocks: &'a [WrittenBlock],
    names: LocalNames<'a>,
}

impl<'a> FunctionLocals<'a> {
    /// Those of no function yet.
    pub(crate) fn new(alloc: Global) -> Self {
        FunctionLocals {
            parameters: &[],
            blocks: &[],
            names: LocalNames::new(alloc),
        }
    }

    /// Gathers those of the function with these parameters and blocks, whichever function's they were.
    pub(crate) fn gather(
        &mut self,
        alloc: Global,
        parameters: &'a [WrittenParameter],
        blocks: &'a [WrittenBlock],
    ) -> Result<(), AllocError>
        ensures gathered { OnOk result (AreGathered self.new) }
        ensures function { OnOk result (locals_of self.new ≡ locals_from 0 (announced (map parameter_view parameters.now) (map block_view blocks.now))) }
    {
        gather_names(&mut self.names, alloc, parameters, blocks)?;
        self.parameters = parameters;
        self.blocks = blocks;
        Ok(())
    }

    /// Whether a block, or a value, is called by that number, which came in turn, as nearly all do; where it is not told so, `has`
    /// tells it.
    pub(crate) fn is_in_turn(&self, block: bool, written: &Local) -> bool
        requires { AreGathered self.now }
        ensures { result ≡ true → is_there (locals_of self.now) block (local_in written.now) ≡ true }
    {
        self.names.is_in_turn(block, written)
    }

    /// Whether a block, or a value, is called so.
    pub(crate) fn has(
        &self,
        alloc: Global,
        block: bool,
        written: &Local,
    ) -> Result<bool, AllocError>
        requires { AreGathered self.now }
        ensures { IfOk result (λ has. has ≡ is_there (locals_of self.now) block (local_in written.now)) }
    {
        self.names.has(alloc, block, written)
    }
}
