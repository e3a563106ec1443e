//! Judges the parameters and the bodies of functions.
#![tactic(auto, using(crate::proofs::OnLocals::Steps::goes_memory))]

ghost use Rattle.std.specs.Prelude.{◌≡◌, ◌++◌, map, flat_map, Ok, true, false};
ghost use Rattle.ir_phrases.specs.Constants.View.{type_view};
ghost use Rattle.ir_phrases.specs.Instructions.View.{instruction_view, block_view};
ghost use Rattle.ir_syntax.specs.View.{parameter_view};
ghost use Rattle.name_rules.specs.FunctionDemands.{call_demands, called_with, called_after, instruction_demands, instructions_demands, block_demands, blocks_demands, parameters_demands, definition_demands};
ghost use Rattle.name_rules.specs.Locals.{Locals, announced_parameter, announced_result, announced_block};
ghost use Rattle.name_rules.specs.TypeDemands as demands;
ghost use Rattle.name_rules.specs.TypeDemands.{type_demands};
ghost use Rattle.type_judge.specs.Gathered.{IsKnown, known_of};
ghost use Rattle.type_judge.specs.Judging.{IsJudged};
ghost use Rattle.name_judge.specs.Locals.Calling.{Goes};
ghost use Rattle.name_judge.specs.Locals.Names.{AreGathered, locals_of};

use crate::locals::called::CalledNames;
use crate::locals::endings::check_ending;
use crate::locals::gathered::FunctionLocals;
use crate::locals::operations::check_operation;
use crate::locals::passing::{operation_passes, type_passes};
use crate::locals::results::has_result;
use crate::locals::tables::LocalTables;
use ir_phrases::instructions::{Instruction, WrittenBlock};
use ir_syntax::WrittenParameter;
use name_rules::ResolveFault;
use std::alloc::Global;
use type_judge::{Known, check_type};

/// The result of an instruction, where it has one.
fn check_result<'a>(
    alloc: Global,
    called: &mut CalledNames<'a>,
    instruction: &'a Instruction,
) -> Result<(), ResolveFault>
    ensures { Goes called.old called.new (λ before. call_demands before instruction.now.result) (λ before. called_after before (announced_result (instruction_view instruction.now))) result }
{
    if !has_result(instruction) {
        return Ok(());
    }
    called.call(alloc, &instruction.result)
}

/// Calls the result of an instruction, where it has one, and tells whether it did, by the next number.
#[inline(always)]
fn result_passes(called: &mut CalledNames, instruction: &Instruction) -> bool
    ensures called { result ≡ true → Goes called.old called.new (λ before. call_demands before instruction.now.result) (λ before. called_after before (announced_result (instruction_view instruction.now))) (Ok tt) }
    ensures same { result ≡ false → called.new ≡ called.old }
{
    if !has_result(instruction) {
        return true;
    }
    called.call_in_turn(&instruction.result)
}

/// Whether a look tells that all holds that an instruction asks for; else nothing is called.
#[inline(always)]
fn instruction_passes(
    known: &Known,
    locals: &FunctionLocals,
    called: &mut CalledNames,
    instruction: &Instruction,
) -> bool
    requires known { IsKnown known.now }
    requires locals { AreGathered locals.now }
    ensures called { result ≡ true → Goes called.old called.new (λ before. instruction_demands (known_of known.now) (locals_of locals.now) before (instruction_view instruction.now)) (λ before. called_after before (announced_result (instruction_view instruction.now))) (Ok tt) }
    ensures same { result ≡ false → called.new ≡ called.old }
{
    if !operation_passes(known, locals, &instruction.operation) {
        return false;
    }
    result_passes(called, instruction)
}

/// An instruction: what its result is called, and what it does.
#[inline(never)]
fn check_whole_instruction<'a>(
    alloc: Global,
    known: &Known,
    locals: &FunctionLocals,
    called: &mut CalledNames<'a>,
    instruction: &'a Instruction,
) -> Result<(), ResolveFault>
    requires known { IsKnown known.now }
    requires locals { AreGathered locals.now }
    ensures { Goes called.old called.new (λ before. instruction_demands (known_of known.now) (locals_of locals.now) before (instruction_view instruction.now)) (λ before. called_after before (announced_result (instruction_view instruction.now))) result }
{
    check_result(alloc, called, instruction)?;
    check_operation(alloc, known, locals, &instruction.operation)
}

/// An instruction: what its result is called, and what it does. A look tells of most that all holds.
#[inline(always)]
fn check_instruction<'a>(
    alloc: Global,
    known: &Known,
    locals: &FunctionLocals,
    called: &mut CalledNames<'a>,
    instruction: &'a Instruction,
) -> Result<(), ResolveFault>
    requires known { IsKnown known.now }
    requires locals { AreGathered locals.now }
    ensures { Goes called.old called.new (λ before. instruction_demands (known_of known.now) (locals_of locals.now) before (instruction_view instruction.now)) (λ before. called_after before (announced_result (instruction_view instruction.now))) result }
{
    if instruction_passes(known, locals, called, instruction) {
        return Ok(());
    }
    check_whole_instruction(alloc, known, locals, called, instruction)
}

/// Instructions, each behind what was called before it.
fn check_instructions<'a>(
    alloc: Global,
    known: &Known,
    locals: &FunctionLocals,
    called: &mut CalledNames<'a>,
    instructions: &'a [Instruction],
) -> Result<(), ResolveFault>
    requires known { IsKnown known.now }
    requires locals { AreGathered locals.now }
    ensures { Goes called.old called.new (λ before. instructions_demands (known_of known.now) (locals_of locals.now) before (map instruction_view instructions.now)) (λ before. called_after before (flat_map announced_result (map instruction_view instructions.now))) result }
{
    'instructions: for instruction in instructions {
        check_instruction(alloc, known, locals, called, instruction)?;
    }
    Ok(())
}

/// A block: its label, its instructions and its end.
fn check_block<'a>(
    alloc: Global,
    known: &Known,
    locals: &FunctionLocals,
    called: &mut CalledNames<'a>,
    block: &'a WrittenBlock,
) -> Result<(), ResolveFault>
    requires known { IsKnown known.now }
    requires locals { AreGathered locals.now }
    ensures { Goes called.old called.new (λ before. block_demands (known_of known.now) (locals_of locals.now) before (block_view block.now)) (λ before. called_after before (announced_block (block_view block.now))) result }
{
    called.call(alloc, &block.label)?;
    check_instructions(alloc, known, locals, called, &block.instructions)?;
    check_ending(alloc, known, locals, &block.ending)
}

/// Blocks, each behind what was called before it.
fn check_blocks<'a>(
    alloc: Global,
    known: &Known,
    locals: &FunctionLocals,
    called: &mut CalledNames<'a>,
    blocks: &'a [WrittenBlock],
) -> Result<(), ResolveFault>
    requires known { IsKnown known.now }
    requires locals { AreGathered locals.now }
    ensures { Goes called.old called.new (λ before. blocks_demands (known_of known.now) (locals_of locals.now) before (map block_view blocks.now)) (λ before. called_after before (flat_map announced_block (map block_view blocks.now))) result }
{
    'all_blocks: for block in blocks {
        check_block(alloc, known, locals, called, block)?;
    }
    Ok(())
}

/// Whether a look tells that all holds that a parameter asks for; else nothing is called.
#[inline(always)]
fn parameter_passes(called: &mut CalledNames, parameter: &WrittenParameter) -> bool
    ensures called { (known : demands.Known) → result ≡ true → Goes called.old called.new (λ before. type_demands known (type_view parameter.now.ty) ++ call_demands before parameter.now.name) (λ before. called_with before (false, parameter.now.name)) (Ok tt) }
    ensures same { result ≡ false → called.new ≡ called.old }
{
    if !type_passes(&parameter.ty) {
        return false;
    }
    called.call_in_turn(&parameter.name)
}

/// A parameter: its type, and what it is called.
#[inline(never)]
fn check_whole_parameter<'a>(
    alloc: Global,
    known: &Known,
    called: &mut CalledNames<'a>,
    parameter: &'a WrittenParameter,
) -> Result<(), ResolveFault>
    requires known { IsKnown known.now }
    ensures { Goes called.old called.new (λ before. type_demands (known_of known.now) (type_view parameter.now.ty) ++ call_demands before parameter.now.name) (λ before. called_with before (false, parameter.now.name)) result }
{
    check_type(alloc, known, &parameter.ty)?;
    called.call(alloc, &parameter.name)
}

/// A parameter: its type, and what it is called. A look tells of most that all holds.
#[inline(always)]
fn check_parameter<'a>(
    alloc: Global,
    known: &Known,
    called: &mut CalledNames<'a>,
    parameter: &'a WrittenParameter,
) -> Result<(), ResolveFault>
    requires known { IsKnown known.now }
    ensures { Goes called.old called.new (λ before. type_demands (known_of known.now) (type_view parameter.now.ty) ++ call_demands before parameter.now.name) (λ before. called_with before (false, parameter.now.name)) result }
{
    if parameter_passes(called, parameter) {
        return Ok(());
    }
    check_whole_parameter(alloc, known, called, parameter)
}

/// Parameters, each behind what was called before it.
fn check_parameters<'a>(
    alloc: Global,
    known: &Known,
    called: &mut CalledNames<'a>,
    parameters: &'a [WrittenParameter],
) -> Result<(), ResolveFault>
    requires known { IsKnown known.now }
    ensures { (all : Locals) → Goes called.old called.new (λ before. parameters_demands (known_of known.now) all before (map parameter_view parameters.now)) (λ before. called_after before (map announced_parameter (map parameter_view parameters.now))) result }
{
    'parameters: for parameter in parameters {
        check_parameter(alloc, known, called, parameter)?;
    }
    Ok(())
}

/// The parameters and the body of a definition, in the order of the text: tells the first demand that does not hold. The
/// tables may be those of any function before.
/// Errors: a local that is called twice or has a wrong number, a name of nothing, a constant out of range, a type that is
/// too deep or too large (LangRef, "Identifiers"); or want of memory.
pub fn check_definition<'a>(
    alloc: Global,
    known: &Known,
    tables: &mut LocalTables<'a>,
    parameters: &'a [WrittenParameter],
    blocks: &'a [WrittenBlock],
) -> Result<(), ResolveFault>
    requires known { IsKnown known.now }
    ensures { IsJudged (definition_demands (known_of known.now) (map parameter_view parameters.now) (map block_view blocks.now)) result }
{
    tables.begin(alloc, parameters, blocks)?;
    check_parameters(alloc, known, &mut tables.called, parameters)?;
    check_blocks(alloc, known, &tables.locals, &mut tables.called, blocks)
}
