//! Ends of blocks, those with several parts.
ghost use Rattle.std.specs.Prelude.{◌≡◌, ◌<◌, ◌^◌, map, length, IfOk, OnOk};
ghost use Rattle.ir_phrases.specs.Constants.View.{typed_value_view};
ghost use Rattle.ir_phrases.specs.Instructions.Tree as tree;
ghost use Rattle.ir_phrases.specs.Instructions.View.{case_view};
ghost use Rattle.name_rules.specs.Bodies.{ending_in};
ghost use Rattle.item_build.specs.Types.Stands.{Grows};
ghost use Rattle.ir_resolve.specs.InstructionBuild.Meant.{IsEnding};
ghost use Rattle.ir_resolve.specs.InstructionBuild.Parts.{value_names, block_names};
ghost use Rattle.ir_resolve.specs.InstructionBuild.Made.{TakesEnding};

use crate::instruction_build::locals::Locals;
use crate::instruction_build::targets::{build_cases, find_block};
use crate::instruction_build::values::build_operand;
use ir_phrases::constants::TypedValue;
use ir_phrases::instructions::{Branch, Switch};
use item_build::types::Builder;
use module_arena::Ending;
use std::alloc::{AllocError, Global};

/// `ret` with a value.
pub(crate) fn build_return(
    builder: &mut Builder,
    alloc: Global,
    locals: &Locals,
    written: &TypedValue,
) -> Result<Ending, AllocError>
    requires can { TakesEnding builder.old.arena locals.now (tree.Return (typed_value_view written.now)) }
    requires few_values { length locals.now.values.names.items < 2 ^ 32 }
    ensures grows { OnOk result (Grows builder.old.arena builder.new.arena) }
    ensures is { IfOk result (λ e. IsEnding (value_names locals.now) (block_names locals.now) builder.new.arena e (ending_in (tree.Return (typed_value_view written.now)))) }
{
    let operand = build_operand(builder, alloc, locals, written)?;
    Ok(Ending::Return(operand))
}

/// `br` on a condition.
pub(crate) fn build_branch(
    builder: &mut Builder,
    alloc: Global,
    locals: &Locals,
    branch: &Branch,
) -> Result<Ending, AllocError>
    requires can { TakesEnding builder.old.arena locals.now (tree.Branch (typed_value_view branch.now.condition) branch.now.then_to branch.now.else_to) }
    requires few_values { length locals.now.values.names.items < 2 ^ 32 }
    requires few_blocks { length locals.now.blocks.names.items < 2 ^ 32 }
    ensures grows { OnOk result (Grows builder.old.arena builder.new.arena) }
    ensures is { IfOk result (λ e. IsEnding (value_names locals.now) (block_names locals.now) builder.new.arena e (ending_in (tree.Branch (typed_value_view branch.now.condition) branch.now.then_to branch.now.else_to))) }
{
    let condition = build_operand(builder, alloc, locals, &branch.condition)?;
    let then_to = find_block(locals, &branch.then_to);
    let else_to = find_block(locals, &branch.else_to);
    Ok(Ending::Branch {
        condition,
        then_to,
        else_to,
    })
}

/// `switch`
pub(crate) fn build_switch(
    builder: &mut Builder,
    alloc: Global,
    locals: &Locals,
    switch: &Switch,
) -> Result<Ending, AllocError>
    requires can { TakesEnding builder.old.arena locals.now (tree.Switch (typed_value_view switch.now.value) switch.now.otherwise (map case_view switch.now.cases.items)) }
    requires few_values { length locals.now.values.names.items < 2 ^ 32 }
    requires few_blocks { length locals.now.blocks.names.items < 2 ^ 32 }
    ensures grows { OnOk result (Grows builder.old.arena builder.new.arena) }
    ensures is { IfOk result (λ e. IsEnding (value_names locals.now) (block_names locals.now) builder.new.arena e (ending_in (tree.Switch (typed_value_view switch.now.value) switch.now.otherwise (map case_view switch.now.cases.items)))) }
{
    let operand = build_operand(builder, alloc, locals, &switch.value)?;
    let otherwise = find_block(locals, &switch.otherwise);
    let cases = build_cases(builder, alloc, locals, &switch.cases)?;
    Ok(Ending::Switch {
        value: operand,
        otherwise,
        cases,
    })
}
