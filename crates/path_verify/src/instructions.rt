//! One instruction, or the end of a block: all that it is asked, in order.
ghost use Rattle.std.specs.Prelude.{◌≡◌, ◌<◌, length, take};
ghost use Rattle.std.specs.List.{list_all};
ghost use Rattle.module_arena.specs.Changes.{function_in};
ghost use Rattle.module_arena.specs.InstructionRules.{is_phi};
ghost use Rattle.module_arena.specs.Lists.{function_blocks};
ghost use Rattle.module_arena.specs.Module as modules;
ghost use Rattle.module_arena.specs.Valid.{ending_demands, instruction_demands};
ghost use Rattle.module_arena.specs.View.{module_of};
ghost use Rattle.path_rows.specs.Operands.{end_operands_of, operands_of};
ghost use Rattle.instruction_verify.specs.Uses.Edges.{MayBeSourced};
ghost use Rattle.entry_verify.specs.Types.Judged.{Judged};
ghost use Rattle.instruction_verify.specs.Uses.Uses.{block_named, ending_in, instruction_in};
ghost use Rattle.path_verify.specs.Ready.{IsReady, KnowsEnding, KnowsInstruction};

use crate::facts::FunctionFacts;
use entry_verify::types::VerifyFault;
use instruction_verify::last::{ending_types_pass, judge_ending_last, judge_last, types_pass};
use instruction_verify::uses::{
    PhiJudge, Site, ending_uses_pass, is_phi, judge_ending_uses, judge_uses, uses_pass,
};
use instruction_verify::{judge_ending_first, judge_instruction_first};
use module_arena::{Ending, Inst, Operand};
use path_rows::{gather, gather_ending};
use std::alloc::Global;

/// What an instruction is asked, rule by rule. It stands apart from an instruction other than a phi of which all rules hold, so that
/// that needs no room for a fault.
#[cold]
#[inline(never)]
fn judge_instruction_in_order(
    alloc: Global,
    facts: &FunctionFacts<'_>,
    phis: &mut PhiJudge,
    operands: &[Operand],
    site: &Site,
    behind_phis: bool,
    instruction: &Inst,
) -> Result<(), VerifyFault>
    requires ready { IsReady facts.now.judge.now facts.now.function.now facts.now.classes.now facts.now.value_types.now.items facts.now.rows }
    requires sourced { MayBeSourced facts.now.function.now phis.old }
    requires block { site.now.block < length (function_blocks facts.now.function.now) }
    requires gathered { operands.now ≡ operands_of instruction.now }
    requires known { KnowsInstruction facts.now.judge.now facts.now.function.now instruction.now }
    ensures sourced { MayBeSourced facts.now.function.now phis.new }
    ensures judged { (block : modules.Block) → block.name ≡ block_named facts.now.function.now site.now.block → behind_phis ≡ list_all is_phi (take site.now.before block.instructions)
        → Judged (instruction_demands (module_of facts.now.judge.now) (function_in facts.now.judge.now facts.now.function.now) block site.now.before site.now.number (instruction_in facts.now.judge.now facts.now.function.now instruction.now)) result }
{
    let function = facts.function;
    let number = site.number;
    judge_instruction_first(alloc, facts.judge, &function.name, number, instruction)?;
    phis.judge_phi(
        alloc,
        facts.classes,
        function,
        *site,
        behind_phis,
        instruction,
    )?;
    judge_uses(alloc, &facts.rows, function, *site, instruction, operands)?;
    judge_last(
        alloc,
        facts.judge,
        facts.value_types,
        function,
        number,
        instruction,
        operands,
    )
}

/// What an instruction is asked: a fault of the first rule that does not hold, at the instruction. `behind_phis` tells whether the
/// instructions before it in its block are phis; what `operands` has does not matter.
pub(crate) fn judge_instruction(
    alloc: Global,
    facts: &FunctionFacts<'_>,
    phis: &mut PhiJudge,
    operands: &mut Vec<Operand>,
    site: &Site,
    behind_phis: bool,
    instruction: &Inst,
) -> Result<(), VerifyFault>
    requires ready { IsReady facts.now.judge.now facts.now.function.now facts.now.classes.now facts.now.value_types.now.items facts.now.rows }
    requires sourced { MayBeSourced facts.now.function.now phis.old }
    requires block { site.now.block < length (function_blocks facts.now.function.now) }
    requires known { KnowsInstruction facts.now.judge.now facts.now.function.now instruction.now }
    ensures sourced { MayBeSourced facts.now.function.now phis.new }
    ensures judged { (block : modules.Block) → block.name ≡ block_named facts.now.function.now site.now.block → behind_phis ≡ list_all is_phi (take site.now.before block.instructions)
        → Judged (instruction_demands (module_of facts.now.judge.now) (function_in facts.now.judge.now facts.now.function.now) block site.now.before site.now.number (instruction_in facts.now.judge.now facts.now.function.now instruction.now)) result }
{
    let function = facts.function;
    operands.clear();
    gather(operands, instruction)?;
    if !is_phi(instruction) {
        let typed = types_pass(facts.judge, facts.value_types, instruction, operands);
        let passes = typed & uses_pass(&facts.rows, function, *site, instruction, operands);
        if passes {
            return Ok(());
        }
    }
    judge_instruction_in_order(alloc, facts, phis, operands, site, behind_phis, instruction)
}

/// What the end of a block is asked, rule by rule. It stands apart from an end of which all rules hold, so that that needs no room for
/// a fault.
#[cold]
#[inline(never)]
fn judge_ending_in_order(
    alloc: Global,
    facts: &FunctionFacts<'_>,
    operands: &[Operand],
    site: &Site,
    ending: &Ending,
) -> Result<(), VerifyFault>
    requires ready { IsReady facts.now.judge.now facts.now.function.now facts.now.classes.now facts.now.value_types.now.items facts.now.rows }
    requires block { site.now.block < length (function_blocks facts.now.function.now) }
    requires gathered { operands.now ≡ end_operands_of ending.now }
    requires known { KnowsEnding facts.now.judge.now facts.now.function.now ending.now }
    ensures { (block : modules.Block) → block.name ≡ block_named facts.now.function.now site.now.block → block.ending ≡ ending_in facts.now.judge.now facts.now.function.now ending.now → site.now.before ≡ length block.instructions
        → Judged (ending_demands (module_of facts.now.judge.now) (function_in facts.now.judge.now facts.now.function.now) block site.now.number) result }
{
    let function = facts.function;
    let number = site.number;
    judge_ending_first(alloc, facts.judge, &function.name, number, ending)?;
    judge_ending_uses(alloc, &facts.rows, function, *site, operands)?;
    judge_ending_last(
        alloc,
        facts.judge,
        facts.value_types,
        function,
        number,
        ending,
        operands,
    )
}

/// What the end of a block is asked: a fault of the first rule that does not hold, at the end. What `operands` has does not matter.
pub(crate) fn judge_ending(
    alloc: Global,
    facts: &FunctionFacts<'_>,
    operands: &mut Vec<Operand>,
    site: &Site,
    ending: &Ending,
) -> Result<(), VerifyFault>
    requires ready { IsReady facts.now.judge.now facts.now.function.now facts.now.classes.now facts.now.value_types.now.items facts.now.rows }
    requires block { site.now.block < length (function_blocks facts.now.function.now) }
    requires known { KnowsEnding facts.now.judge.now facts.now.function.now ending.now }
    ensures { (block : modules.Block) → block.name ≡ block_named facts.now.function.now site.now.block → block.ending ≡ ending_in facts.now.judge.now facts.now.function.now ending.now → site.now.before ≡ length block.instructions
        → Judged (ending_demands (module_of facts.now.judge.now) (function_in facts.now.judge.now facts.now.function.now) block site.now.number) result }
{
    let function = facts.function;
    operands.clear();
    gather_ending(operands, ending)?;
    let typed = ending_types_pass(facts.judge, facts.value_types, function, ending, operands);
    let passes = typed & ending_uses_pass(&facts.rows, function, *site, operands);
    if passes {
        return Ok(());
    }
    judge_ending_in_order(alloc, facts, operands, site, ending)
}
