//! What instructions and ends are asked before the rules on phis and paths.
ghost use Rattle.std.specs.Prelude.{List, All};
ghost use Rattle.module_arena.specs.Mentions.{end_operands_of};
ghost use Rattle.module_arena.specs.Module.{LocalName};
ghost use Rattle.module_arena.specs.View.{module_of};
ghost use Rattle.entry_verify.specs.Types.Judged.{Judged};
ghost use Rattle.instruction_verify.specs.ArenaOperands.{HasInst, HasOperand, ending_in, instruction_in};
ghost use Rattle.instruction_verify.specs.Parts.{ending_first_demands, first_demands};

use crate::callees::{callee_takes_no_intrinsic, callee_types_suit, instruction_alignment_suits};
use crate::operands::{ending_fact, instruction_fact};
use crate::written_types::own_types_suit;
use entry_verify::constants::Judge;
use entry_verify::types::{VerifyFault, asked, judge_instruction};
use ir_base::Name;
use module_arena::{Ending, Inst};
use std::alloc::Global;

/// What an instruction is asked before the rules on phis and paths: a fault of the first of the rules 5 to 7 that does not hold, at
/// the instruction by its number in the function of that name.
/// Ok where all hold; else the first that does not, with a copy of the name of what is at
/// fault, so memory may be wanting.
pub fn judge_instruction_first(
    alloc: Global,
    judge: &Judge<'_>,
    function: &Name,
    number: u64,
    instruction: &Inst,
) -> Result<(), VerifyFault>
    requires { HasInst judge.now instruction.now }
    ensures { (values blocks : List LocalName) → Judged (first_demands (module_of judge.now) function.now number (instruction_in judge.now values blocks instruction.now)) result }
{
    let fact = instruction_fact(judge, instruction);
    let free = callee_takes_no_intrinsic(judge, instruction);
    let written = callee_types_suit(judge, instruction);
    let own = own_types_suit(judge.types(), instruction);
    judge_instruction(
        alloc,
        number,
        function,
        &[
            asked(5, fact.takes_no_intrinsic & free),
            asked(6, fact.types_suit & (written & own)),
            asked(7, instruction_alignment_suits(instruction)),
        ],
    )
}

/// What the end of a block is asked before the rule on paths: a fault of the first of the rules 5 and 6 that does not hold, at the
/// end by its number in the function of that name.
/// Ok where all hold; else the first that does not, with a copy of the name of what is at
/// fault, so memory may be wanting.
pub fn judge_ending_first(
    alloc: Global,
    judge: &Judge<'_>,
    function: &Name,
    number: u64,
    ending: &Ending,
) -> Result<(), VerifyFault>
    requires { All (HasOperand judge.now) (end_operands_of ending.now) }
    ensures { (values blocks : List LocalName) → Judged (ending_first_demands (module_of judge.now) function.now number (ending_in judge.now values blocks ending.now)) result }
{
    let fact = ending_fact(judge, ending);
    judge_instruction(
        alloc,
        number,
        function,
        &[asked(5, fact.takes_no_intrinsic), asked(6, fact.types_suit)],
    )
}
