//! The rules behind those on phis and paths: 11 to 18.
ghost use Rattle.std.specs.Prelude.{◌≡◌, ◌<◌, List, All, length, map};
ghost use Rattle.type_table.specs.Types.{trees};
ghost use Rattle.module_arena.specs.Changes.{function_in};
ghost use Rattle.module_arena.specs.Known.{HasOperand};
ghost use Rattle.module_arena.specs.Module.{LocalName};
ghost use Rattle.module_arena.specs.View.{constants_of, ending_view, inst_view, module_of, operand_view};
ghost use Rattle.path_rows.specs.Operands as gathered;
ghost use Rattle.entry_verify.specs.Types.Judged.{Judged};
ghost use Rattle.instruction_verify.specs.Parts.{ending_last_demands, last_demands};
ghost use Rattle.instruction_verify.specs.Last.ValuesById.{AreLocalTypes, AreTypes};
ghost use Rattle.instruction_verify.specs.Last.CallsById.{HasUses};
ghost use Rattle.instruction_verify.specs.Last.Last.{call_demands, written_demands};

use crate::last::callees::callee_fits;
use crate::last::calls::call_suits;
use crate::last::local_type::LocalType;
use crate::last::values::operands_fit;
use crate::last::written::have_types_written;
use crate::{judge_ending_types, judge_instruction_types};
use entry_verify::constants::Judge;
use entry_verify::types::{VerifyFault, asked, judge_instruction};
use module_arena::{Ending, Function, Inst, Operand};
use path_rows::callee_of;
use std::alloc::Global;

/// Rule 11: whether local values have the types that are written before them.
fn judge_written(
    alloc: Global,
    judge: &Judge<'_>,
    value_types: &[LocalType],
    function: &Function,
    number: u64,
    operands: &[Operand],
) -> Result<(), VerifyFault>
    requires types { AreTypes judge.now.table value_types.now }
    requires known { All (HasOperand (length judge.now.table.types) (length judge.now.constants) (length value_types.now)) operands.now }
    ensures { (values blocks : List LocalName) → AreLocalTypes judge.now (function_in judge.now function.now) values value_types.now
        → Judged (written_demands (module_of judge.now) (function_in judge.now function.now) number (map (operand_view (trees judge.now.table) (constants_of judge.now) values blocks) operands.now)) result }
{
    let typed = have_types_written(judge, value_types, operands);
    judge_instruction(alloc, number, &function.name, &[asked(11, typed)])
}

/// Rules 17 and 18: whether a call suits, and whether constants fit. The operands are those of the instruction.
fn judge_calls(
    alloc: Global,
    judge: &Judge<'_>,
    value_types: &[LocalType],
    function: &Function,
    number: u64,
    instruction: &Inst,
    operands: &[Operand],
) -> Result<(), VerifyFault>
    requires types { AreTypes judge.now.table value_types.now }
    requires known { HasUses judge.now (length value_types.now) instruction.now }
    requires gathered { operands.now ≡ gathered.operands_of instruction.now }
    ensures { (values blocks : List LocalName) → AreLocalTypes judge.now (function_in judge.now function.now) values value_types.now
        → Judged (call_demands (module_of judge.now) (function_in judge.now function.now) number (inst_view (trees judge.now.table) (constants_of judge.now) values blocks instruction.now)) result }
{
    let suits = call_suits(judge, value_types, instruction);
    let direct = callee_fits(judge, callee_of(instruction));
    let fits = operands_fit(judge, operands) & direct;
    judge_instruction(
        alloc,
        number,
        &function.name,
        &[asked(17, suits), asked(18, fits)],
    )
}

/// What an instruction is asked behind the rules on phis and paths: a fault of the first of the rules 11 to 18 that does not hold, at
/// the instruction by its number in the function. The list of types has the type of each parameter and result of the function, by its
/// number; the operands are those of the instruction, each with the type that its place writes.
/// Ok where all hold; else the first that does not, with a copy of the function's name, so memory may be wanting.
pub fn judge_last(
    alloc: Global,
    judge: &Judge<'_>,
    value_types: &[LocalType],
    function: &Function,
    number: u64,
    instruction: &Inst,
    operands: &[Operand],
) -> Result<(), VerifyFault>
    requires types { AreTypes judge.now.table value_types.now }
    requires known { HasUses judge.now (length value_types.now) instruction.now }
    requires gathered { operands.now ≡ gathered.operands_of instruction.now }
    ensures { (values blocks : List LocalName) → AreLocalTypes judge.now (function_in judge.now function.now) values value_types.now
        → Judged (last_demands (module_of judge.now) (function_in judge.now function.now) number (inst_view (trees judge.now.table) (constants_of judge.now) values blocks instruction.now)) result }
{
    judge_written(alloc, judge, value_types, function, number, operands)?;
    judge_instruction_types(alloc, judge, &function.name, number, instruction)?;
    judge_calls(
        alloc,
        judge,
        value_types,
        function,
        number,
        instruction,
        operands,
    )
}

/// What the end of a block is asked behind the rule on paths: a fault of the first of the rules 11, 17 and 18 that does not hold, at
/// the end by its number in the function. The list of types has the type of each parameter and result of the function, by its number;
/// the operands are those of the end, each with the type that its place writes.
/// Ok where all hold; else the first that does not, with a copy of the function's name, so memory may be wanting.
pub fn judge_ending_last(
    alloc: Global,
    judge: &Judge<'_>,
    value_types: &[LocalType],
    function: &Function,
    number: u64,
    ending: &Ending,
    operands: &[Operand],
) -> Result<(), VerifyFault>
    requires returns { function.now.result < length judge.now.table.types }
    requires types { AreTypes judge.now.table value_types.now }
    requires known { All (HasOperand (length judge.now.table.types) (length judge.now.constants) (length value_types.now)) operands.now }
    requires gathered { operands.now ≡ gathered.end_operands_of ending.now }
    ensures { (values blocks : List LocalName) → AreLocalTypes judge.now (function_in judge.now function.now) values value_types.now
        → Judged (ending_last_demands (module_of judge.now) (function_in judge.now function.now) number (ending_view (trees judge.now.table) (constants_of judge.now) values blocks ending.now)) result }
{
    judge_written(alloc, judge, value_types, function, number, operands)?;
    judge_ending_types(alloc, judge, function, number, ending)
}
