//! Whether an instruction, or the end of a block, passes the rules on types: one answer to them, with no room for a fault.
ghost use Rattle.std.specs.Prelude.{◌≡◌, ◌<◌, ℕ, true, List, All, length};
ghost use Rattle.type_table.specs.Types.{trees};
ghost use Rattle.module_arena.specs.Changes.{function_in};
ghost use Rattle.module_arena.specs.Known.{HasOperand};
ghost use Rattle.module_arena.specs.Module as modules;
ghost use Rattle.module_arena.specs.Module.{Bytes, LocalName};
ghost use Rattle.module_arena.specs.Valid.{AllHold};
ghost use Rattle.module_arena.specs.View.{constants_of, ending_view, inst_view, module_of};
ghost use Rattle.path_rows.specs.Operands as gathered;
ghost use Rattle.instruction_verify.specs.Parts.{ending_first_demands, ending_last_demands, first_demands, last_demands, type_demands};
ghost use Rattle.instruction_verify.specs.Last.Last.{call_demands};
ghost use Rattle.instruction_verify.specs.Last.ValuesById.{AreLocalTypes, AreTypes};
ghost use Rattle.instruction_verify.specs.Last.CallsById.{HasUses};

use crate::last::callees::callee_fits;
use crate::last::calls::call_suits;
use crate::last::local_type::LocalType;
use crate::last::written::{all_have, have_types_written};
use crate::{ending_passes, instruction_passes};
use entry_verify::constants::Judge;
use module_arena::{Ending, Function, Inst, Operand};
use path_rows::callee_of;

/// Whether a look tells that the rules 5 to 7 and 12 to 18 hold of an instruction: all but that on the types written before its
/// operands. It may be false where all hold: each is judged then, as [`types_pass`] says. The list of types has the type of each
/// parameter and result of the function, by its number.
pub fn operation_passes(judge: &Judge<'_>, value_types: &[LocalType], instruction: &Inst) -> bool
    requires types { AreTypes judge.now.table value_types.now }
    requires known { HasUses judge.now (length value_types.now) instruction.now }
    // Rules 5 to 7, 12 to 16, and 17 and 18.
    ensures first { (values blocks : List LocalName) (function : Bytes) (number : ℕ) → result ≡ true
        → AllHold (first_demands (module_of judge.now) function number (inst_view (trees judge.now.table) (constants_of judge.now) values blocks instruction.now)) }
    ensures types { (values blocks : List LocalName) (function : Bytes) (number : ℕ) → result ≡ true
        → AllHold (type_demands (module_of judge.now) function number (inst_view (trees judge.now.table) (constants_of judge.now) values blocks instruction.now)) }
    ensures calls { (f : modules.Function) (values blocks : List LocalName) (number : ℕ) → AreLocalTypes judge.now f values value_types.now → result ≡ true
        → AllHold (call_demands (module_of judge.now) f number (inst_view (trees judge.now.table) (constants_of judge.now) values blocks instruction.now)) }
{
    let passes = instruction_passes(judge, instruction);
    let suits = call_suits(judge, value_types, instruction);
    let direct = callee_fits(judge, callee_of(instruction));
    passes & (suits & direct)
}

/// Whether a look tells that the rules 5 to 7 and 11 to 18 hold of an instruction. It may be false where all hold:
/// [`instruction_verify::judge_instruction_first`] and [`crate::last::judge_last`] judge each then. The list of types has the type of each
/// parameter and result of the function, by its number; the operands are those of the instruction, each with the type that its place
/// writes.
pub fn types_pass(
    judge: &Judge<'_>,
    value_types: &[LocalType],
    instruction: &Inst,
    operands: &[Operand],
) -> bool
    requires types { AreTypes judge.now.table value_types.now }
    requires known { HasUses judge.now (length value_types.now) instruction.now }
    requires gathered { operands.now ≡ gathered.operands_of instruction.now }
    ensures first { (values blocks : List LocalName) (function : Bytes) (number : ℕ) → result ≡ true
        → AllHold (first_demands (module_of judge.now) function number (inst_view (trees judge.now.table) (constants_of judge.now) values blocks instruction.now)) }
    ensures last { (f : modules.Function) (values blocks : List LocalName) (number : ℕ) → AreLocalTypes judge.now f values value_types.now → result ≡ true
        → AllHold (last_demands (module_of judge.now) f number (inst_view (trees judge.now.table) (constants_of judge.now) values blocks instruction.now)) }
{
    let typed = all_have(judge, value_types, operands);
    operation_passes(judge, value_types, instruction) & typed
}

/// Whether a look tells that the rules 5, 6, 11, 17 and 18 hold of the end of a block. It may be false where all hold, as it is of each
/// `switch`: [`instruction_verify::judge_ending_first`] and [`crate::last::judge_ending_last`] judge each then. The list of types has the type
/// of each parameter and result of the function, by its number; the operands are those of the end, each with the type that its place
/// writes.
pub fn ending_types_pass(
    judge: &Judge<'_>,
    value_types: &[LocalType],
    function: &Function,
    ending: &Ending,
    operands: &[Operand],
) -> bool
    requires returns { function.now.result < length judge.now.table.types }
    requires types { AreTypes judge.now.table value_types.now }
    requires known { All (HasOperand (length judge.now.table.types) (length judge.now.constants) (length value_types.now)) operands.now }
    requires gathered { operands.now ≡ gathered.end_operands_of ending.now }
    ensures first { (values blocks : List LocalName) (number : ℕ) → result ≡ true
        → AllHold (ending_first_demands (module_of judge.now) function.now.name number (ending_view (trees judge.now.table) (constants_of judge.now) values blocks ending.now)) }
    ensures last { (values blocks : List LocalName) (number : ℕ) → AreLocalTypes judge.now (function_in judge.now function.now) values value_types.now → result ≡ true
        → AllHold (ending_last_demands (module_of judge.now) (function_in judge.now function.now) number (ending_view (trees judge.now.table) (constants_of judge.now) values blocks ending.now)) }
{
    let passes = ending_passes(judge, function, ending);
    let typed = have_types_written(judge, value_types, operands);
    passes & typed
}
