//! What instructions are asked of the types that they work on.
ghost use Rattle.std.specs.Prelude.{List};
ghost use Rattle.module_arena.specs.Module.{LocalName};
ghost use Rattle.module_arena.specs.View.{module_of};
ghost use Rattle.entry_verify.specs.Types.Judged.{Judged};
ghost use Rattle.instruction_verify.specs.ArenaOperands.{HasInst, instruction_in};
ghost use Rattle.instruction_verify.specs.Parts.{type_demands};

use crate::elements::element_address_suits;
use crate::rules::{address_suits, arithmetic_suits, cast_suits, part_suits};
use entry_verify::constants::Judge;
use entry_verify::types::{VerifyFault, asked, judge_instruction};
use ir_base::Name;
use module_arena::Inst;
use std::alloc::Global;

/// What an instruction is asked of the types that it works on: a fault of the first of the rules 12 to 16 that does not hold, at the
/// instruction by its number in the function of that name.
/// Ok where all hold; else the first that does not, with a copy of the name of what is at
/// fault, so memory may be wanting.
pub fn judge_instruction_types(
    alloc: Global,
    judge: &Judge<'_>,
    function: &Name,
    number: u64,
    instruction: &Inst,
) -> Result<(), VerifyFault>
    requires { HasInst judge.now instruction.now }
    ensures { (values blocks : List LocalName) → Judged (type_demands (module_of judge.now) function.now number (instruction_in judge.now values blocks instruction.now)) result }
{
    let types = judge.types();
    let arithmetic = arithmetic_suits(types, instruction);
    let cast = cast_suits(types, instruction);
    let address = address_suits(types, instruction);
    let part = part_suits(types, instruction);
    judge_instruction(
        alloc,
        number,
        function,
        &[
            asked(12, arithmetic),
            asked(13, cast),
            asked(14, address),
            asked(15, element_address_suits(judge, instruction)),
            asked(16, part),
        ],
    )
}
