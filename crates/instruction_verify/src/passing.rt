//! Whether an instruction, or the end of a block, passes: one answer to several rules, with no room for a fault.
ghost use Rattle.std.specs.Prelude.{◌≡◌, ◌<◌, ℕ, true, List, All, length};
ghost use Rattle.type_table.specs.Types.{tree};
ghost use Rattle.module_arena.specs.Mentions.{end_operands_of};
ghost use Rattle.module_arena.specs.Module as modules;
ghost use Rattle.module_arena.specs.Module.{Bytes, LocalName};
ghost use Rattle.module_arena.specs.Operations.{operands};
ghost use Rattle.module_arena.specs.Valid.{AllHold};
ghost use Rattle.module_arena.specs.ValueRules.{operands_fit};
ghost use Rattle.module_arena.specs.View.{module_of};
ghost use Rattle.instruction_verify.specs.ArenaOperands.{HasInst, HasOperand, ending_in, instruction_in};
ghost use Rattle.instruction_verify.specs.Parts.{ending_first_demands, ending_type_demands, first_demands, type_demands};

use crate::callees::{callee_takes_no_intrinsic, callee_types_suit, instruction_alignment_suits};
use crate::elements::element_address_suits;
use crate::endings::plain_ending_suits;
use crate::operands::{ending_fact, instruction_fact};
use crate::rules::{address_suits, arithmetic_suits, cast_suits, part_suits};
use crate::written_types::own_types_suit;
use entry_verify::constants::Judge;
use module_arena::{Ending, Function, Inst};

/// Whether a look tells that the rules 5 to 7 and 12 to 16 hold of an instruction, and that the constants among its operands fit the
/// types that are written before them. It may be false where all that holds: [`crate::judge_instruction_first`] and
/// [`crate::judge_instruction_types`] judge it then.
pub fn instruction_passes(judge: &Judge<'_>, instruction: &Inst) -> bool
    requires { HasInst judge.now instruction.now }
    ensures first { (values blocks : List LocalName) (function : Bytes) (number : ℕ) → result ≡ true → AllHold (first_demands (module_of judge.now) function number (instruction_in judge.now values blocks instruction.now)) }
    ensures types { (values blocks : List LocalName) (function : Bytes) (number : ℕ) → result ≡ true → AllHold (type_demands (module_of judge.now) function number (instruction_in judge.now values blocks instruction.now)) }
    ensures fits { (values blocks : List LocalName) → result ≡ true → operands_fit (module_of judge.now).structs (operands (instruction_in judge.now values blocks instruction.now).operation) ≡ true }
{
    let types = judge.types();
    let fact = instruction_fact(judge, instruction);
    let free = callee_takes_no_intrinsic(judge, instruction);
    let written = callee_types_suit(judge, instruction);
    let own = own_types_suit(types, instruction);
    let aligned = instruction_alignment_suits(instruction);
    let arithmetic = arithmetic_suits(types, instruction);
    let cast = cast_suits(types, instruction);
    let address = address_suits(types, instruction);
    let element = element_address_suits(judge, instruction);
    let part = part_suits(types, instruction);
    let first = (fact.takes_no_intrinsic & free) & ((fact.types_suit & (written & own)) & aligned);
    let rules = arithmetic & (cast & (address & (element & part)));
    first & (rules & fact.fits)
}

/// Whether a look tells that the rules 5, 6, 17 and 18 hold of the end of a block. It may be false where all hold, as it is of each
/// `switch`: [`crate::judge_ending_first`] and [`crate::judge_ending_types`] judge them then.
pub fn ending_passes(judge: &Judge<'_>, function: &Function, ending: &Ending) -> bool
    requires returns { function.now.result < length judge.now.table.types }
    requires known { All (HasOperand judge.now) (end_operands_of ending.now) }
    ensures first { (values blocks : List LocalName) (number : ℕ) → result ≡ true → AllHold (ending_first_demands (module_of judge.now) function.now.name number (ending_in judge.now values blocks ending.now)) }
    ensures types { (f : modules.Function) (values blocks : List LocalName) (number : ℕ) → f.returns ≡ tree judge.now.table function.now.result → result ≡ true → AllHold (ending_type_demands (module_of judge.now) f number (ending_in judge.now values blocks ending.now)) }
{
    let suits = plain_ending_suits(judge, function.result, ending);
    let fact = ending_fact(judge, ending);
    (fact.takes_no_intrinsic & fact.types_suit) & (suits & fact.fits)
}
