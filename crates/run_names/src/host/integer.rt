//! The intrinsics over integers.
ghost use Rattle.std.specs.Prelude.{◌≡◌, [], IsTrue};
ghost use Rattle.ir_eval.specs.Value.{IsInteger, IsWidth};
ghost use Rattle.ir_intrinsics.specs.Operands.{IsOperand, second_width, third_width};
ghost use Rattle.ir_memory.specs.Memory.{Blocks};
ghost use Rattle.ir_tables.specs.IntrinsicName.{has_width};
ghost use Rattle.run_rules.specs.Host.{evaluates, operand_at};
ghost use Rattle.run_names.specs.Host.Answers.{answer_of};

use crate::host::HostAnswer;
use ir_eval::Scalar;
use ir_intrinsics::apply;
use ir_tables::Intrinsic;

/// The argument at a place, counted from 0; where the call has none, 0.
pub fn operand_at(arguments: &[Scalar], place: usize) -> Scalar
    ensures { result ≡ operand_at arguments.now place }
{
    arguments.get(place).copied().unwrap_or(Scalar::Int(0))
}

/// What an intrinsic over integers gives at this width, in bits; a poison operand gives poison, and nothing is undefined.
pub fn evaluate(which: Intrinsic, width: u8, arguments: &[Scalar]) -> HostAnswer
    requires width { IsWidth width }
    requires whole { IsTrue (has_width which width) }
    requires first { IsInteger width (operand_at arguments.now 0) }
    requires second { IsOperand (second_width which width) (operand_at arguments.now 1) }
    requires third { IsOperand (third_width which width) (operand_at arguments.now 2) }
    ensures { (m : Blocks) → evaluates which width arguments.now m ≡ answer_of result m [] }
{
    let first = operand_at(arguments, 0);
    let second = operand_at(arguments, 1);
    let third = operand_at(arguments, 2);
    HostAnswer::Gives(Some(apply(which, width, first, second, third)))
}
