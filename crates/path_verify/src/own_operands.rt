//! The operands of an instruction, each looked at where it stands: whether it has the type that is written before it, and is a constant
//! or one of the first so many values.
ghost use Rattle.std.specs.Prelude.{◌≡◌, ◌<◌, true, All, length};
ghost use Rattle.std.specs.Option.{option_to_list};
ghost use Rattle.std.specs.List.{list_all};
ghost use Rattle.module_arena.specs.Known.{HasOperand};
ghost use Rattle.path_rows.specs.Operands.{operands_of, pair};
ghost use Rattle.instruction_verify.specs.Last.ValuesById.{AreTypes};
ghost use Rattle.path_verify.specs.Ready.{operand_passes};

use entry_verify::constants::Judge;
use instruction_verify::last::{LocalType, has_type};
use instruction_verify::uses::is_value_given;
use module_arena::{Inst, Operand, Value};

/// Whether an operand has the type that is written before it, and is a constant or one of the first so many values.
#[inline(always)]
fn operand_passes(
    judge: &Judge<'_>,
    value_types: &[LocalType],
    given: u64,
    operand: Operand,
) -> bool
    requires types { AreTypes judge.now.table value_types.now }
    requires known { HasOperand (length judge.now.table.types) (length judge.now.constants) (length value_types.now) operand }
    ensures { result ≡ operand_passes judge.now.table value_types.now given operand }
{
    if !is_value_given(given, operand.value) {
        return false;
    }
    has_type(judge, value_types, operand.ty, operand.value)
}

/// Whether each of these operands passes.
#[inline(always)]
fn operands_pass(
    judge: &Judge<'_>,
    value_types: &[LocalType],
    given: u64,
    operands: &[Operand],
) -> bool
    requires types { AreTypes judge.now.table value_types.now }
    requires known { All (HasOperand (length judge.now.table.types) (length judge.now.constants) (length value_types.now)) operands.now }
    ensures { result ≡ list_all (operand_passes judge.now.table value_types.now given) operands.now }
{
    for operand in operands {
        if !operand_passes(judge, value_types, given, *operand) {
            return false;
        }
    }
    true
}

/// Whether an operand with a type, and a value of the same type, pass.
#[inline(always)]
fn pair_passes(
    judge: &Judge<'_>,
    value_types: &[LocalType],
    given: u64,
    left: Operand,
    right: Value,
) -> bool
    requires types { AreTypes judge.now.table value_types.now }
    requires known { All (HasOperand (length judge.now.table.types) (length judge.now.constants) (length value_types.now)) (pair left right) }
    ensures { result ≡ list_all (operand_passes judge.now.table value_types.now given) (pair left right) }
{
    let other = Operand {
        ty: left.ty,
        value: right,
    };
    operands_pass(judge, value_types, given, &[left, other])
}

/// Whether each operand of an instruction passes. It is false of each phi.
#[inline(always)]
pub(crate) fn own_operands_pass(
    judge: &Judge<'_>,
    types: &[LocalType],
    given: u64,
    instruction: &Inst,
) -> bool
    requires types { AreTypes judge.now.table types.now }
    requires known { All (HasOperand (length judge.now.table.types) (length judge.now.constants) (length types.now)) (operands_of instruction.now) }
    ensures { result ≡ true → list_all (operand_passes judge.now.table types.now given) (operands_of instruction.now) ≡ true }
{
    match instruction {
        Inst::Binary(_, _, _, left, right) => pair_passes(judge, types, given, *left, *right),
        Inst::Compare(_, _, _, left, right) => pair_passes(judge, types, given, *left, *right),
        Inst::Convert(_, _, _, operand, _) => operand_passes(judge, types, given, *operand),
        Inst::Select(_, choice) => {
            let choice = choice.get();
            let operands = [choice.condition, choice.first, choice.second];
            operands_pass(judge, types, given, &operands)
        }
        Inst::Freeze(_, operand) => operand_passes(judge, types, given, *operand),
        Inst::Phi(_, _, _) => false,
        Inst::Load(_, _, _, address, _) => operand_passes(judge, types, given, *address),
        Inst::Store(_, stored, address, _) => {
            operands_pass(judge, types, given, &[*stored, *address])
        }
        Inst::Alloca(_, _, count, _) => count_passes(judge, types, given, *count),
        Inst::GetElementPtr(_, _, _, base, indices) => {
            let others = operands_pass(judge, types, given, indices.as_slice());
            operand_passes(judge, types, given, *base) & others
        }
        Inst::Call(call) => operands_pass(judge, types, given, call.get().arguments.as_slice()),
        Inst::ExtractValue(_, aggregate, _) => operand_passes(judge, types, given, *aggregate),
        Inst::InsertValue(_, insertion) => {
            let insertion = insertion.get();
            operands_pass(judge, types, given, &[insertion.aggregate, insertion.part])
        }
    }
}

/// Whether the count of an `alloca` passes, where one is written.
fn count_passes(
    judge: &Judge<'_>,
    value_types: &[LocalType],
    given: u64,
    count: Option<Operand>,
) -> bool
    requires types { AreTypes judge.now.table value_types.now }
    requires known { All (HasOperand (length judge.now.table.types) (length judge.now.constants) (length value_types.now)) (option_to_list count) }
    ensures { result ≡ true → list_all (operand_passes judge.now.table value_types.now given) (option_to_list count) ≡ true }
{
    match count {
        Some(operand) => operand_passes(judge, value_types, given, operand),
        None => true,
    }
}
