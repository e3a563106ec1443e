//! What is known of operands, each looked at once.
ghost use Rattle.std.specs.Prelude.{◌≡◌, ◌<◌, [], ◌∷◌, List, All, length, map, option_to_list};
ghost use Rattle.std.specs.Option.{option_map};
ghost use Rattle.module_arena.specs.Module.{LocalName};
ghost use Rattle.module_arena.specs.Mentions.{end_operands_of};
ghost use Rattle.module_arena.specs.Operations.{ending_operands, operands};
ghost use Rattle.module_arena.specs.View.{module_of};
ghost use Rattle.instruction_verify.specs.ArenaOperands.{HasCase, HasConstant, HasInst, HasOperand, all_pass, both_operand_facts, case_operand_in, ending_in, instruction_in, operand_fact, operand_in, operands_fact, phi_operand_in};

use entry_verify::constants::Judge;
use module_arena::{Case, Ending, Incoming, Inst, Operand, Value};
use std::slice;
use type_table::TypeId;

/// What is known of some operands.
#[derive(Clone, Copy)]
pub(crate) struct OperandFact {
    /// They take the address of no intrinsic.
    pub(crate) takes_no_intrinsic: bool,
    /// Values of their types are handed on, and the types that they write suit.
    pub(crate) types_suit: bool,
    /// The constants among them fit the types that are written before them.
    pub(crate) fits: bool,
}

impl OperandFact {
    /// What is known of no operand.
    fn all_pass() -> OperandFact
        ensures { result ≡ all_pass }
    {
        OperandFact {
            takes_no_intrinsic: true,
            types_suit: true,
            fits: true,
        }
    }

    /// What holds of both.
    fn and(self, other: OperandFact) -> OperandFact
        ensures { result ≡ both_operand_facts self other }
    {
        OperandFact {
            takes_no_intrinsic: self.takes_no_intrinsic & other.takes_no_intrinsic,
            types_suit: self.types_suit & other.types_suit,
            fits: self.fits & other.fits,
        }
    }
}

/// What is known of a value where that type is written.
#[inline(always)]
fn value_fact(judge: &Judge<'_>, ty: TypeId, value: Value) -> OperandFact
    requires ty { ty < length judge.now.table.types }
    requires value { HasConstant judge.now value }
    ensures { (values blocks : List LocalName) → result ≡ operand_fact (module_of judge.now) (operand_in judge.now values blocks (record { ty = ty; value = value })) }
{
    let passable = judge.types().is_passable(ty);
    match value {
        Value::Local(_) => OperandFact {
            takes_no_intrinsic: true,
            types_suit: passable,
            fits: true,
        },
        Value::Known(id) => OperandFact {
            takes_no_intrinsic: judge.takes_no_intrinsic(id),
            types_suit: passable & judge.types_suit(id),
            fits: judge.fits(ty, id),
        },
    }
}

/// What is known of these operands.
#[inline(always)]
pub(crate) fn operands_fact(judge: &Judge<'_>, operands: &[Operand]) -> OperandFact
    requires { All (HasOperand judge.now) operands.now }
    ensures { (values blocks : List LocalName) → result ≡ operands_fact (module_of judge.now) (map (operand_in judge.now values blocks) operands.now) }
{
    let mut all = OperandFact::all_pass();
    'operands: for operand in operands {
        all = all.and(value_fact(judge, operand.ty, operand.value));
    }
    all
}

/// What is known of the values of a phi.
fn incoming_fact(judge: &Judge<'_>, ty: TypeId, incoming: &[Incoming]) -> OperandFact
    requires ty { ty < length judge.now.table.types }
    requires values { All (λ i. HasConstant judge.now i.value) incoming.now }
    ensures { (values blocks : List LocalName) → result ≡ operands_fact (module_of judge.now) (map (phi_operand_in judge.now values blocks ty) incoming.now) }
{
    let mut all = OperandFact::all_pass();
    'values: for entry in incoming {
        all = all.and(value_fact(judge, ty, entry.value));
    }
    all
}

/// What is known of an operand with a type, and of a value of the same type.
#[inline(always)]
fn pair_fact(judge: &Judge<'_>, left: Operand, right: Value) -> OperandFact
    requires left { HasOperand judge.now left }
    requires right { HasConstant judge.now right }
    ensures { (values blocks : List LocalName) → result ≡ operands_fact (module_of judge.now) (map (operand_in judge.now values blocks) (left ∷ record { ty = left.ty; value = right } ∷ [])) }
{
    let second = value_fact(judge, left.ty, right);
    value_fact(judge, left.ty, left.value).and(second)
}

/// What is known of the operands of an instruction.
#[inline(always)]
pub(crate) fn instruction_fact(judge: &Judge<'_>, instruction: &Inst) -> OperandFact
    requires { HasInst judge.now instruction.now }
    ensures { (values blocks : List LocalName) → result ≡ operands_fact (module_of judge.now) (operands (instruction_in judge.now values blocks instruction.now).operation) }
{
    match instruction {
        Inst::Binary(_, _, _, left, right) => pair_fact(judge, *left, *right),
        Inst::Compare(_, _, _, left, right) => pair_fact(judge, *left, *right),
        Inst::Convert(_, _, _, operand, _) => operands_fact(judge, slice::from_ref(operand)),
        Inst::Select(_, choice) => {
            let choice = choice.get();
            operands_fact(judge, &[choice.condition, choice.first, choice.second])
        }
        Inst::Freeze(_, operand) => operands_fact(judge, slice::from_ref(operand)),
        Inst::Phi(_, ty, incoming) => incoming_fact(judge, *ty, incoming.as_slice()),
        Inst::Load(_, _, _, address, _) => operands_fact(judge, slice::from_ref(address)),
        Inst::Store(_, stored, address, _) => operands_fact(judge, &[*stored, *address]),
        Inst::Alloca(_, _, count, _) => count_fact(judge, *count),
        Inst::GetElementPtr(_, _, _, base, indices) => {
            let others = operands_fact(judge, indices.as_slice());
            operands_fact(judge, slice::from_ref(base)).and(others)
        }
        Inst::Call(call) => operands_fact(judge, call.get().arguments.as_slice()),
        Inst::ExtractValue(_, aggregate, _) => operands_fact(judge, slice::from_ref(aggregate)),
        Inst::InsertValue(_, insertion) => {
            let insertion = insertion.get();
            operands_fact(judge, &[insertion.aggregate, insertion.part])
        }
    }
}

/// What is known of the count of an `alloca`, where one is written.
fn count_fact(judge: &Judge<'_>, count: Option<Operand>) -> OperandFact
    requires { All (HasOperand judge.now) (option_to_list count) }
    ensures { (values blocks : List LocalName) → result ≡ operands_fact (module_of judge.now) (option_to_list (option_map (operand_in judge.now values blocks) count)) }
{
    match count {
        Some(operand) => value_fact(judge, operand.ty, operand.value),
        None => OperandFact::all_pass(),
    }
}

/// What is known of the numbers of cases.
fn cases_fact(judge: &Judge<'_>, cases: &[Case]) -> OperandFact
    requires { All (HasCase judge.now) cases.now }
    ensures { (values blocks : List LocalName) → result ≡ operands_fact (module_of judge.now) (map (case_operand_in judge.now values blocks) cases.now) }
{
    let mut all = OperandFact::all_pass();
    'cases: for case in cases {
        all = all.and(value_fact(judge, case.ty, Value::Known(case.value)));
    }
    all
}

/// What is known of the operands of the end of a block.
#[inline(always)]
pub(crate) fn ending_fact(judge: &Judge<'_>, ending: &Ending) -> OperandFact
    requires { All (HasOperand judge.now) (end_operands_of ending.now) }
    ensures { (values blocks : List LocalName) → result ≡ operands_fact (module_of judge.now) (ending_operands (ending_in judge.now values blocks ending.now)) }
{
    match ending {
        Ending::Return(operand) => operands_fact(judge, slice::from_ref(operand)),
        Ending::Branch { condition, .. } => operands_fact(judge, slice::from_ref(condition)),
        Ending::Switch { value, cases, .. } => {
            let others = cases_fact(judge, cases.as_slice());
            operands_fact(judge, slice::from_ref(value)).and(others)
        }
        Ending::ReturnVoid | Ending::Jump(_) | Ending::Unreachable => OperandFact::all_pass(),
    }
}
