//! Constants that are marked: those that kept definitions write.
ghost use Rattle.std.specs.Prelude.{◌++◌, [], flat_map};
ghost use Rattle.std.specs.Option.{option_map_or};
ghost use Rattle.extract_rules.specs.KeptNames.Marks.{MarksAll, in_const, in_value, in_operand, in_parts, in_inst, in_ending, in_block};

use module_arena::{
    Block, Case, Choice, Const, ConstId, Ending, Incoming, Inst, Operand, TypedConst, Value,
};

/// Marks a constant; one behind the last is none.
pub(crate) fn mark(marks: &mut [bool], id: ConstId)
    ensures { MarksAll marks.old (λ cs. in_const cs id) marks.new }
{
    let place = id.number() as usize;
    if place < marks.len() {
        marks[place] = true;
    }
}

/// Marks the constants of a list.
fn mark_all_typed(marks: &mut [bool], list: &[TypedConst])
    ensures { MarksAll marks.old (λ cs. flat_map (λ t. in_const cs t.value) list.now) marks.new }
{
    for typed in list {
        mark(marks, typed.value);
    }
}

fn mark_pair(marks: &mut [bool], left: ConstId, right: ConstId)
    ensures { MarksAll marks.old (λ cs. in_const cs left ++ in_const cs right) marks.new }
{
    mark(marks, left);
    mark(marks, right);
}

/// Marks the parts of a constant.
pub(crate) fn mark_parts(marks: &mut [bool], constant: &Const)
    ensures { MarksAll marks.old (λ cs. in_parts cs constant.now) marks.new }
{
    match constant {
        Const::Aggregate(_, elements) => mark_all_typed(marks, elements.as_slice()),
        Const::ElementAddress(_, address) => {
            mark_all_typed(marks, address.get().operands.as_slice())
        }
        Const::Cast(_, operand, _) => mark(marks, operand.value),
        Const::Binary(_, _, pair) => {
            mark_pair(marks, pair.get().left.value, pair.get().right.value)
        }
        _ => {}
    }
}

fn mark_value(marks: &mut [bool], value: Value)
    ensures { MarksAll marks.old (λ cs. in_value cs value) marks.new }
{
    match value {
        Value::Known(id) => mark(marks, id),
        Value::Local(_) => {}
    }
}

fn mark_all(marks: &mut [bool], operands: &[Operand])
    ensures { MarksAll marks.old (λ cs. flat_map (in_operand cs) operands.now) marks.new }
{
    for operand in operands {
        mark_value(marks, operand.value);
    }
}

fn mark_all_incoming(marks: &mut [bool], list: &[Incoming])
    ensures { MarksAll marks.old (λ cs. flat_map (λ i. in_value cs i.value) list.now) marks.new }
{
    for incoming in list {
        mark_value(marks, incoming.value);
    }
}

fn mark_all_cases(marks: &mut [bool], cases: &[Case])
    ensures { MarksAll marks.old (λ cs. flat_map (λ c. in_const cs c.value) cases.now) marks.new }
{
    for case in cases {
        mark(marks, case.value);
    }
}

/// Marks the constants in two values.
fn mark_two(marks: &mut [bool], first: Value, second: Value)
    ensures { MarksAll marks.old (λ cs. in_value cs first ++ in_value cs second) marks.new }
{
    mark_value(marks, first);
    mark_value(marks, second);
}

/// Marks the constants in the parts of a `select`.
fn mark_choice(marks: &mut [bool], choice: &Choice)
    ensures { MarksAll marks.old (λ cs. in_operand cs choice.now.condition ++ (in_operand cs choice.now.first ++ in_operand cs choice.now.second)) marks.new }
{
    mark_value(marks, choice.condition.value);
    mark_two(marks, choice.first.value, choice.second.value);
}

/// Marks the constants in a value and in operands.
fn mark_with(marks: &mut [bool], first: Value, operands: &[Operand])
    ensures { MarksAll marks.old (λ cs. in_value cs first ++ flat_map (in_operand cs) operands.now) marks.new }
{
    mark_value(marks, first);
    mark_all(marks, operands);
}

/// Marks the constant in an operand, where there is one.
fn mark_count(marks: &mut [bool], count: &Option<Operand>)
    ensures { MarksAll marks.old (λ cs. option_map_or (in_operand cs) count.now []) marks.new }
{
    match count {
        Some(operand) => mark_value(marks, operand.value),
        None => {}
    }
}

/// Marks the constants in an instruction.
fn mark_instruction(marks: &mut [bool], instruction: &Inst)
    ensures { MarksAll marks.old (λ cs. in_inst cs instruction.now) marks.new }
{
    match instruction {
        Inst::Binary(_, _, _, left, right) => mark_two(marks, left.value, *right),
        Inst::Compare(_, _, _, left, right) => mark_two(marks, left.value, *right),
        Inst::Convert(_, _, _, operand, _) => mark_value(marks, operand.value),
        Inst::Select(_, choice) => mark_choice(marks, choice.get()),
        Inst::Freeze(_, operand) => mark_value(marks, operand.value),
        Inst::Phi(_, _, incoming) => mark_all_incoming(marks, incoming.as_slice()),
        Inst::Load(_, _, _, address, _) => mark_value(marks, address.value),
        Inst::Store(_, value, address, _) => mark_two(marks, value.value, address.value),
        Inst::Alloca(_, _, count, _) => mark_count(marks, count),
        Inst::GetElementPtr(_, _, _, base, indices) => {
            mark_with(marks, base.value, indices.as_slice())
        }
        Inst::Call(call) => { mark_with(marks, call.get().callee, call.get().arguments.as_slice()) }
        Inst::ExtractValue(_, aggregate, _) => mark_value(marks, aggregate.value),
        Inst::InsertValue(_, insertion) => {
            let insertion = insertion.get();
            mark_two(marks, insertion.aggregate.value, insertion.part.value)
        }
    }
}

fn mark_switch(marks: &mut [bool], value: Value, cases: &[Case])
    ensures { MarksAll marks.old (λ cs. in_value cs value ++ flat_map (λ c. in_const cs c.value) cases.now) marks.new }
{
    mark_value(marks, value);
    mark_all_cases(marks, cases);
}

/// Marks the constants in the end of a block.
fn mark_ending(marks: &mut [bool], ending: &Ending)
    ensures { MarksAll marks.old (λ cs. in_ending cs ending.now) marks.new }
{
    match ending {
        Ending::Return(operand) => mark_value(marks, operand.value),
        Ending::Branch { condition, .. } => mark_value(marks, condition.value),
        Ending::Switch { value, cases, .. } => mark_switch(marks, value.value, cases.as_slice()),
        Ending::ReturnVoid => {}
        Ending::Jump(_) => {}
        Ending::Unreachable => {}
    }
}

fn mark_instructions(marks: &mut [bool], instructions: &[Inst])
    ensures { MarksAll marks.old (λ cs. flat_map (in_inst cs) instructions.now) marks.new }
{
    for instruction in instructions {
        mark_instruction(marks, instruction);
    }
}

fn mark_block(marks: &mut [bool], block: &Block)
    ensures { MarksAll marks.old (λ cs. in_block cs block.now) marks.new }
{
    mark_instructions(marks, block.instructions.as_slice());
    mark_ending(marks, &block.end);
}

/// Marks the constants in some blocks.
pub(crate) fn mark_blocks(marks: &mut [bool], blocks: &[Block])
    ensures { MarksAll marks.old (λ cs. flat_map (in_block cs) blocks.now) marks.new }
{
    for block in blocks {
        mark_block(marks, block);
    }
}
