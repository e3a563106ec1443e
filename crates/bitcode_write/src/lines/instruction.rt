//! Instructions as operands.
ghost use Rattle.std.specs.Prelude.{◌≡◌, ◌<◌, ◌++◌, ◌∷◌, [], length, All, IfSome, OnOk, option_to_list};
ghost use Rattle.ir_tables.specs.Predicate.{predicate_code};
ghost use Rattle.type_table.specs.Tree.{ptr};
ghost use Rattle.type_table.specs.Types.{tree};
ghost use Rattle.module_arena.specs.declared.entry.Function as the_function;
ghost use Rattle.module_arena.specs.Lists.{value_names};
ghost use Rattle.record_table.specs.Fields.{alignment};
ghost use Rattle.record_table.specs.Standing.{HasCode};
ghost use Rattle.record_table.specs.Lines as lines;
ghost use Rattle.record_write.specs.Operands.Numbered.{inside, texts};
ghost use Rattle.record_write.specs.Operands.Wide.{IsBody, KnowsValue, HasValueAt, HasOperandIn, HasIncomingIn};
ghost use Rattle.bitcode_write.specs.Lines.Ids.{KnowsOperand, KnowsOperands, KnowsIncoming, KnowsChoice, KnowsParts, KnowsLine};
ghost use Rattle.bitcode_write.specs.Lines.Lines.{instruction_of, IsLine, IsChoiceIn, PartsStand};
ghost use Rattle.bitcode_write.specs.Lines.Parts.{flags_in, named_in, type_operands, operand_operands, name_operands, result_operands, both_operands, choice_operands, room_operands, address_operands, steps_operands, insertion_operands, extraction_operands, phi_operands, parts_operands};

use crate::lines::call::put_call;
use ir_tables::{Flags, Predicate};
use module_arena::{
    Choice, Function, IncomingList, IndexList, Insertion, Inst, Operand, OperandList, Value,
    ValueId,
};
use record_write::operands::{
    Numbering, put_alignment, put_incoming, put_indices, put_label, put_number, put_operand,
    put_operands, put_value, put_value_at,
};
use std::alloc::AllocError;
use type_table::TypeId;

/// Appends what the value with that id is called.
fn put_result(
    operands: &mut Vec<u64>,
    numbering: &Numbering<'_>,
    function: &Function,
    id: ValueId,
) -> Result<(), AllocError>
    requires { id < length (value_names function.now) }
    ensures { OnOk result (operands.new.items ≡ operands.old.items ++ name_operands numbering.now function.now id) }
{
    put_label(operands, numbering, function.value_name(id))
}

/// Appends what a result is called, where there is one.
pub(crate) fn put_name(
    operands: &mut Vec<u64>,
    numbering: &Numbering<'_>,
    function: &Function,
    id: Option<ValueId>,
) -> Result<(), AllocError>
    requires { IfSome id (λ id. id < length (value_names function.now)) }
    ensures { OnOk result (operands.new.items ≡ operands.old.items ++ result_operands numbering.now function.now id) }
{
    match id {
        Some(id) => put_result(operands, numbering, function, id),
        None => Ok(()),
    }
}

/// Appends flags, where there may be some.
fn put_flags(operands: &mut Vec<u64>, set: Option<Flags>) -> Result<(), AllocError>
    ensures { OnOk result (operands.new.items ≡ operands.old.items ++ option_to_list set) }
{
    match set {
        Some(set) => put_number(operands, u64::from(set.code())),
        None => Ok(()),
    }
}

/// Appends the code of a predicate.
fn put_predicate(operands: &mut Vec<u64>, predicate: Predicate) -> Result<(), AllocError>
    ensures { OnOk result (operands.new.items ≡ operands.old.items ++ predicate_code predicate ∷ []) }
{
    put_number(operands, u64::from(predicate.code()))
}

/// Appends two values of one type, behind it.
fn put_both(
    operands: &mut Vec<u64>,
    numbering: &Numbering<'_>,
    left: Operand,
    right: Value,
) -> Result<(), AllocError>
    requires left { KnowsOperand numbering.now left }
    requires right { KnowsValue (length numbering.now.constants) right }
    ensures { (f : the_function.Function) → IsBody numbering.now f → HasOperandIn numbering.now f left → HasValueAt numbering.now f (tree numbering.now.table left.ty) right
        → OnOk result (operands.new.items ≡ operands.old.items ++ both_operands numbering.now f left right) }
{
    let ty = left.ty;
    put_operand(operands, numbering, left)?;
    put_value_at(operands, numbering, ty, right)
}

/// Appends an `icmp` behind its flags: the predicate, and both values behind their type.
fn put_compare(
    operands: &mut Vec<u64>,
    numbering: &Numbering<'_>,
    predicate: Predicate,
    left: Operand,
    right: Value,
) -> Result<(), AllocError>
    requires left { KnowsOperand numbering.now left }
    requires right { KnowsValue (length numbering.now.constants) right }
    ensures { (f : the_function.Function) → IsBody numbering.now f → HasOperandIn numbering.now f left → HasValueAt numbering.now f (tree numbering.now.table left.ty) right
        → OnOk result (operands.new.items ≡ operands.old.items ++ (predicate_code predicate ∷ both_operands numbering.now f left right)) }
{
    put_predicate(operands, predicate)?;
    put_both(operands, numbering, left, right)
}

/// Appends a cast behind its flags: the operand, and the type to which it is cast.
fn put_convert(
    operands: &mut Vec<u64>,
    numbering: &Numbering<'_>,
    operand: Operand,
    to: TypeId,
) -> Result<(), AllocError>
    requires operand { KnowsOperand numbering.now operand }
    requires to { to < length numbering.now.table.types }
    ensures { (f : the_function.Function) → IsBody numbering.now f → HasOperandIn numbering.now f operand
        → OnOk result (operands.new.items ≡ operands.old.items ++ (operand_operands numbering.now f operand ++ type_operands numbering.now f to)) }
{
    put_operand(operands, numbering, operand)?;
    numbering.put_type(operands, to)
}

/// Appends a `select`: the type of both arms, the condition, and the arms.
fn put_choice(
    operands: &mut Vec<u64>,
    numbering: &Numbering<'_>,
    choice: &Choice,
) -> Result<(), AllocError>
    requires { KnowsChoice numbering.now choice.now }
    ensures { (f : the_function.Function) → IsChoiceIn numbering.now f choice.now → OnOk result (operands.new.items ≡ operands.old.items ++ choice_operands numbering.now f choice.now) }
{
    let ty = choice.first.ty;
    numbering.put_type(operands, ty)?;
    put_value(operands, numbering, false, choice.condition.value)?;
    put_value_at(operands, numbering, ty, choice.first.value)?;
    put_value_at(operands, numbering, ty, choice.second.value)
}

/// Appends an operand that may lack, which is there: 1, and the operand.
pub(crate) fn put_some(
    operands: &mut Vec<u64>,
    numbering: &Numbering<'_>,
    part: Operand,
) -> Result<(), AllocError>
    requires { KnowsOperand numbering.now part }
    ensures { (f : the_function.Function) → IsBody numbering.now f → HasOperandIn numbering.now f part
        → OnOk result (operands.new.items ≡ operands.old.items ++ (1 ∷ operand_operands numbering.now f part)) }
{
    put_number(operands, 1)?;
    put_operand(operands, numbering, part)
}

/// Appends the count of an `alloca` behind 1, or 0 where it has none.
fn put_room(
    operands: &mut Vec<u64>,
    numbering: &Numbering<'_>,
    count: Option<Operand>,
) -> Result<(), AllocError>
    requires { IfSome count (KnowsOperand numbering.now) }
    ensures { (f : the_function.Function) → IsBody numbering.now f → IfSome count (HasOperandIn numbering.now f)
        → OnOk result (operands.new.items ≡ operands.old.items ++ room_operands numbering.now f count) }
{
    match count {
        Some(count) => put_some(operands, numbering, count),
        None => put_number(operands, 0),
    }
}

/// Appends the address of a `load` or `store`, which has the type of addresses, and the alignment.
fn put_address(
    operands: &mut Vec<u64>,
    numbering: &Numbering<'_>,
    address: Operand,
    align: Option<u32>,
) -> Result<(), AllocError>
    requires { KnowsOperand numbering.now address }
    ensures { (f : the_function.Function) → IsBody numbering.now f → HasValueAt numbering.now f ptr address.value → HasCode align
        → OnOk result (operands.new.items ≡ operands.old.items ++ address_operands numbering.now f address align) }
{
    put_value(operands, numbering, false, address.value)?;
    put_alignment(operands, align)
}

/// Appends a `load` behind its flags: the type, the address and the alignment.
fn put_load(
    operands: &mut Vec<u64>,
    numbering: &Numbering<'_>,
    ty: TypeId,
    address: Operand,
    align: Option<u32>,
) -> Result<(), AllocError>
    requires ty { ty < length numbering.now.table.types }
    requires address { KnowsOperand numbering.now address }
    ensures { (f : the_function.Function) → IsBody numbering.now f → HasValueAt numbering.now f ptr address.value → HasCode align
        → OnOk result (operands.new.items ≡ operands.old.items ++ (type_operands numbering.now f ty ++ address_operands numbering.now f address align)) }
{
    numbering.put_type(operands, ty)?;
    put_address(operands, numbering, address, align)
}

/// Appends a `store` behind its flags: the value, the address and the alignment.
fn put_store(
    operands: &mut Vec<u64>,
    numbering: &Numbering<'_>,
    stored: Operand,
    address: Operand,
    align: Option<u32>,
) -> Result<(), AllocError>
    requires stored { KnowsOperand numbering.now stored }
    requires address { KnowsOperand numbering.now address }
    ensures { (f : the_function.Function) → IsBody numbering.now f → HasOperandIn numbering.now f stored → HasValueAt numbering.now f ptr address.value → HasCode align
        → OnOk result (operands.new.items ≡ operands.old.items ++ (operand_operands numbering.now f stored ++ address_operands numbering.now f address align)) }
{
    put_operand(operands, numbering, stored)?;
    put_address(operands, numbering, address, align)
}

/// Appends an `alloca` behind its result: the type, the count and the alignment.
fn put_alloca(
    operands: &mut Vec<u64>,
    numbering: &Numbering<'_>,
    ty: TypeId,
    count: Option<Operand>,
    align: Option<u32>,
) -> Result<(), AllocError>
    requires ty { ty < length numbering.now.table.types }
    requires count { IfSome count (KnowsOperand numbering.now) }
    ensures { (f : the_function.Function) → IsBody numbering.now f → IfSome count (HasOperandIn numbering.now f) → HasCode align
        → OnOk result (operands.new.items ≡ operands.old.items ++ (type_operands numbering.now f ty ++ (room_operands numbering.now f count ++ alignment.spell align))) }
{
    numbering.put_type(operands, ty)?;
    put_room(operands, numbering, count)?;
    put_alignment(operands, align)
}

/// Appends a `getelementptr` behind its flags: source type, base, and a count of indices with their types.
fn put_steps(
    operands: &mut Vec<u64>,
    numbering: &Numbering<'_>,
    source: TypeId,
    base: Operand,
    indices: &OperandList,
) -> Result<(), AllocError>
    requires source { source < length numbering.now.table.types }
    requires base { KnowsOperand numbering.now base }
    requires indices { KnowsOperands numbering.now indices.now }
    ensures { (f : the_function.Function) → IsBody numbering.now f → HasValueAt numbering.now f ptr base.value → All (HasOperandIn numbering.now f) indices.now
        → OnOk result (operands.new.items ≡ operands.old.items ++ steps_operands numbering.now f source base indices.now) }
{
    numbering.put_type(operands, source)?;
    put_value(operands, numbering, false, base.value)?;
    put_operands(operands, numbering, indices.as_slice())
}

/// Appends an `insertvalue` behind its result: both operands, and a count of indices.
fn put_insertion(
    operands: &mut Vec<u64>,
    numbering: &Numbering<'_>,
    insertion: &Insertion,
) -> Result<(), AllocError>
    requires aggregate { KnowsOperand numbering.now insertion.now.aggregate }
    requires part { KnowsOperand numbering.now insertion.now.part }
    ensures { (f : the_function.Function) → IsBody numbering.now f → HasOperandIn numbering.now f insertion.now.aggregate → HasOperandIn numbering.now f insertion.now.part
        → OnOk result (operands.new.items ≡ operands.old.items ++ insertion_operands numbering.now f insertion.now) }
{
    put_operand(operands, numbering, insertion.aggregate)?;
    put_operand(operands, numbering, insertion.part)?;
    put_indices(operands, insertion.indices.as_slice())
}

/// Appends a phi behind its result: its type, and a count of values with their blocks.
fn put_phi(
    operands: &mut Vec<u64>,
    numbering: &Numbering<'_>,
    ty: TypeId,
    incoming: &IncomingList,
) -> Result<(), AllocError>
    requires ty { ty < length numbering.now.table.types }
    requires incoming { KnowsIncoming numbering.now incoming.now }
    ensures { (f : the_function.Function) → IsBody numbering.now f → All (HasIncomingIn numbering.now f (tree numbering.now.table ty)) incoming.now
        → OnOk result (operands.new.items ≡ operands.old.items ++ phi_operands numbering.now f ty incoming.now) }
{
    numbering.put_type(operands, ty)?;
    put_incoming(operands, numbering, ty, incoming.as_slice())
}

/// Appends an `extractvalue` behind its result: the operand, and a count of indices.
fn put_extraction(
    operands: &mut Vec<u64>,
    numbering: &Numbering<'_>,
    aggregate: Operand,
    indices: &IndexList,
) -> Result<(), AllocError>
    requires { KnowsOperand numbering.now aggregate }
    ensures { (f : the_function.Function) → IsBody numbering.now f → HasOperandIn numbering.now f aggregate
        → OnOk result (operands.new.items ≡ operands.old.items ++ extraction_operands numbering.now f aggregate indices.now) }
{
    put_operand(operands, numbering, aggregate)?;
    put_indices(operands, indices.as_slice())
}

/// Appends what stands behind the name of a result and the flags.
fn put_parts(
    operands: &mut Vec<u64>,
    numbering: &Numbering<'_>,
    function: &Function,
    instruction: &Inst,
) -> Result<(), AllocError>
    requires { KnowsParts numbering.now function.now instruction.now }
    ensures { IsBody numbering.now function.now → PartsStand numbering.now function.now instruction.now
        → OnOk result (operands.new.items ≡ operands.old.items ++ parts_operands numbering.now function.now instruction.now) }
{
    match instruction {
        Inst::Binary(_, _, _, left, right) => put_both(operands, numbering, *left, *right),
        Inst::Compare(_, predicate, _, left, right) => {
            put_compare(operands, numbering, *predicate, *left, *right)
        }
        Inst::Convert(_, _, _, operand, to) => put_convert(operands, numbering, *operand, *to),
        Inst::Select(_, choice) => put_choice(operands, numbering, choice.get()),
        Inst::Freeze(_, operand) => put_operand(operands, numbering, *operand),
        Inst::Phi(_, ty, incoming) => put_phi(operands, numbering, *ty, incoming),
        Inst::Load(_, _, ty, address, align) => {
            put_load(operands, numbering, *ty, *address, *align)
        }
        Inst::Store(_, stored, address, align) => {
            put_store(operands, numbering, *stored, *address, *align)
        }
        Inst::Alloca(_, ty, count, align) => put_alloca(operands, numbering, *ty, *count, *align),
        Inst::GetElementPtr(_, _, source, base, indices) => {
            put_steps(operands, numbering, *source, *base, indices)
        }
        Inst::ExtractValue(_, aggregate, indices) => {
            put_extraction(operands, numbering, *aggregate, indices)
        }
        Inst::InsertValue(_, insertion) => put_insertion(operands, numbering, insertion.get()),
        Inst::Call(call) => put_call(operands, numbering, function, call.get()),
    }
}

/// The result whose name stands first. That of a call stands behind its type.
fn named_first(instruction: &Inst) -> Option<ValueId>
    ensures { result ≡ named_in instruction.now }
{
    match instruction {
        Inst::Binary(_, _, result, _, _)
        | Inst::Compare(_, _, result, _, _)
        | Inst::Convert(_, _, result, _, _)
        | Inst::Select(result, _)
        | Inst::Freeze(result, _)
        | Inst::Phi(result, _, _)
        | Inst::Load(_, result, _, _, _)
        | Inst::Alloca(result, _, _, _)
        | Inst::GetElementPtr(_, result, _, _, _)
        | Inst::ExtractValue(result, _, _)
        | Inst::InsertValue(result, _) => Some(*result),
        Inst::Store(_, _, _, _) | Inst::Call(_) => None,
    }
}

/// The flags of an instruction that may have some.
fn flags_of(instruction: &Inst) -> Option<Flags>
    ensures { result ≡ flags_in instruction.now }
{
    match instruction {
        Inst::Binary(_, flags, _, _, _)
        | Inst::Convert(_, flags, _, _, _)
        | Inst::Compare(flags, _, _, _, _)
        | Inst::Load(flags, _, _, _, _)
        | Inst::Store(flags, _, _, _)
        | Inst::GetElementPtr(flags, _, _, _, _) => Some(*flags),
        Inst::Select(_, _)
        | Inst::Freeze(_, _)
        | Inst::Phi(_, _, _)
        | Inst::Alloca(_, _, _, _)
        | Inst::Call(_)
        | Inst::ExtractValue(_, _, _)
        | Inst::InsertValue(_, _) => None,
    }
}

/// Appends an instruction of the function. Only memory may be wanting.
pub fn put_instruction(
    operands: &mut Vec<u64>,
    numbering: &Numbering<'_>,
    function: &Function,
    instruction: &Inst,
) -> Result<(), AllocError>
    requires { KnowsLine numbering.now function.now instruction.now }
    ensures { IsLine numbering.now function.now instruction.now
        → OnOk result (operands.new.items ≡ operands.old.items
        ++ (lines.instruction (texts numbering.now) (inside numbering.now function.now) 0 (lines.operation_opcode (instruction_of numbering.now function.now instruction.now).operation)).spell
        (instruction_of numbering.now function.now instruction.now)) }
{
    put_name(operands, numbering, function, named_first(instruction))?;
    put_flags(operands, flags_of(instruction))?;
    put_parts(operands, numbering, function, instruction)
}
