//! Judges what instructions do (LangRef, "Instruction Reference"), each part where its tokens stand.
#![tactic(auto, using(crate::proofs::OnLocals::Steps::judged_front, crate::proofs::OnLocals::Steps::judged_rest, crate::proofs::OnLocals::Steps::judged_stop, crate::proofs::OnLocals::Steps::judged_next))]

ghost use Rattle.std.specs.Prelude.{◌≡◌, ◌++◌, map, flat_map, option_map};
ghost use Rattle.ir_phrases.specs.Constants.View.{type_view, value_view, typed_value_view};
ghost use Rattle.ir_phrases.specs.Instructions.Tree as tree;
ghost use Rattle.ir_phrases.specs.Instructions.View.{signature_view, call_view, incoming_view, operation_view};
ghost use Rattle.name_rules.specs.FunctionDemands.{value_demands, operand_demands, incoming_demands, signature_demands, count_demands, index_demands, alignment_demands, operation_demands};
ghost use Rattle.name_rules.specs.Locals.{Locals};
ghost use Rattle.name_rules.specs.TypeDemands.{type_demands};
ghost use Rattle.name_rules.specs.Written.{type_in};
ghost use Rattle.type_judge.specs.Gathered.{IsKnown, known_of};
ghost use Rattle.type_judge.specs.Judging.{IsJudged};
ghost use Rattle.name_judge.specs.Locals.Names.{AreGathered, locals_of};

use crate::locals::gathered::FunctionLocals;
use crate::locals::operands::{
    check_callee, check_local, check_operand, check_operands, check_value,
};
use ir_phrases::constants::{Type, TypedValue};
use ir_phrases::instructions::{
    Address, Alloca, CastParts, Extraction, Load, Operands, Operation, Phi, SignatureTypes, Store,
    WrittenCall, WrittenChoice, WrittenIncoming, WrittenInsertion,
};
use name_rules::ResolveFault;
use std::alloc::Global;
use type_judge::{Known, check_alignment, check_indices, check_type, check_types};

/// Two operands of one type.
fn check_pair(
    alloc: Global,
    known: &Known,
    locals: &FunctionLocals,
    operands: &Operands,
) -> Result<(), ResolveFault>
    requires known { IsKnown known.now }
    requires locals { AreGathered locals.now }
    ensures { IsJudged (operand_demands (known_of known.now) (locals_of locals.now) (typed_value_view operands.now.left) ++ value_demands (known_of known.now) (locals_of locals.now) (type_in (type_view operands.now.left.ty)) (value_view operands.now.right)) result }
{
    check_operand(alloc, known, locals, &operands.left)?;
    check_value(alloc, known, locals, &operands.right, &operands.left.ty)
}

/// A cast.
fn check_conversion(
    alloc: Global,
    known: &Known,
    locals: &FunctionLocals,
    conversion: &CastParts,
) -> Result<(), ResolveFault>
    requires known { IsKnown known.now }
    requires locals { AreGathered locals.now }
    ensures { IsJudged (operand_demands (known_of known.now) (locals_of locals.now) (typed_value_view conversion.now.value) ++ type_demands (known_of known.now) (type_view conversion.now.to)) result }
{
    check_operand(alloc, known, locals, &conversion.value)?;
    check_type(alloc, known, &conversion.to)
}

/// A condition and its two arms.
fn check_choice(
    alloc: Global,
    known: &Known,
    locals: &FunctionLocals,
    choice: &WrittenChoice,
) -> Result<(), ResolveFault>
    requires known { IsKnown known.now }
    requires locals { AreGathered locals.now }
    ensures { IsJudged (operand_demands (known_of known.now) (locals_of locals.now) (typed_value_view choice.now.condition) ++ (operand_demands (known_of known.now) (locals_of locals.now) (typed_value_view choice.now.first) ++ operand_demands (known_of known.now) (locals_of locals.now) (typed_value_view choice.now.second))) result }
{
    check_operand(alloc, known, locals, &choice.condition)?;
    check_operand(alloc, known, locals, &choice.first)?;
    check_operand(alloc, known, locals, &choice.second)
}

/// A value of a phi of that type, and its block.
fn check_incoming(
    alloc: Global,
    known: &Known,
    locals: &FunctionLocals,
    ty: &Type,
    incoming: &WrittenIncoming,
) -> Result<(), ResolveFault>
    requires known { IsKnown known.now }
    requires locals { AreGathered locals.now }
    ensures { IsJudged (incoming_demands (known_of known.now) (locals_of locals.now) (type_in (type_view ty.now)) (incoming_view incoming.now)) result }
{
    check_value(alloc, known, locals, &incoming.value, ty)?;
    check_local(alloc, locals, true, &incoming.block)
}

/// The values of a phi of that type, each of them.
fn check_incomings(
    alloc: Global,
    known: &Known,
    locals: &FunctionLocals,
    ty: &Type,
    incomings: &[WrittenIncoming],
) -> Result<(), ResolveFault>
    requires known { IsKnown known.now }
    requires locals { AreGathered locals.now }
    ensures { IsJudged (flat_map (incoming_demands (known_of known.now) (locals_of locals.now) (type_in (type_view ty.now))) (map incoming_view incomings.now)) result }
{
    'incomings: for incoming in incomings {
        check_incoming(alloc, known, locals, ty, incoming)?;
    }
    Ok(())
}

/// A phi.
fn check_phi(
    alloc: Global,
    known: &Known,
    locals: &FunctionLocals,
    phi: &Phi,
) -> Result<(), ResolveFault>
    requires known { IsKnown known.now }
    requires locals { AreGathered locals.now }
    ensures { IsJudged (type_demands (known_of known.now) (type_view phi.now.ty) ++ flat_map (incoming_demands (known_of known.now) (locals_of locals.now) (type_in (type_view phi.now.ty))) (map incoming_view phi.now.incoming.items)) result }
{
    check_type(alloc, known, &phi.ty)?;
    check_incomings(alloc, known, locals, &phi.ty, &phi.incoming)
}

/// A load.
fn check_load(
    alloc: Global,
    known: &Known,
    locals: &FunctionLocals,
    load: &Load,
) -> Result<(), ResolveFault>
    requires known { IsKnown known.now }
    requires locals { AreGathered locals.now }
    ensures { IsJudged (type_demands (known_of known.now) (type_view load.now.ty) ++ (operand_demands (known_of known.now) (locals_of locals.now) (typed_value_view load.now.address) ++ alignment_demands load.now.alignment)) result }
{
    check_type(alloc, known, &load.ty)?;
    check_operand(alloc, known, locals, &load.address)?;
    check_alignment(&load.alignment)
}

/// A store.
fn check_store(
    alloc: Global,
    known: &Known,
    locals: &FunctionLocals,
    store: &Store,
) -> Result<(), ResolveFault>
    requires known { IsKnown known.now }
    requires locals { AreGathered locals.now }
    ensures { IsJudged (operand_demands (known_of known.now) (locals_of locals.now) (typed_value_view store.now.value) ++ (operand_demands (known_of known.now) (locals_of locals.now) (typed_value_view store.now.address) ++ alignment_demands store.now.alignment)) result }
{
    check_operand(alloc, known, locals, &store.value)?;
    check_operand(alloc, known, locals, &store.address)?;
    check_alignment(&store.alignment)
}

/// The count of an alloca, where it is written.
fn check_count(
    alloc: Global,
    known: &Known,
    locals: &FunctionLocals,
    count: &Option<Box<TypedValue>>,
) -> Result<(), ResolveFault>
    requires known { IsKnown known.now }
    requires locals { AreGathered locals.now }
    ensures { IsJudged (count_demands (known_of known.now) (locals_of locals.now) (option_map (λ b. typed_value_view b.value) count.now)) result }
{
    match count {
        None => Ok(()),
        Some(operand) => check_operand(alloc, known, locals, operand),
    }
}

/// An alloca.
fn check_alloca(
    alloc: Global,
    known: &Known,
    locals: &FunctionLocals,
    alloca: &Alloca,
) -> Result<(), ResolveFault>
    requires known { IsKnown known.now }
    requires locals { AreGathered locals.now }
    ensures { IsJudged (type_demands (known_of known.now) (type_view alloca.now.ty) ++ (count_demands (known_of known.now) (locals_of locals.now) (option_map (λ b. typed_value_view b.value) alloca.now.count) ++ alignment_demands alloca.now.alignment)) result }
{
    check_type(alloc, known, &alloca.ty)?;
    check_count(alloc, known, locals, &alloca.count)?;
    check_alignment(&alloca.alignment)
}

/// A `getelementptr`.
fn check_address(
    alloc: Global,
    known: &Known,
    locals: &FunctionLocals,
    address: &Address,
) -> Result<(), ResolveFault>
    requires known { IsKnown known.now }
    requires locals { AreGathered locals.now }
    ensures { IsJudged (type_demands (known_of known.now) (type_view address.now.source) ++ flat_map (operand_demands (known_of known.now) (locals_of locals.now)) (map typed_value_view address.now.operands.items)) result }
{
    check_type(alloc, known, &address.source)?;
    check_operands(alloc, known, locals, &address.operands)
}

/// The parameters that a call writes, where it writes them.
fn check_signature(
    alloc: Global,
    known: &Known,
    signature: &Option<SignatureTypes>,
) -> Result<(), ResolveFault>
    requires known { IsKnown known.now }
    ensures { (all : Locals) → IsJudged (signature_demands (known_of known.now) all (option_map signature_view signature.now)) result }
{
    match signature {
        None => Ok(()),
        Some(signature) => check_types(alloc, known, &signature.parameters),
    }
}

/// A call.
fn check_call(
    alloc: Global,
    known: &Known,
    locals: &FunctionLocals,
    call: &WrittenCall,
) -> Result<(), ResolveFault>
    requires known { IsKnown known.now }
    requires locals { AreGathered locals.now }
    ensures { IsJudged (operation_demands (known_of known.now) (locals_of locals.now) (tree.Call (call_view call.now))) result }
{
    check_type(alloc, known, &call.returns)?;
    check_signature(alloc, known, &call.signature)?;
    check_callee(alloc, known, locals, &call.callee)?;
    check_operands(alloc, known, locals, &call.arguments)
}

/// An `extractvalue`.
fn check_extraction(
    alloc: Global,
    known: &Known,
    locals: &FunctionLocals,
    extraction: &Extraction,
) -> Result<(), ResolveFault>
    requires known { IsKnown known.now }
    requires locals { AreGathered locals.now }
    ensures { IsJudged (operand_demands (known_of known.now) (locals_of locals.now) (typed_value_view extraction.now.value) ++ index_demands extraction.now.indices.items) result }
{
    check_operand(alloc, known, locals, &extraction.value)?;
    check_indices(&extraction.indices)
}

/// An `insertvalue`.
fn check_insertion(
    alloc: Global,
    known: &Known,
    locals: &FunctionLocals,
    insertion: &WrittenInsertion,
) -> Result<(), ResolveFault>
    requires known { IsKnown known.now }
    requires locals { AreGathered locals.now }
    ensures { IsJudged (operand_demands (known_of known.now) (locals_of locals.now) (typed_value_view insertion.now.value) ++ (operand_demands (known_of known.now) (locals_of locals.now) (typed_value_view insertion.now.part) ++ index_demands insertion.now.indices.items)) result }
{
    check_operand(alloc, known, locals, &insertion.value)?;
    check_operand(alloc, known, locals, &insertion.part)?;
    check_indices(&insertion.indices)
}

/// An operation, in the order of its tokens.
pub(crate) fn check_operation(
    alloc: Global,
    known: &Known,
    locals: &FunctionLocals,
    operation: &Operation,
) -> Result<(), ResolveFault>
    requires known { IsKnown known.now }
    requires locals { AreGathered locals.now }
    ensures { IsJudged (operation_demands (known_of known.now) (locals_of locals.now) (operation_view operation.now)) result }
{
    match operation {
        Operation::Binary { operands, .. } => check_pair(alloc, known, locals, operands),
        Operation::Compare { operands, .. } => check_pair(alloc, known, locals, operands),
        Operation::Cast { conversion, .. } => check_conversion(alloc, known, locals, conversion),
        Operation::Select(choice) => check_choice(alloc, known, locals, choice),
        Operation::Freeze(value) => check_operand(alloc, known, locals, value),
        Operation::Phi(phi) => check_phi(alloc, known, locals, phi),
        Operation::Load { load, .. } => check_load(alloc, known, locals, load),
        Operation::Store { store, .. } => check_store(alloc, known, locals, store),
        Operation::Alloca(alloca) => check_alloca(alloc, known, locals, alloca),
        Operation::GetElementPtr { address, .. } => check_address(alloc, known, locals, address),
        Operation::Call(call) => check_call(alloc, known, locals, call),
        Operation::ExtractValue(extraction) => check_extraction(alloc, known, locals, extraction),
        Operation::InsertValue(insertion) => check_insertion(alloc, known, locals, insertion),
    }
}
